//! The buffer of one partial datagram.
ghost use Rattle.std.specs.Prelude.{◌≡◌, ℕ, ◌+◌, ◌<◌, ◌≤◌, List, [], ◌∷◌, length, slice_index, nat_lt, Some, IfSome, IfOk, option_map, if◌then◌else◌};
ghost use Rattle.es_base.specs.Limits.{longest_joined};
ghost use Rattle.link_rules.specs.Fragments.{Piece, datagram_from};
ghost use Rattle.es_base.specs.Udp.{head_of};
ghost use Rattle.ip_reassembly.specs.Held.{HoldsPieces, written_at};

use crate::marks::{mark, unset, unset_all};
use crate::runs::Runs;
use crate::stretch::{Stretch, placed};
use es_base::Memory;
use frame_reader::UDP_HEADER;
use std::alloc::Global;
use std::marker::Model;

/// The longest datagram that is joined, in octets (own).
pub const LONGEST_JOINED: usize = 8200;

/// Received octets of one datagram, each at its offset, with a mark for each that came.
#[derive(Drop)]
pub struct Buffer {
    /// Length of the datagram, once a piece with no more to follow came.
    total: Option<usize>,
    octets: Vec<u8>,
    marks: Vec<bool>,
    /// Places of the octets that came.
    runs: Runs,
}

impl Model for Buffer {
    ghost use Rattle.std.specs.Prelude.{◌≡◌, length};
    ghost use Rattle.es_base.specs.Limits.{longest_joined};
    ghost use Rattle.ip_reassembly.specs.Runs.{AreRuns};
    ghost use Rattle.ip_reassembly.specs.Held.{Held};
    ghost use Rattle.ip_reassembly.specs.Stretch.{held_of};

    ghost Value = { Held };

    ghost view = { λ b. held_of b.total b.octets.items b.marks.items };

    ghost invariant = { λ b. (length b.octets.items ≡ longest_joined) × (length b.marks.items ≡ longest_joined) × AreRuns b.marks.items b.runs };
}

impl Buffer {
    /// An empty buffer for 8200 octets.
    pub(crate) fn open(alloc: Global) -> Result<Buffer, Memory>
        ensures { IfOk result (λ buffer. HoldsPieces buffer []) }
    {
        let octets = zeros(alloc, LONGEST_JOINED)?;
        let marks = unset(alloc, LONGEST_JOINED)?;
        Ok(Buffer {
            total: None,
            octets,
            marks,
            runs: Runs::none(),
        })
    }

    /// A copy of this buffer and its octets.
    pub(crate) fn copy(&self, alloc: Global) -> Result<Buffer, Memory>
        ensures { IfOk result (λ copy. copy ≡ self.now) }
    {
        let octets = Vec::from_slice(alloc, &self.octets)?;
        let marks = Vec::from_slice(alloc, &self.marks)?;
        Ok(Buffer {
            total: self.total,
            octets,
            marks,
            runs: self.runs,
        })
    }

    /// A copy of the octets that came, without the places before and after them.
    pub(crate) fn stretch(&self, alloc: Global) -> Result<Stretch, Memory>
        ensures { IfOk result (λ stretch. stretch ≡ self.now) }
    {
        let reach = self.runs.reach;
        let least = self.runs.least.min(reach);
        let octets = &self.octets[least..reach];
        let marks = &self.marks[least..reach];
        Stretch::copy_of(alloc, self.total, self.runs, least, octets, marks)
    }

    /// A buffer with a stretch's octets.
    pub(crate) fn of(alloc: Global, stretch: &Stretch) -> Result<Buffer, Memory>
        ensures { IfOk result (λ buffer. buffer ≡ stretch.now) }
    {
        let octets = placed(alloc, 0, stretch.least, &stretch.octets)?;
        let marks = placed(alloc, false, stretch.least, &stretch.marks)?;
        Ok(Buffer {
            total: stretch.total,
            octets,
            marks,
            runs: stretch.runs,
        })
    }

    /// Empties the buffer.
    pub(crate) fn clear(&mut self)
        ensures { HoldsPieces self.new [] }
    {
        self.total = None;
        unset_all(&mut self.marks, self.runs.least, self.runs.reach);
        self.runs = Runs::none();
    }

    /// Adds a piece. Its octets replace earlier ones.
    pub(crate) fn join(&mut self, more: bool, offset: usize, octets: &[u8])
        requires { offset + length octets.now ≤ longest_joined }
        ensures { (pieces : List Piece) (time : ℕ) → HoldsPieces self.old pieces →
            HoldsPieces self.new (record { offset = offset; more = more; octets = octets.now; time = time } ∷ pieces) }
    {
        let end = offset + octets.len();
        self.total = total_with(self.total, more, end);
        write(&mut self.octets, offset, octets);
        self.runs = self.runs.with(&self.marks, offset, end);
        mark(&mut self.marks, offset, end);
    }

    /// Length of the datagram, if a piece of `len` octets from `offset` on completes it.
    pub(crate) fn joined_with(&self, more: bool, offset: usize, len: usize) -> Option<usize>
        requires { offset + len ≤ longest_joined }
        ensures joined { (pieces : List Piece) (piece : Piece) → HoldsPieces self.now pieces →
            piece.more ≡ more → piece.offset ≡ offset → length piece.octets ≡ len →
            result ≡ option_map length (datagram_from (piece ∷ pieces)) }
        ensures bound { IfSome result (λ total. total ≤ longest_joined) }
    {
        let end = offset + len;
        let total = total_with(self.total, more, end)?;
        let gap = self.runs.with(&self.marks, offset, end).gap;
        if gap >= total { Some(total) } else { None }
    }

    /// The first `len` octets: the datagram's, if it is complete and has this length.
    pub(crate) fn octets(&self, len: usize) -> &[u8]
        requires { len ≤ longest_joined }
        ensures { (pieces : List Piece) (datagram : List ℕ) → HoldsPieces self.now pieces →
            datagram_from pieces ≡ Some datagram → length datagram ≡ len → result.now ≡ datagram }
    {
        &self.octets[..len]
    }

    /// The first octets, as many as a UDP header has, of a datagram of `len` octets that this piece completes;
    /// zeros past its end.
    pub(crate) fn head_with(&self, offset: usize, octets: &[u8], len: usize) -> [u8; UDP_HEADER]
        ensures { (pieces : List Piece) (piece : Piece) (datagram : List ℕ) → HoldsPieces self.now pieces →
            piece.offset ≡ offset → piece.octets ≡ octets.now →
            datagram_from (piece ∷ pieces) ≡ Some datagram → length datagram ≡ len →
            result ≡ head_of datagram }
    {
        let mut head = [0; UDP_HEADER];
        for i in 0..len.min(UDP_HEADER) {
            head[i] = octet_with(&self.octets, offset, octets, i);
        }
        head
    }
}

fn zeros(alloc: Global, places: usize) -> Result<Vec<u8>, Memory>
    ensures { IfOk result (λ octets. length octets.items ≡ places) }
{
    Vec::from_elem(alloc, 0, places)
}

/// Length of the datagram after one more piece, which ends at `end`: the latest piece with no more to follow sets it.
fn total_with(total: Option<usize>, more: bool, end: usize) -> Option<usize>
    ensures { result ≡ (if more then total else Some end) }
{
    if more { total } else { Some(end) }
}

/// Writes a piece at its offset.
fn write(octets: &mut Vec<u8>, offset: usize, piece: &[u8])
    requires { offset + length piece.now ≤ length octets.old.items }
    ensures len { length octets.new.items ≡ length octets.old.items }
    ensures places { (i : ℕ) →
        slice_index octets.new.items i ≡ written_at octets.old.items offset piece.now i }
{
    octets[offset..offset + piece.len()].copy_from_slice(piece);
}

/// The octet at a place, as if a piece were written at its offset.
fn octet_with(octets: &[u8], offset: usize, piece: &[u8], place: usize) -> u8
    requires { place < length octets.now }
    ensures { result ≡ written_at octets.now offset piece.now place }
{
    if place >= offset && place - offset < piece.len() {
        piece[place - offset]
    } else {
        octets[place]
    }
}
