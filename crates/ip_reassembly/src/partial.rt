//! One partial datagram, and a list of them.
ghost use Rattle.std.specs.Prelude.{◌≡◌, ℕ, ◌+◌, ◌-◌, ◌<◌, ◌≤◌, List, [], ◌∷◌, length, take, position, remove, slice_get, Some, IfSome, IfOk, option_map};
ghost use Rattle.es_base.specs.Limits.{longest_joined};
ghost use Rattle.link_rules.specs.Fragments.{Piece, piece_of, datagram_from};
ghost use Rattle.link_rules.specs.Groups.{Group, is_over, fate_if};
ghost use Rattle.frame_reader.specs.Parts.{packet_parts};
ghost use Rattle.ip_reassembly.specs.Answers.{preview_of};
ghost use Rattle.ip_reassembly.specs.Held.{HoldsPieces};
ghost use Rattle.ip_reassembly.specs.Kept.{IsPartial, has_key_of};

use crate::Preview;
use crate::buffer::Buffer;
use es_base::{DatagramKey, Memory};
use frame_reader::Packet;
use std::alloc::Global;

/// A partly received datagram, or a spare buffer for one.
#[derive(Drop)]
pub struct Partial {
    /// Key of its pieces.
    pub(crate) key: DatagramKey,
    /// Arrival time of its first piece, in microseconds.
    pub(crate) begin: u64,
    pub(crate) buffer: Buffer,
}

impl Partial {
    /// An empty spare one.
    pub(crate) fn spare(alloc: Global) -> Result<Partial, Memory>
        ensures { IfOk result (λ partial. HoldsPieces partial.buffer []) }
    {
        let key = DatagramKey {
            source: 0,
            destination: 0,
            ident: 0,
        };
        let buffer = Buffer::open(alloc)?;
        Ok(Partial {
            key,
            begin: 0,
            buffer,
        })
    }

    /// A copy of this one.
    pub(crate) fn copy(&self, alloc: Global) -> Result<Partial, Memory>
        ensures { IfOk result (λ copy. copy ≡ self.now) }
    {
        let buffer = self.buffer.copy(alloc)?;
        Ok(Partial {
            key: self.key,
            begin: self.begin,
            buffer,
        })
    }

    /// Begins anew with one piece, which comes now.
    pub(crate) fn begin(&mut self, key: DatagramKey, packet: &Packet<'_>, now: u64)
        requires { packet.now.offset + length packet.now.octets.now ≤ longest_joined }
        ensures { IsPartial self.new (record { key = key; pieces = piece_of (packet_parts packet.now) now ∷ [] }) }
    {
        self.key = key;
        self.begin = now;
        self.buffer.clear();
        self.join(packet);
    }

    /// Adds a piece.
    pub(crate) fn join(&mut self, packet: &Packet<'_>)
        requires { packet.now.offset + length packet.now.octets.now ≤ longest_joined }
        ensures key { self.new.key ≡ self.old.key }
        ensures begin { self.new.begin ≡ self.old.begin }
        ensures holds { (pieces : List Piece) (time : ℕ) → HoldsPieces self.old.buffer pieces →
            HoldsPieces self.new.buffer (piece_of (packet_parts packet.now) time ∷ pieces) }
    {
        self.buffer
            .join(packet.more, packet.offset as usize, packet.octets);
    }

    /// Length of the datagram, if this piece completes it.
    pub(crate) fn joined_with(&self, packet: &Packet<'_>) -> Option<usize>
        requires { packet.now.offset + length packet.now.octets.now ≤ longest_joined }
        ensures joined { (pieces : List Piece) (time : ℕ) → HoldsPieces self.now.buffer pieces →
            result ≡ option_map length (datagram_from (piece_of (packet_parts packet.now) time ∷ pieces)) }
        ensures bound { IfSome result (λ len. len ≤ longest_joined) }
    {
        self.buffer
            .joined_with(packet.more, packet.offset as usize, packet.octets.len())
    }

    /// The answer that one more piece would get.
    pub(crate) fn preview_with(&self, packet: &Packet<'_>) -> Preview
        requires { packet.now.offset + length packet.now.octets.now ≤ longest_joined }
        ensures { (pieces : List Piece) (time : ℕ) → HoldsPieces self.now.buffer pieces → result
            ≡ preview_of (fate_if (datagram_from (piece_of (packet_parts packet.now) time ∷ pieces))) }
    {
        match self.joined_with(packet) {
            None => Preview::Held,
            Some(len) => Preview::Whole {
                len,
                head: self
                    .buffer
                    .head_with(packet.offset as usize, packet.octets, len),
                joined: true,
            },
        }
    }

    /// Whether its age is beyond the time limit, in microseconds (own).
    pub(crate) fn is_over(&self, limit: u64, now: u64) -> bool
        ensures { (group : Group) → IsPartial self.now group → result ≡ is_over limit now group }
    {
        now.saturating_sub(self.begin) > limit
    }
}

/// Index of the first with a key.
pub(crate) fn place_among(partials: &[Partial], key: DatagramKey) -> Option<usize>
    ensures value { result ≡ position (has_key_of key) partials.now }
    ensures bound { IfSome result (λ place. place < length partials.now) }
{
    partials.iter().position(|partial| partial.key == key)
}

/// Of those that stand, moves the one at a place to the end, and those after it up.
pub(crate) fn move_to_end(partials: &mut [Partial], place: usize, standing: usize)
    requires place { place < standing }
    requires standing { standing ≤ length partials.old }
    ensures len { length partials.new ≡ length partials.old }
    ensures others { take (standing - 1) partials.new ≡ remove (take standing partials.old) place }
    ensures last { slice_get partials.new (standing - 1) ≡ slice_get (take standing partials.old) place }
{
    partials[place..standing].rotate_left(1);
}
