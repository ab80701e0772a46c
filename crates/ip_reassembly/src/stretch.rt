//! The received octets of one datagram, in no more memory than they take.
ghost use Rattle.std.specs.Prelude.{◌≡◌, ◌+◌, ◌≤◌, false, length, IfOk};
ghost use Rattle.es_base.specs.Limits.{longest_joined};
ghost use Rattle.ip_reassembly.specs.Runs.{AreRuns};
ghost use Rattle.ip_reassembly.specs.Stretch.{held_from, placed_among};

use crate::buffer::LONGEST_JOINED;
use crate::runs::Runs;
use es_base::Memory;
use std::alloc::Global;
use std::marker::Model;

/// The received part of one datagram: the octets from its first piece up to its last, and which of them
/// came.
#[derive(Drop)]
pub(crate) struct Stretch {
    /// Length of the datagram, once a piece with no more to follow came.
    pub(crate) total: Option<usize>,
    pub(crate) runs: Runs,
    /// Offset of the first octet.
    pub(crate) least: usize,
    pub(crate) octets: Vec<u8>,
    /// A mark for each octet: whether it came.
    pub(crate) marks: Vec<bool>,
}

impl Model for Stretch {
    ghost use Rattle.std.specs.Prelude.{◌≡◌, ◌+◌, ◌≤◌, false, length};
    ghost use Rattle.es_base.specs.Limits.{longest_joined};
    ghost use Rattle.ip_reassembly.specs.Held.{Held};
    ghost use Rattle.ip_reassembly.specs.Runs.{AreRuns};
    ghost use Rattle.ip_reassembly.specs.Stretch.{held_from, placed_among};

    ghost Value = { Held };

    ghost view = { λ s. held_from s.total s.least s.octets.items s.marks.items };

    ghost invariant = { λ s. (length s.octets.items ≡ length s.marks.items) × (s.least + length s.octets.items ≤ longest_joined) × AreRuns (placed_among false s.least s.marks.items) s.runs };
}

impl Stretch {
    /// A stretch of no octets. It takes no memory.
    pub(crate) fn new(alloc: Global) -> Stretch {
        Stretch {
            total: None,
            runs: Runs::none(),
            least: 0,
            octets: Vec::new(alloc),
            marks: Vec::new(alloc),
        }
    }

    /// A copy of these octets, which begin at a place, and of their marks.
    pub(crate) fn copy_of(
        alloc: Global,
        total: Option<usize>,
        runs: Runs,
        least: usize,
        octets: &[u8],
        marks: &[bool],
    ) -> Result<Stretch, Memory>
        requires marks { length octets.now ≡ length marks.now }
        requires within { least + length octets.now ≤ longest_joined }
        requires runs { AreRuns (placed_among false least marks.now) runs }
        ensures { IfOk result (λ stretch. stretch ≡ held_from total least octets.now marks.now) }
    {
        let octets = Vec::from_slice(alloc, octets)?;
        let marks = Vec::from_slice(alloc, marks)?;
        Ok(Stretch {
            total,
            runs,
            least,
            octets,
            marks,
        })
    }
}

/// As many places as the longest datagram has octets: these from a place on, and `other` in all others.
pub(crate) fn placed<T: Copy>(
    alloc: Global,
    other: T,
    least: usize,
    some: &[T],
) -> Result<Vec<T>, Memory>
    requires { least + length some.now ≤ longest_joined }
    ensures { IfOk result (λ all. all.items ≡ placed_among other least some.now) }
{
    let mut all = Vec::with_capacity(alloc, LONGEST_JOINED)?;
    all.resize(least, other)?;
    all.extend_from_slice(some)?;
    all.resize(LONGEST_JOINED, other)?;
    Ok(all)
}
