//! Runs of a datagram's received octets, by which few marks have to be looked at.
ghost use Rattle.std.specs.Prelude.{◌≡◌, ℕ, ◌<◌, ◌≤◌, Bool, false, List, length, max, replicate, slice_index_or};
ghost use Rattle.es_base.specs.Limits.{longest_joined};
ghost use Rattle.ip_reassembly.specs.Covering.{AreSet};
ghost use Rattle.ip_reassembly.specs.Runs.{AreRuns, IsRunOfMarks, with_marks};

use crate::buffer::LONGEST_JOINED;

/// Marks that are looked at together.
const BLOCK: usize = 64;

/// Places of the octets that came: the gap that has to be filled next, and a run at the end. The gap only moves on, so
/// each mark is looked at once for each look whether a piece completes the datagram, however often pieces come again.
#[derive(Clone, Copy)]
pub(crate) struct Runs {
    /// Offset of the first octet that came: 8200 if none did.
    pub(crate) least: usize,
    /// Offset of the datagram's first missing octet.
    pub(crate) gap: usize,
    /// An offset from which on all octets up to the reach came.
    pub(crate) last: usize,
    /// Offset after the last octet that came: 0 if none did.
    pub(crate) reach: usize,
}

impl Runs {
    /// The runs of no octet.
    pub(crate) fn none() -> Runs
        ensures { (places : ℕ) → AreRuns (replicate places false) result }
    {
        Runs {
            least: LONGEST_JOINED,
            gap: 0,
            last: 0,
            reach: 0,
        }
    }

    /// The runs after one more piece, from `offset` up to `end`. The marks are those before it.
    pub(crate) fn with(self, marks: &[bool], offset: usize, end: usize) -> Runs
        requires order { offset ≤ end }
        requires within { end ≤ length marks.now }
        requires bound { length marks.now ≡ longest_joined }
        requires runs { AreRuns marks.now self }
        ensures { AreRuns (with_marks marks.now offset end) result }
    {
        if offset == end {
            return self;
        }
        Runs {
            least: self.least.min(offset),
            gap: self.gap_with(marks, offset, end),
            last: self.last_with(offset, end),
            reach: self.reach.max(end),
        }
    }

    /// The gap after a piece. Marks are looked at only if the piece meets the gap and ends before the run at the end.
    fn gap_with(self, marks: &[bool], offset: usize, end: usize) -> usize
        requires order { offset < end }
        requires within { end ≤ length marks.now }
        requires bound { length marks.now ≡ longest_joined }
        requires runs { AreRuns marks.now self }
        ensures run { IsRunOfMarks (with_marks marks.now offset end) 0 result }
        ensures gap { slice_index_or (with_marks marks.now offset end) result false ≡ false }
        ensures bound { result ≤ longest_joined }
    {
        if offset > self.gap || end <= self.gap {
            return self.gap;
        }
        if end >= self.last {
            return end.max(self.reach);
        }
        run_end(marks, end, self.reach)
    }

    /// Beginning of the run at the end, after a piece.
    fn last_with(self, offset: usize, end: usize) -> usize
        requires { offset < end }
        ensures run { (marks : List Bool) → end ≤ length marks → AreRuns marks self →
            IsRunOfMarks (with_marks marks offset end) result (max self.reach end) }
        ensures order { self.last ≤ self.reach → result ≤ max self.reach end }
    {
        if offset > self.reach {
            offset
        } else if end < self.last {
            self.last
        } else {
            self.last.min(offset)
        }
    }
}

/// The first place from `from` on whose mark isn't set: `to`, if all before it are set.
fn run_end(marks: &[bool], from: usize, to: usize) -> usize
    requires order { from ≤ to }
    requires within { to ≤ length marks.now }
    ensures run { IsRunOfMarks marks.now from result }
    ensures gap { result < to → slice_index_or marks.now result false ≡ false }
    ensures order { from ≤ result }
    ensures bound { result ≤ to }
{
    let mut place = from;
    for _ in 0..(to - from) / BLOCK {
        if !are_set(&marks[place..place + BLOCK]) {
            break;
        }
        place += BLOCK;
    }
    place + set_first(&marks[place..to])
}

/// Number of set marks before the first that isn't.
fn set_first(marks: &[bool]) -> usize
    ensures run { IsRunOfMarks marks.now 0 result }
    ensures gap { slice_index_or marks.now result false ≡ false }
    ensures bound { result ≤ length marks.now }
{
    marks.iter().position(|mark| !*mark).unwrap_or(marks.len())
}

/// Whether all of these marks are set. The loop has no early end, so that the compiler makes vector code of it.
fn are_set(marks: &[bool]) -> bool
    ensures { AreSet marks.now result }
{
    let mut all = true;
    for mark in marks {
        all &= *mark;
    }
    all
}
