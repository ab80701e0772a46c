//! Frames of several links of a group, given in one visit.
ghost use Rattle.std.specs.Prelude.{◌≡◌, ◌<◌, ◌≤◌, length};
ghost use Rattle.live_system.specs.Burst.{EachStandsTogether, most_in_row, steps_in_turn};
ghost use Rattle.live_system.specs.Chunk.{AreOfTheirLinks, ComeToGroup, frames_of, group_at, number_of_groups};
ghost use Rattle.live_system.specs.Run.{RanAlone};
ghost use Rattle.live_system.specs.System.{IsPassOf};

use crate::net_pass::NetPass;
use crate::row::Entry;
use crate::system::LiveSystem;
use receiver::Reply;
use std::sync::Wait;

impl LiveSystem {
    /// Number of the group, from 0, of the link with this index in the configuration.
    pub(crate) fn group_of(&self, at: usize) -> usize
        requires { at < length self.now.locks }
        ensures group { result ≡ group_at self.now at }
        ensures few { result < number_of_groups self.now }
    {
        self.places[at].group
    }

    /// Gives frames that came on the pass's network to links of a group, each with the index of its link in the
    /// configuration and its time, in microseconds: 32 at most, in one visit. The pass and the replies are those of
    /// calls of [`receive`](LiveSystem::receive) for these frames, one after another; the events of each link stand
    /// together. Waits for the lock of the group and for nothing else. Takes no memory, and can't fail.
    pub(crate) fn visit_row<R: Wait>(
        &self,
        rt: &R,
        pass: &mut NetPass,
        group: usize,
        row: &[Entry<'_>],
        replies: &mut [Reply],
    )
        requires own { IsPassOf self.now pass.old }
        requires some { 0 < length row.now }
        requires few { length row.now ≤ most_in_row }
        requires room { length replies.old ≡ length row.now }
        requires group { ComeToGroup self.now group row.now }
        ensures own { IsPassOf self.now pass.new }
        ensures net { pass.new.net ≡ pass.old.net }
        ensures replies { RanAlone self.now pass.old (steps_in_turn (frames_of row.now) replies.new) pass.new }
        ensures links { AreOfTheirLinks row.now replies.new }
        ensures together { EachStandsTogether replies.new }
    {
        let lock = &self.groups[group];
        pass.groups[group].receive_each(rt, lock, &self.places, row, replies);
    }
}
