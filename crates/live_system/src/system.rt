//! All links, in groups, each group under a lock of its own.
ghost use Rattle.std.specs.Prelude.{◌≡◌, ℕ, [], ◌∷◌, IfNone, IfSome};
ghost use Rattle.es_base.specs.Addressing.{ComesToPlace};
ghost use Rattle.live_system.specs.Burst.{StandTogether};
ghost use Rattle.live_system.specs.System.{IsPassOf, Replies};

use crate::cut::LinkPlace;
use crate::group::Group;
use crate::net_pass::NetPass;
use es_base::Config;
use frame_reader::{Frame, read_addressed};
use link_lock::Lock;
use receiver::Reply;
use std::marker::Model;
use std::sync::Wait;

/// All links of a configuration, in groups of neighbours, each group under a lock of its own. Threads share it.
#[derive(Drop)]
pub struct LiveSystem {
    pub(crate) config: Config,
    /// The locks of the groups.
    pub(crate) groups: Vec<Lock<Group>>,
    /// Where each link stands, so that a frame costs no division.
    pub(crate) places: Vec<LinkPlace>,
    /// Number of links of each group.
    pub(crate) sizes: Vec<usize>,
}

impl Model for LiveSystem {
    ghost use Rattle.std.specs.Prelude.{◌≡◌, ◌<◌, length};
    ghost use Rattle.std.specs.List.{All};
    ghost use Rattle.network_calls.specs.Passes.{System};
    ghost use Rattle.live_system.specs.Groups.{ids_in, places_in};

    ghost Value = { System };

    ghost view = { λ s. record { config = s.config; locks = ids_in s.sizes.items s.groups.items } };

    ghost invariant = { λ s. (s.places.items ≡ places_in 0 s.sizes.items) × (length s.groups.items ≡ length s.sizes.items) × All (λ size. 0 < size) s.sizes.items };
}

impl LiveSystem {
    /// The configuration.
    pub fn config(&self) -> &Config
        ensures { result.now ≡ self.now.config }
    {
        &self.config
    }

    /// Gives a frame that came on the pass's network at `now`, in microseconds, to its link, or filters it. Waits for
    /// the lock of the link's group and for nothing else; a filtered frame takes no lock. Takes no memory, and can't
    /// fail.
    pub fn receive<R: Wait>(&self, rt: &R, pass: &mut NetPass, now: u64, bytes: &[u8]) -> Reply
        requires { IsPassOf self.now pass.old }
        ensures own { IsPassOf self.now pass.new }
        ensures net { pass.new.net ≡ pass.old.net }
        ensures replies { Replies self.now.config pass.old now bytes.now result pass.new }
    {
        match read_addressed(&self.config, bytes) {
            Ok((at, frame)) => self.receive_at(rt, pass, at, now, &frame),
            Err(cause) => {
                pass.count_filtered(cause);
                Reply::Filtered(cause)
            }
        }
    }

    /// As [`receive`](LiveSystem::receive) if nobody has the group of the frame's link at this moment; a filtered frame
    /// takes no lock, and is always answered. `None` if the other network has a link of the group: the link didn't take
    /// the frame, and the pass is as it was, so that the same frame may be given again. Calls that were answered are as
    /// those of `receive`, with which they may be mixed. Waits for nobody, takes no memory, and can't fail.
    ///
    /// That `None` comes only while the other network has a link of the group isn't proved.
    // rule: CONC-7, EMB-31
    pub fn try_receive(&self, pass: &mut NetPass, now: u64, bytes: &[u8]) -> Option<Reply>
        requires { IsPassOf self.now pass.old }
        ensures own { IsPassOf self.now pass.new }
        ensures net { pass.new.net ≡ pass.old.net }
        ensures replies { IfSome result (λ reply. Replies self.now.config pass.old now bytes.now reply pass.new) }
        ensures away { IfNone result ((pass.new ≡ pass.old) × ((at : ℕ) × ComesToPlace self.now.config bytes.now at)) }
    {
        match read_addressed(&self.config, bytes) {
            Ok((at, frame)) => self.try_receive_at(pass, at, now, &frame),
            Err(cause) => {
                pass.count_filtered(cause);
                Some(Reply::Filtered(cause))
            }
        }
    }

    /// Gives a frame to its link, which has this place.
    pub(crate) fn receive_at<R: Wait>(
        &self,
        rt: &R,
        pass: &mut NetPass,
        at: usize,
        now: u64,
        frame: &Frame<'_>,
    ) -> Reply
        requires own { IsPassOf self.now pass.old }
        requires place { ComesToPlace self.now.config frame.now.whole.now at }
        ensures own { IsPassOf self.now pass.new }
        ensures net { pass.new.net ≡ pass.old.net }
        ensures replies { Replies self.now.config pass.old now frame.now.whole.now result pass.new }
        ensures together { (place : ℕ) × StandTogether place (result ∷ []) }
    {
        let LinkPlace { group, index } = self.places[at];
        let lock = &self.groups[group];
        let (place, verdict) = pass.groups[group].receive(rt, lock, index, now, frame);
        Reply::Link {
            at,
            vl: frame.vl,
            place,
            verdict,
        }
    }

    /// Gives a frame to its link, which has this place, if nobody has its group at this moment.
    fn try_receive_at(
        &self,
        pass: &mut NetPass,
        at: usize,
        now: u64,
        frame: &Frame<'_>,
    ) -> Option<Reply>
        requires own { IsPassOf self.now pass.old }
        requires place { ComesToPlace self.now.config frame.now.whole.now at }
        ensures own { IsPassOf self.now pass.new }
        ensures net { pass.new.net ≡ pass.old.net }
        ensures replies { IfSome result (λ reply. Replies self.now.config pass.old now frame.now.whole.now reply pass.new) }
        ensures away { IfNone result (pass.new ≡ pass.old) }
    {
        let LinkPlace { group, index } = self.places[at];
        let lock = &self.groups[group];
        let (place, verdict) = pass.groups[group].try_receive(lock, index, now, frame)?;
        Some(Reply::Link {
            at,
            vl: frame.vl,
            place,
            verdict,
        })
    }
}
