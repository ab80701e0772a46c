//! A link's events, in the order of their places, are a run of one link on one thread, and are the calls of both
//! networks.
use crate::calls::{Call, Calls};
use block_list::BlockList;
use es_base::{Event, LinkNo, Net};
use frame_reader::read_frame;
use link_receiver::{Epoch, LinkState};
use std::alloc::Global;
use std::process::Abort;
use std::sync::Wait;
use test_inputs::CONSTANT;

/// A link that takes the same frames anew, and the calls that are still to come.
#[derive(Drop)]
struct Replay<'a> {
    state: LinkState,
    /// The place of the next event.
    place: u64,
    /// The calls of network A, and of B.
    a: &'a [Call],
    b: &'a [Call],
}

/// The first of these calls on the link with this number, and those after it.
fn next_on(calls: &[Call], vl: LinkNo) -> Option<(&Call, &[Call])> {
    let at = calls.iter().position(|call| call.vl == vl)?;
    let (_, from) = calls.split_at(at);
    from.split_first()
}

impl<'a> Replay<'a> {
    /// The next call of this network on the link. It has the next place.
    fn next_call(&mut self, rt: &impl Abort, net: Net) -> &'a Call {
        let vl = self.state.settings().vl();
        let calls = match net {
            Net::A => self.a,
            Net::B => self.b,
        };
        let (call, more) = next_on(calls, vl).expect(rt, "a call");
        match net {
            Net::A => self.a = more,
            Net::B => self.b = more,
        }
        assert!(rt; call.given.place == self.place, "{}", call.given.place);
        call
    }

    /// The link takes the frame of an event anew, with the same verdict.
    fn take(&mut self, rt: &(impl Abort + Wait), alloc: Global, event: &Event) {
        let frame = read_frame(CONSTANT, event.frame.as_slice()).expect(rt, "a frame");
        assert!(rt; frame.vl == self.state.settings().vl());
        let verdict = self.state.take(rt, alloc, event.net, event.time, &frame);
        let verdict = verdict.expect(rt, "memory");
        assert!(rt; verdict == event.verdict, "{}: {verdict:?}", self.place);
    }

    /// The link takes the frames of these events anew; each of them is of the next call on its network.
    fn take_all(&mut self, rt: &(impl Abort + Wait), alloc: Global, events: &BlockList<Event>) {
        let first = self.place;
        for at in 0..events.len() {
            let event = events.get(at).expect(rt, "an event");
            let call = self.next_call(rt, event.net);
            assert!(rt; call.given.stands_in(first, events), "{}", call.given.place);
            self.take(rt, alloc, event);
            self.place = self.place.wrapping_add(1);
        }
    }

    /// The next epoch of the link.
    fn take_epoch(&mut self, rt: &(impl Abort + Wait), alloc: Global, epoch: &Epoch) {
        assert!(rt; epoch.first() == self.place, "{}", epoch.first());
        self.take_all(rt, alloc, epoch.events());
    }

    /// No calls are left, and this many were made.
    fn check_end(&self, rt: &impl Abort, events: u64) {
        let vl = self.state.settings().vl();
        assert!(rt; next_on(self.a, vl).is_none() && next_on(self.b, vl).is_none());
        assert!(rt; self.place == events, "{}", self.place);
    }
}

/// The epochs of the link, which network A took out, and then its history are a run, and the calls of both networks.
pub(crate) fn check_link(
    rt: &(impl Abort + Wait),
    alloc: Global,
    link: &LinkState,
    a: &Calls,
    b: &Calls,
) {
    let (state, _) = LinkState::new(alloc, link.settings()).expect(rt, "memory");
    let mut replay = Replay {
        state,
        place: 0,
        a: &a.calls,
        b: &b.calls,
    };
    for epoch in &a.epochs {
        if epoch.settings().vl() == link.settings().vl() {
            replay.take_epoch(rt, alloc, epoch);
        }
    }
    assert!(rt; link.taken() == replay.place, "{}", link.taken());
    replay.take_all(rt, alloc, link.history());
    let events = link.taken().wrapping_add(link.history().len() as u64);
    replay.check_end(rt, events);
}
