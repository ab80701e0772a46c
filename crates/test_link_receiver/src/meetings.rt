//! A link and the taker of its queuing port meet; and how many events of each kind the link counts.
ghost use Rattle.std.specs.Prelude.{◌≡◌, List, Some, slice_get};
ghost use Rattle.link_receiver.specs.Ends.{IsOfItsPort};
ghost use Rattle.link_receiver.specs.Link.{Channel, queues};

use crate::frames::{check_frame, opened};
use es_base::Net::{A, B};
use es_base::Verdict::{OutOfSequence, Overflow, Queued, Redundant, Sampled};
use es_base::{Net, VERDICT_KINDS, Verdict};
use link_receiver::{LinkState, PortEnd};
use queuing_port::Taker;
use std::alloc::Global;
use std::process::Abort;
use std::sync::Wait;
use test_inputs::rows::{NAV, NAV_UDP, POS};
use test_inputs::{IP, LINK, Link, PAYLOAD, UDP};

/// The taker of the end of `nav`.
pub(crate) fn taker_in(rt: &impl Abort, end: PortEnd) -> Taker
    ensures { (channels : List Channel) → IsOfItsPort channels end →
        slice_get channels 1 ≡ Some (queues result.queue) }
{
    match end {
        PortEnd::Queuing {
            port,
            name: _,
            taker,
        } => {
            assert!(rt; port.0 == 1);
            taker
        }
        PortEnd::Sampling {
            port: _,
            name: _,
            readers: _,
        } => panic!(rt; "a queuing port"),
    }
}

/// A new receiver whose queue of `nav` has this depth, and the taker of that queue.
pub(crate) fn opened_with_taker(rt: &impl Abort, alloc: Global, nav_depth: u8) -> (LinkState, Taker)
    ensures { slice_get result.0.channels 1 ≡ Some (queues result.1.queue) }
{
    let (state, mut ends) = opened(rt, alloc, Link { nav_depth, ..LINK });
    let end = ends.pop().expect(rt, "an end");
    let taker = taker_in(rt, end);
    (state, taker)
}

/// The link and the taker meet while the taker hasn't taken this many messages.
pub(crate) fn check_meeting(
    rt: &(impl Abort + Wait),
    state: &mut LinkState,
    taker: &mut Taker,
    held: usize,
)
    requires { slice_get state.old.channels 1 ≡ Some (queues taker.old.queue) }
    ensures state { state.new.channels ≡ state.old.channels }
    ensures taker { taker.new.queue ≡ taker.old.queue }
{
    assert_eq!(rt; state.meet_taker(rt, NAV, taker), held);
}

/// The frame with this sequence number and time brings a message for `nav`, and has this verdict.
fn bring(
    rt: &(impl Abort + Wait),
    alloc: Global,
    state: &mut LinkState,
    number: u8,
    verdict: Verdict,
)
    ensures { state.new.channels ≡ state.old.channels }
{
    let row = (A, u64::from(number), number, IP, NAV_UDP, PAYLOAD, verdict);
    check_frame(rt, alloc, state, row);
}

/// The taker takes the message of this time.
pub(crate) fn take(rt: &(impl Abort + Wait), taker: &mut Taker, time: u64)
    ensures { taker.new.queue ≡ taker.old.queue }
{
    let message = taker.take(rt).expect(rt, "a message");
    assert_eq!(rt; message.time, time);
}

fn check_meetings(rt: &(impl Abort + Wait), alloc: Global) {
    let (mut state, mut taker) = opened_with_taker(rt, alloc, 2);
    check_meeting(rt, &mut state, &mut taker, 0);
    bring(rt, alloc, &mut state, 1, Queued(NAV));
    bring(rt, alloc, &mut state, 2, Queued(NAV));
    bring(rt, alloc, &mut state, 3, Overflow(NAV));
    check_meeting(rt, &mut state, &mut taker, 2);
    take(rt, &mut taker, 1);
    check_meeting(rt, &mut state, &mut taker, 1);
    bring(rt, alloc, &mut state, 4, Queued(NAV));
    take(rt, &mut taker, 2);
    take(rt, &mut taker, 4);
    check_meeting(rt, &mut state, &mut taker, 0);
}

// rule: PORT-11
#[test]
fn a_link_and_its_taker_know_how_many_messages_are_held(rt: HostRuntime) {
    check_meetings(&rt, rt.alloc());
}

/// So many events of this kind came on this network.
pub(crate) fn check_count(rt: &impl Abort, state: &LinkState, net: Net, kind: usize, wanted: u64) {
    assert!(rt; 1 <= kind && kind <= VERDICT_KINDS);
    let count = state.tally().count(net, kind);
    assert!(rt; count == wanted, "{net} {kind}: {count}");
}

/// Two messages for `pos` on A, the first at time 0, a copy of it on B, and one out of sequence there.
fn check_counts(rt: &(impl Abort + Wait), alloc: Global) {
    let (mut state, _) = opened(rt, alloc, LINK);
    let first = (A, 0, 1, IP, UDP, PAYLOAD, Sampled(POS, 1));
    check_frame(rt, alloc, &mut state, first);
    let copy = (B, 100, 1, IP, UDP, PAYLOAD, Redundant);
    check_frame(rt, alloc, &mut state, copy);
    let second = (A, 2000, 2, IP, UDP, PAYLOAD, Sampled(POS, 2));
    check_frame(rt, alloc, &mut state, second);
    let late = (B, 3000, 9, IP, UDP, PAYLOAD, OutOfSequence);
    check_frame(rt, alloc, &mut state, late);
    check_count(rt, &state, A, 10, 2);
    check_count(rt, &state, A, 1, 0);
    check_count(rt, &state, B, 1, 1);
    check_count(rt, &state, B, 2, 1);
    check_count(rt, &state, B, 10, 0);
    check_count(rt, &state, A, 13, 0);
}

// rule: COUNT-1, REP-8
#[test]
fn a_link_counts_its_events_by_network_and_kind(rt: HostRuntime) {
    check_counts(&rt, rt.alloc());
}
