//! Messages at a queuing port: which are queued, and which its taker takes.
use crate::frames::{check_frame, decision_of, opened};
use es_base::Net::A;
use es_base::Verdict::{Overflow, Queued, Sampled};
use es_base::{Decision, Verdict};
use link_receiver::{LinkState, PortEnd};
use queuing_port::Taker;
use std::alloc::Global;
use std::process::Abort;
use std::sync::Wait;
use test_inputs::{IP, LINK, Link, PAYLOAD, UDP};

/// The taker of `nav`, the last port of its link.
pub(crate) fn taker_of(rt: &impl Abort, mut ends: Vec<PortEnd>) -> Taker {
    let Some(PortEnd::Queuing { port, name, taker }) = ends.pop() else {
        panic!(rt; "a queuing port")
    };
    assert!(rt; ends.len() == 1 && port == NAV && name.as_str() == "nav");
    taker
}

/// A step at a link.
#[derive(Clone, Copy)]
enum Step {
    /// The next frame brings 17 octets to `nav`.
    Nav(Verdict),
    /// The next frame brings 17 octets to `pos`.
    Pos(Verdict),
    /// The taker takes the message of the frame with this place, or none.
    Take(Option<u64>),
}

use Step::{Nav, Pos, Take};
use test_inputs::rows::{NAV, NAV_UDP, POS};

/// The frame at this place, from 0, brings its payload to the port with this UDP header, and has this
/// verdict.
fn check_payload(
    rt: &(impl Abort + Wait),
    alloc: Global,
    state: &mut LinkState,
    place: u8,
    udp: &str,
    verdict: Verdict,
) {
    let frame = (A, u64::from(place), place, IP, udp, PAYLOAD, verdict);
    check_frame(rt, alloc, state, frame);
}

/// The step brings the frame at this place. Returns the place of the next frame.
fn check_next(
    rt: &(impl Abort + Wait),
    alloc: Global,
    state: &mut LinkState,
    place: u8,
    step: Step,
) -> u8 {
    match step {
        Nav(verdict) => check_payload(rt, alloc, state, place, NAV_UDP, verdict),
        Pos(verdict) => check_payload(rt, alloc, state, place, UDP, verdict),
        Take(_) => return place,
    }
    place.wrapping_add(1)
}

/// The taker takes the message of this time, or none.
fn check_take(rt: &(impl Abort + Wait), taker: &mut Taker, wanted: Option<u64>) {
    match taker.take(rt) {
        Some(message) => assert!(rt; wanted == Some(message.time)),
        None => assert!(rt; wanted == None),
    }
}

/// A new receiver of this link goes these steps.
fn check_steps(rt: &(impl Abort + Wait), alloc: Global, link: Link, steps: &[Step]) {
    let (mut state, ends) = opened(rt, alloc, link);
    let mut taker = taker_of(rt, ends);
    let mut place = 0;
    for step in steps {
        match step {
            Take(wanted) => check_take(rt, &mut taker, *wanted),
            _ => place = check_next(rt, alloc, &mut state, place, *step),
        }
    }
}

/// The link with this depth of `nav`.
fn with_depth(nav_depth: u8) -> Link {
    Link { nav_depth, ..LINK }
}

/// The link with this largest payload of `nav`.
fn with_max(nav_max: u16) -> Link {
    Link { nav_max, ..LINK }
}

fn one_place() -> [Step; 8] {
    [
        Nav(Queued(NAV)),
        Nav(Overflow(NAV)),
        Take(Some(0)),
        Take(None),
        Nav(Queued(NAV)),
        Nav(Overflow(NAV)),
        Take(Some(2)),
        Take(None),
    ]
}

fn three_places() -> [Step; 9] {
    [
        Nav(Queued(NAV)),
        Nav(Queued(NAV)),
        Nav(Queued(NAV)),
        Nav(Overflow(NAV)),
        Nav(Overflow(NAV)),
        Take(Some(0)),
        Nav(Queued(NAV)),
        Nav(Overflow(NAV)),
        Take(Some(1)),
    ]
}

/// The taker comes late, and takes the oldest first.
fn late_taker() -> [Step; 10] {
    [
        Nav(Queued(NAV)),
        Nav(Queued(NAV)),
        Nav(Queued(NAV)),
        Nav(Queued(NAV)),
        Nav(Overflow(NAV)),
        Take(Some(0)),
        Take(Some(1)),
        Take(Some(2)),
        Take(Some(3)),
        Take(None),
    ]
}

/// Nobody takes, and the messages of the other port are shown all the same.
fn no_taker() -> [Step; 6] {
    [
        Pos(Sampled(POS, 1)),
        Nav(Queued(NAV)),
        Nav(Overflow(NAV)),
        Pos(Sampled(POS, 2)),
        Nav(Overflow(NAV)),
        Pos(Sampled(POS, 3)),
    ]
}

/// A decision on a frame is final if no queue is asked.
// rule: HIST-1
#[test]
fn a_queue_is_asked_for_its_own_port_alone(rt: HostRuntime) {
    let sampled = decision_of(&rt, rt.alloc(), UDP);
    assert!(rt; sampled == Decision::Final(Sampled(POS, 1)));
    let queued = decision_of(&rt, rt.alloc(), NAV_UDP);
    assert!(rt; queued == Decision::ByQueue(NAV));
}

// rule: PORT-9, PORT-10
#[test]
fn a_queue_holds_as_many_messages_as_its_depth(rt: HostRuntime) {
    check_steps(&rt, rt.alloc(), with_depth(1), &one_place());
    check_steps(&rt, rt.alloc(), with_depth(3), &three_places());
}

// rule: PORT-11
#[test]
fn a_taker_that_comes_late_takes_the_oldest_first(rt: HostRuntime) {
    check_steps(&rt, rt.alloc(), LINK, &late_taker());
}

// rule: PORT-13
#[test]
fn a_queue_that_nobody_reads_loses_its_newest_messages_alone(rt: HostRuntime) {
    check_steps(&rt, rt.alloc(), with_depth(1), &no_taker());
}

/// A payload that is too long for the port doesn't come to its queue.
// rule: PORT-3
#[test]
fn a_queuing_port_has_a_largest_payload(rt: HostRuntime) {
    let too_long = [Nav(Verdict::TooLong(NAV)), Take(None)];
    check_steps(&rt, rt.alloc(), with_max(16), &too_long);
    let fits = [Nav(Queued(NAV)), Take(Some(0))];
    check_steps(&rt, rt.alloc(), with_max(17), &fits);
}

fn check_dropped(rt: &(impl Abort + Wait), alloc: Global) {
    let (mut state, ends) = opened(rt, alloc, LINK);
    drop(ends);
    for place in 0..6 {
        let verdict = if place < 4 {
            Queued(NAV)
        } else {
            Overflow(NAV)
        };
        check_payload(rt, alloc, &mut state, place, NAV_UDP, verdict);
    }
}

// rule: PORT-13
#[test]
fn a_dropped_taker_stops_nobody(rt: HostRuntime) {
    check_dropped(&rt, rt.alloc());
}
