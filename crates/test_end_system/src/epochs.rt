//! Histories taken out of a system that goes on.
use crate::counts::{check_counts, check_pass};
use crate::histories::check_events;
use crate::ports::{JOINED, check_none, check_taken, taker_of};
use crate::rows::{LINK_17, check_frame, opened};
use end_system::{NoGate, Settled};
use es_base::Net::{A, B};
use es_base::Verdict::{FragmentHeld, OutOfSequence, Redundant, Sampled};
use es_base::{LinkNo, Net};
use std::alloc::Global;
use std::process::Abort;
use std::sync::Wait;
use test_inputs::fragments::PacketName::{First, Last};
use test_inputs::rows::{FOR_NAV, POS, packet_row, smallest_row};
use test_inputs_end_system::{Given, Running};

/// The pass of this network takes an epoch of link 17 out: the first of its events has this place, and they are those
/// of these frames.
fn check_epoch(
    rt: &(impl Abort + Wait),
    alloc: Global,
    running: &mut Running<NoGate>,
    net: Net,
    first: u64,
    given: &[Given],
) {
    let epoch = running.take_epoch(rt, alloc, net, LINK_17);
    let epoch = epoch.expect(rt, "memory").expect(rt, "an epoch");
    assert!(rt; epoch.first() == first, "{}", epoch.first());
    assert!(rt; epoch.settings().vl() == LINK_17);
    check_events(rt, first, epoch.events(), given);
}

/// This many events were taken out of link 17, and its history is that of these frames.
fn check_settled(rt: &impl Abort, settled: &Settled, taken: u64, given: &[Given]) {
    for link in &settled.links {
        assert!(rt; link.taken() == taken, "{}", link.taken());
        check_events(rt, taken, link.history(), given);
    }
}

fn check_copy(rt: &(impl Abort + Wait), alloc: Global) {
    let mut running = opened(rt, alloc);
    let row = smallest_row((A, 1000, 1, Sampled(POS, 1)));
    let first = check_frame(rt, alloc, &mut running, 0, row);
    check_epoch(rt, alloc, &mut running, A, 0, &[first]);
    let row = smallest_row((B, 1100, 1, Redundant));
    let copy = check_frame(rt, alloc, &mut running, 1, row);
    let row = smallest_row((A, 1200, 2, Sampled(POS, 2)));
    let second = check_frame(rt, alloc, &mut running, 2, row);
    check_pass(rt, running.pass(A), 17, 10, 2);
    let settled = running.settle();
    check_settled(rt, &settled, 1, &[copy, second]);
    check_counts(rt, &settled.a, 17, 10, 2);
    check_counts(rt, &settled.b, 17, 2, 1);
}

// rule: EMB-35
#[test]
fn places_copies_and_counts_go_on_over_an_epoch(rt: HostRuntime) {
    check_copy(&rt, rt.alloc());
}

/// The pass of the other network takes the epoch out.
fn check_joined(rt: &(impl Abort + Wait), alloc: Global) {
    let mut running = opened(rt, alloc);
    let mut taker = taker_of(rt, &mut running);
    let row = packet_row((A, 1000, 1, First, FragmentHeld));
    let first = check_frame(rt, alloc, &mut running, 0, row);
    check_epoch(rt, alloc, &mut running, B, 0, &[first]);
    let row = packet_row((A, 1100, 2, Last, FOR_NAV));
    let last = check_frame(rt, alloc, &mut running, 1, row);
    check_taken(rt, alloc, &mut taker, 1100, JOINED);
    check_none(rt, &mut taker);
    check_settled(rt, &running.settle(), 1, &[last]);
}

// rule: EMB-35
#[test]
fn a_datagram_is_joined_over_an_epoch(rt: HostRuntime) {
    check_joined(&rt, rt.alloc());
}

fn check_two_epochs(rt: &(impl Abort + Wait), alloc: Global) {
    let mut running = opened(rt, alloc);
    let row = smallest_row((A, 10_000, 5, Sampled(POS, 1)));
    let first = check_frame(rt, alloc, &mut running, 0, row);
    check_epoch(rt, alloc, &mut running, A, 0, &[first]);
    check_epoch(rt, alloc, &mut running, B, 1, &[]);
    let row = smallest_row((A, 20_000, 8, OutOfSequence));
    let second = check_frame(rt, alloc, &mut running, 1, row);
    check_settled(rt, &running.settle(), 1, &[second]);
}

// rule: EMB-35
#[test]
fn a_sequence_number_counts_over_two_epochs(rt: HostRuntime) {
    check_two_epochs(&rt, rt.alloc());
}

fn check_no_link(rt: &(impl Abort + Wait), alloc: Global) {
    let mut running = opened(rt, alloc);
    for vl in [0, 16, 18, 273, 65_535] {
        let epoch = running.take_epoch(rt, alloc, A, LinkNo(vl));
        assert!(rt; epoch.expect(rt, "memory").is_none(), "{vl}");
    }
}

// rule: EMB-35
#[test]
fn a_link_that_is_not_configured_has_no_epoch(rt: HostRuntime) {
    check_no_link(&rt, rt.alloc());
}
