//! A walk through a history goes on from the pieces that waited before it.
use crate::epochs::{Step, check_epoch, check_step};
use crate::frames::opened;
use crate::histories::{JOINED_PAYLOAD, Wanted, check_messages};
use Step::{Nav, Packet};
use es_base::Net::A;
use es_base::Verdict::FragmentHeld;
use link_receiver::LinkState;
use std::alloc::Global;
use std::process::Abort;
use std::sync::Wait;
use test_inputs::fragments::PacketName::{First, First3, First4, First5, Last};
use test_inputs::rows::{FOR_NAV, NAV, PacketRow};
use test_inputs::{LINK, PAYLOAD};

/// These packets come, an epoch is taken out, and then this frame comes.
fn gone_on(
    rt: &(impl Abort + Wait),
    alloc: Global,
    packets: &[PacketRow],
    after: Step,
) -> LinkState {
    let (mut state, _) = opened(rt, alloc, LINK);
    for row in packets {
        check_step(rt, alloc, &mut state, Packet(*row));
    }
    check_epoch(rt, alloc, &mut state, 0, packets.len() as u64);
    check_step(rt, alloc, &mut state, after);
    state
}

/// A walk through the history gives these messages for `nav`.
fn check_walk(rt: &impl Abort, alloc: Global, state: &LinkState, wanted: &[Wanted]) {
    let messages = state.deliveries(alloc, NAV).expect(rt, "memory");
    check_messages(rt, alloc, &messages, wanted);
}

/// After an epoch of these packets, each held, and this frame, a walk gives these messages.
fn check_after(
    rt: &(impl Abort + Wait),
    alloc: Global,
    packets: &[PacketRow],
    after: Step,
    wanted: &[Wanted],
) {
    let state = gone_on(rt, alloc, packets, after);
    check_walk(rt, alloc, &state, wanted);
}

fn four_that_wait() -> [PacketRow; 4] {
    [
        (A, 1000, 1, First, FragmentHeld),
        (A, 1010, 2, First3, FragmentHeld),
        (A, 1020, 3, First4, FragmentHeld),
        (A, 1030, 4, First5, FragmentHeld),
    ]
}

// rule: HIST-4
#[test]
fn a_walk_goes_on_from_what_waits(rt: HostRuntime) {
    let nothing_waits = Nav(A, 1100, 1, FOR_NAV);
    check_after(&rt, rt.alloc(), &[], nothing_waits, &[(1100, PAYLOAD)]);
    let joined = [(1100, JOINED_PAYLOAD)];
    let last = Packet((A, 1100, 2, Last, FOR_NAV));
    check_after(&rt, rt.alloc(), &four_that_wait()[..1], last, &joined);
    let last = Packet((A, 1100, 5, Last, FOR_NAV));
    check_after(&rt, rt.alloc(), &four_that_wait(), last, &joined);
}

/// Nothing was before the history.
fn check_from_the_beginning(rt: &(impl Abort + Wait), alloc: Global) {
    let (mut state, _) = opened(rt, alloc, LINK);
    check_step(rt, alloc, &mut state, Nav(A, 1100, 1, FOR_NAV));
    check_walk(rt, alloc, &state, &[(1100, PAYLOAD)]);
}

// rule: HIST-4
#[test]
fn a_walk_begins_where_nothing_was_before(rt: HostRuntime) {
    check_from_the_beginning(&rt, rt.alloc());
}
