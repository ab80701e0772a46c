//! A link's history taken out in epochs: what becomes of the frames that come later is what it would have
//! been, and places and counts go on.
ghost use Rattle.std.specs.Prelude.{◌≡◌};

use crate::frames::{check_frame, opened};
use crate::histories::{JOINED_PAYLOAD, Wanted, check_messages};
use crate::meetings::{check_count, check_meeting, opened_with_taker, take};
use crate::partitions::{OCTETS, check_read, opened_with_readers};
use crate::queued::check_taken;
use crate::queues::taker_of;
use es_base::Net::{A, B};
use es_base::Verdict::{FragmentHeld, OutOfSequence, Overflow, Queued, Redundant, Sampled};
use es_base::{Net, PortNo, Verdict};
use link_receiver::{EpochFault, LinkState};
use std::alloc::Global;
use std::process::Abort;
use std::sync::Wait;
use test_inputs::fragments::PacketName::{First, Last};
use test_inputs::{IP, LINK, Link, PAYLOAD, UDP};

/// A step at a link.
#[derive(Clone, Copy)]
pub(crate) enum Step {
    /// A smallest frame for `pos`: its network, arrival time in microseconds, sequence number and verdict.
    Pos(Net, u64, u8, Verdict),
    /// The same for `nav`.
    Nav(Net, u64, u8, Verdict),
    /// A frame with a packet.
    Packet(PacketRow),
    /// An epoch is taken out: the place of its first event, and how many events it has.
    Epoch(u64, u64),
}

use Step::{Epoch, Nav, Packet, Pos};
use test_inputs::rows::{FOR_NAV, NAV, NAV_UDP, POS, PacketRow, packet_row};

/// The number of this name has this value.
pub(crate) fn check_number(rt: &impl Abort, name: &str, number: u64, wanted: u64) {
    assert!(rt; number == wanted, "{name}: {number}");
}

/// The link has had this many events, those that were taken out counted.
pub(crate) fn check_events(rt: &impl Abort, state: &LinkState, events: u64) {
    let had = state.taken().wrapping_add(state.history().len() as u64);
    check_number(rt, "events", had, events);
}

/// The link hands out an epoch of this many events, the first of which has this place.
pub(crate) fn check_epoch(
    rt: &impl Abort,
    alloc: Global,
    state: &mut LinkState,
    first: u64,
    events: u64,
)
    ensures { state.new.channels ≡ state.old.channels }
{
    let epoch = state.take_epoch(alloc).expect(rt, "memory");
    check_number(rt, "first", epoch.first(), first);
    check_number(rt, "events", epoch.events().len() as u64, events);
    check_number(rt, "taken", state.taken(), first.wrapping_add(events));
    check_number(rt, "history", state.history().len() as u64, 0);
}

/// The link goes this step.
pub(crate) fn check_step(rt: &(impl Abort + Wait), alloc: Global, state: &mut LinkState, step: Step)
    ensures { state.new.channels ≡ state.old.channels }
{
    let row = match step {
        Pos(net, time, number, verdict) => (net, time, number, IP, UDP, PAYLOAD, verdict),
        Nav(net, time, number, verdict) => (net, time, number, IP, NAV_UDP, PAYLOAD, verdict),
        Packet(row) => packet_row(row),
        Epoch(first, events) => return check_epoch(rt, alloc, state, first, events),
    };
    check_frame(rt, alloc, state, row);
}

/// The link goes these steps. The place of each frame's event is the number of the frames before it.
fn go(rt: &(impl Abort + Wait), alloc: Global, state: &mut LinkState, steps: &[Step]) {
    let mut events = 0_u64;
    for step in steps {
        check_step(rt, alloc, state, *step);
        if !matches!(step, Epoch(_, _)) {
            events = events.wrapping_add(1);
        }
        check_events(rt, state, events);
    }
}

/// A new receiver of this link that went these steps.
fn gone(rt: &(impl Abort + Wait), alloc: Global, link: Link, steps: &[Step]) -> LinkState {
    let (mut state, _) = opened(rt, alloc, link);
    go(rt, alloc, &mut state, steps);
    state
}

/// A new receiver goes these steps.
fn check_steps(rt: &(impl Abort + Wait), alloc: Global, steps: &[Step]) {
    let _ = gone(rt, alloc, LINK, steps);
}

/// The history delivered these messages to a port, and no others.
fn check_delivered(
    rt: &impl Abort,
    alloc: Global,
    state: &LinkState,
    port: PortNo,
    wanted: &[Wanted],
) {
    let messages = state.deliveries(alloc, port).expect(rt, "memory");
    check_messages(rt, alloc, &messages, wanted);
}

fn copy_after_an_epoch() -> [Step; 4] {
    [
        Pos(A, 1000, 1, Sampled(POS, 1)),
        Epoch(0, 1),
        Pos(B, 1100, 1, Redundant),
        Pos(A, 1200, 2, Sampled(POS, 2)),
    ]
}

/// Events that were taken out count still, and aren't delivered again.
fn check_copy(rt: &(impl Abort + Wait), alloc: Global) {
    let state = gone(rt, alloc, LINK, &copy_after_an_epoch());
    check_number(rt, "taken", state.taken(), 1);
    check_number(rt, "history", state.history().len() as u64, 2);
    check_count(rt, &state, A, 10, 2);
    check_count(rt, &state, A, 2, 0);
    check_count(rt, &state, B, 2, 1);
    check_count(rt, &state, B, 10, 0);
    check_delivered(rt, alloc, &state, POS, &[(1200, PAYLOAD)]);
    check_delivered(rt, alloc, &state, NAV, &[]);
}

// rule: HIST-6
#[test]
fn a_copy_is_redundant_and_counts_go_on_over_an_epoch(rt: HostRuntime) {
    check_copy(&rt, rt.alloc());
}

fn fragments_around_an_epoch() -> [Step; 3] {
    [
        Packet((A, 1000, 1, First, FragmentHeld)),
        Epoch(0, 1),
        Packet((A, 1100, 2, Last, FOR_NAV)),
    ]
}

/// The piece before the epoch begins at octet 16.
fn last_fragment_before_an_epoch() -> [Step; 3] {
    [
        Packet((A, 1000, 1, Last, FragmentHeld)),
        Epoch(0, 1),
        Packet((A, 1100, 2, First, FOR_NAV)),
    ]
}

fn check_joined_by(rt: &(impl Abort + Wait), alloc: Global, steps: &[Step]) {
    let (mut state, ends) = opened(rt, alloc, LINK);
    let mut taker = taker_of(rt, ends);
    go(rt, alloc, &mut state, steps);
    check_delivered(rt, alloc, &state, NAV, &[(1100, JOINED_PAYLOAD)]);
    check_taken(rt, alloc, &mut taker, 1100, JOINED_PAYLOAD);
}

fn check_joined(rt: &(impl Abort + Wait), alloc: Global) {
    check_joined_by(rt, alloc, &fragments_around_an_epoch());
    check_joined_by(rt, alloc, &last_fragment_before_an_epoch());
}

// rule: HIST-3, HIST-4
#[test]
fn a_datagram_is_joined_over_an_epoch(rt: HostRuntime) {
    check_joined(&rt, rt.alloc());
}

fn two_epochs() -> [Step; 4] {
    [
        Pos(A, 10_000, 5, Sampled(POS, 1)),
        Epoch(0, 1),
        Epoch(1, 0),
        Pos(A, 20_000, 8, OutOfSequence),
    ]
}

/// Nothing came before the first epoch, nor between it and the second.
fn epochs_of_nothing() -> [Step; 5] {
    [
        Epoch(0, 0),
        Epoch(0, 0),
        Pos(A, 1000, 5, Sampled(POS, 1)),
        Epoch(0, 1),
        Pos(A, 2000, 6, Sampled(POS, 2)),
    ]
}

// rule: HIST-3, HIST-4
#[test]
fn a_sequence_number_counts_over_two_epochs(rt: HostRuntime) {
    check_steps(&rt, rt.alloc(), &two_epochs());
}

// rule: HIST-3, HIST-4
#[test]
fn an_epoch_of_no_events_is_an_epoch(rt: HostRuntime) {
    check_steps(&rt, rt.alloc(), &epochs_of_nothing());
}

/// Each network has its own sequence numbers still.
fn networks_apart() -> [Step; 6] {
    [
        Pos(A, 1000, 7, Sampled(POS, 1)),
        Pos(B, 1000, 9, Sampled(POS, 2)),
        Epoch(0, 2),
        Pos(A, 1100, 8, Redundant),
        Epoch(2, 1),
        Pos(B, 1100, 7, OutOfSequence),
    ]
}

/// The copy comes 600 microseconds after the greatest time, and 1100 after the latest.
fn time_that_falls() -> [Step; 4] {
    [
        Pos(A, 5000, 9, Sampled(POS, 1)),
        Pos(A, 4500, 10, Sampled(POS, 2)),
        Epoch(0, 2),
        Pos(B, 5600, 9, Redundant),
    ]
}

// rule: HIST-3, HIST-4
#[test]
fn each_network_and_the_greatest_time_count_over_an_epoch(rt: HostRuntime) {
    check_steps(&rt, rt.alloc(), &networks_apart());
    check_steps(&rt, rt.alloc(), &time_that_falls());
}

/// The first piece is 50,000 microseconds old.
fn at_the_limit() -> [Step; 3] {
    [
        Packet((A, 1000, 1, First, FragmentHeld)),
        Epoch(0, 1),
        Packet((A, 51_000, 2, Last, FOR_NAV)),
    ]
}

/// The last fragment begins a group anew, which the first completes.
fn after_the_limit() -> [Step; 5] {
    [
        Packet((A, 1000, 1, First, FragmentHeld)),
        Epoch(0, 1),
        Packet((A, 51_001, 2, Last, FragmentHeld)),
        Epoch(1, 1),
        Packet((A, 51_002, 3, First, FOR_NAV)),
    ]
}

// rule: HIST-3, HIST-4
#[test]
fn a_partial_datagram_keeps_its_age_over_an_epoch(rt: HostRuntime) {
    check_steps(&rt, rt.alloc(), &at_the_limit());
    check_steps(&rt, rt.alloc(), &after_the_limit());
}

fn full_queue() -> [Step; 3] {
    [
        Nav(A, 1000, 1, Queued(NAV)),
        Epoch(0, 1),
        Nav(A, 1100, 2, Overflow(NAV)),
    ]
}

fn check_full_queue(rt: &(impl Abort + Wait), alloc: Global) {
    let link = Link {
        nav_depth: 1,
        ..LINK
    };
    let state = gone(rt, alloc, link, &full_queue());
    check_delivered(rt, alloc, &state, NAV, &[]);
}

// rule: HIST-3, HIST-4
#[test]
fn a_queue_is_full_over_an_epoch(rt: HostRuntime) {
    check_full_queue(&rt, rt.alloc());
}

/// A read gives the message of the epoch, and then the next number.
fn check_reads(rt: &(impl Abort + Wait), alloc: Global) {
    let (mut state, mut readers) = opened_with_readers(rt, alloc);
    check_step(rt, alloc, &mut state, Pos(A, 1000, 1, Sampled(POS, 1)));
    check_epoch(rt, alloc, &mut state, 0, 1);
    check_read(rt, &mut readers[0], (1, 1000), &OCTETS);
    check_step(rt, alloc, &mut state, Pos(A, 2000, 2, Sampled(POS, 2)));
    check_read(rt, &mut readers[0], (2, 2000), &OCTETS);
}

// rule: HIST-6
#[test]
fn message_numbers_go_on_over_an_epoch(rt: HostRuntime) {
    check_reads(&rt, rt.alloc());
}

/// Messages that a taker hasn't taken are those delivered before the history and in it, less those that it took.
fn check_meetings(rt: &(impl Abort + Wait), alloc: Global) {
    let (mut state, mut taker) = opened_with_taker(rt, alloc, 2);
    check_step(rt, alloc, &mut state, Nav(A, 1, 1, Queued(NAV)));
    check_epoch(rt, alloc, &mut state, 0, 1);
    check_meeting(rt, &mut state, &mut taker, 1);
    check_step(rt, alloc, &mut state, Nav(A, 2, 2, Queued(NAV)));
    check_meeting(rt, &mut state, &mut taker, 2);
    take(rt, &mut taker, 1);
    check_epoch(rt, alloc, &mut state, 1, 1);
    check_meeting(rt, &mut state, &mut taker, 1);
    take(rt, &mut taker, 2);
    check_meeting(rt, &mut state, &mut taker, 0);
}

// rule: HIST-6, HIST-7
#[test]
fn a_taker_meets_its_link_over_epochs(rt: HostRuntime) {
    check_meetings(&rt, rt.alloc());
}

/// An epoch is taken out; or memory ran out, and history and places are as before. Returns whether it is.
fn try_epoch(rt: &impl Abort, alloc: Global, state: &mut LinkState) -> bool {
    let taken = state.taken();
    let events = state.history().len() as u64;
    match state.take_epoch(alloc) {
        Ok(epoch) => {
            check_number(rt, "first", epoch.first(), taken);
            check_number(rt, "events", epoch.events().len() as u64, events);
            check_number(rt, "taken", state.taken(), taken.wrapping_add(events));
            check_number(rt, "history", state.history().len() as u64, 0);
            true
        }
        Err(fault) => {
            assert!(rt; fault == EpochFault::Memory);
            check_number(rt, "taken", state.taken(), taken);
            check_number(rt, "history", state.history().len() as u64, events);
            false
        }
    }
}

/// Whether or not an epoch was taken out, the datagram is joined and counted as if none had been.
fn check_tried(rt: &(impl Abort + Wait), alloc: Global) {
    let (mut state, ends) = opened(rt, alloc, LINK);
    let mut taker = taker_of(rt, ends);
    let first = Packet((A, 1000, 1, First, FragmentHeld));
    check_step(rt, alloc, &mut state, first);
    let is_taken = try_epoch(rt, alloc, &mut state);
    check_number(rt, "taken", state.taken(), u64::from(is_taken));
    let last = Packet((A, 1100, 2, Last, FOR_NAV));
    check_step(rt, alloc, &mut state, last);
    check_events(rt, &state, 2);
    check_count(rt, &state, A, 5, 1);
    check_count(rt, &state, A, 11, 1);
    check_delivered(rt, alloc, &state, NAV, &[(1100, JOINED_PAYLOAD)]);
    check_taken(rt, alloc, &mut taker, 1100, JOINED_PAYLOAD);
}

// rule: HIST-9
#[test]
fn an_epoch_without_memory_changes_nothing(rt: HostRuntime) {
    check_tried(&rt, rt.alloc());
}
