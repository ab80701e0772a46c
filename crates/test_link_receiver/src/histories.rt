//! The messages that a link's history delivered to its ports.
use crate::frames::{check_frames, opened};
use crate::messages::check_message;
use es_base::Net::{A, B};
use es_base::Verdict::{FragmentHeld, OutOfSequence, Overflow, Redundant, Sampled};
use es_base::{Message, PortNo, Verdict};
use std::alloc::Global;
use std::process::Abort;
use std::sync::Wait;
use test_inputs::fragments::PacketName::{First, Last};
use test_inputs::rows::{FOR_NAV, FrameRow, NAV, NAV_UDP, POS, packet_row};
use test_inputs::{IP, LINK, Link, PAYLOAD, UDP};

/// The other payload.
const NEXT_PAYLOAD: &str = "2122232425262728292a2b2c2d2e2f3031";
/// The payload that the two fragments make.
pub(crate) const JOINED_PAYLOAD: &str = "a0a1a2a3a4a5a6a7b0b1b2b3b4b5b6b7b8b9babbbcbdbebf";

/// The time of a message in microseconds, and its octets.
pub(crate) type Wanted = (u64, &'static str);

/// The second frame is a copy of the first, and the fourth is out of sequence.
fn samples() -> [FrameRow<'static>; 4] {
    [
        (A, 1000, 1, IP, UDP, PAYLOAD, Sampled(POS, 1)),
        (B, 1100, 1, IP, UDP, PAYLOAD, Redundant),
        (A, 2000, 2, IP, UDP, NEXT_PAYLOAD, Sampled(POS, 2)),
        (A, 3000, 9, IP, UDP, PAYLOAD, OutOfSequence),
    ]
}

/// Both pieces come on both networks, with a whole datagram between them, and then both of a later datagram.
fn pieces() -> [FrameRow<'static>; 7] {
    [
        packet_row((A, 1000, 1, First, FragmentHeld)),
        packet_row((B, 1050, 1, First, Redundant)),
        (A, 1070, 2, IP, NAV_UDP, PAYLOAD, FOR_NAV),
        packet_row((B, 1100, 3, Last, FOR_NAV)),
        packet_row((A, 1150, 3, Last, Redundant)),
        packet_row((B, 1200, 4, First, FragmentHeld)),
        packet_row((B, 1250, 5, Last, FOR_NAV)),
    ]
}

/// These messages have these times and octets, and there are no others.
pub(crate) fn check_messages(
    rt: &impl Abort,
    alloc: Global,
    messages: &[Message],
    wanted: &[Wanted],
) {
    assert!(rt; messages.len() == wanted.len());
    for (message, (time, payload)) in messages.iter().zip(wanted) {
        check_message(rt, alloc, message, *time, payload);
    }
}

/// These frames have these verdicts, and then these messages were delivered to a port, where the queue
/// of `nav` has this depth.
fn check_deliveries(
    rt: &(impl Abort + Wait),
    alloc: Global,
    nav_depth: u8,
    rows: &[FrameRow<'_>],
    port: PortNo,
    wanted: &[Wanted],
) {
    let (mut state, _) = opened(rt, alloc, Link { nav_depth, ..LINK });
    check_frames(rt, alloc, &mut state, rows);
    let messages = state.deliveries(alloc, port).expect(rt, "memory");
    check_messages(rt, alloc, &messages, wanted);
}

// rule: PORT-4
#[test]
fn first_copies_in_sequence_are_delivered(rt: HostRuntime) {
    let wanted = [(1000, PAYLOAD), (2000, NEXT_PAYLOAD)];
    check_deliveries(&rt, rt.alloc(), 4, &samples(), POS, &wanted);
}

// rule: PORT-4
#[test]
fn no_port_has_the_messages_of_another(rt: HostRuntime) {
    check_deliveries(&rt, rt.alloc(), 4, &samples(), NAV, &[]);
    check_deliveries(&rt, rt.alloc(), 4, &samples(), PortNo(2), &[]);
}

// rule: PORT-4
#[test]
fn a_link_without_frames_delivers_nothing(rt: HostRuntime) {
    check_deliveries(&rt, rt.alloc(), 4, &[], POS, &[]);
}

// rule: PORT-4
#[test]
fn a_joined_datagram_is_delivered_once(rt: HostRuntime) {
    let wanted = [
        (1070, PAYLOAD),
        (1100, JOINED_PAYLOAD),
        (1250, JOINED_PAYLOAD),
    ];
    check_deliveries(&rt, rt.alloc(), 4, &pieces(), NAV, &wanted);
}

/// Three messages for `nav`. The verdicts of the last two depend on the depth of its queue.
fn three_queued(second: Verdict, third: Verdict) -> [FrameRow<'static>; 3] {
    [
        (A, 1000, 1, IP, NAV_UDP, PAYLOAD, FOR_NAV),
        (A, 1100, 2, IP, NAV_UDP, NEXT_PAYLOAD, second),
        (A, 1200, 3, IP, NAV_UDP, PAYLOAD, third),
    ]
}

// rule: PORT-4
#[test]
fn a_lost_message_is_not_delivered(rt: HostRuntime) {
    let wanted = [(1000, PAYLOAD), (1100, NEXT_PAYLOAD)];
    let lost = Overflow(NAV);
    let depth_2 = three_queued(FOR_NAV, lost);
    check_deliveries(&rt, rt.alloc(), 2, &depth_2, NAV, &wanted);
    let depth_1 = three_queued(lost, lost);
    check_deliveries(&rt, rt.alloc(), 1, &depth_1, NAV, &wanted[..1]);
}

/// The events of three messages for a queue of two places.
fn check_room(rt: &(impl Abort + Wait), alloc: Global) {
    let nav_depth = 2;
    let (mut state, _) = opened(rt, alloc, Link { nav_depth, ..LINK });
    let rows = three_queued(FOR_NAV, Overflow(NAV));
    check_frames(rt, alloc, &mut state, &rows);
    for (place, wanted) in [true, true, false].iter().enumerate() {
        let event = state.history().get(place).expect(rt, "an event");
        assert!(rt; event.room == *wanted, "{place}");
    }
}

// rule: PORT-9
#[test]
fn an_event_says_whether_the_queue_had_room(rt: HostRuntime) {
    check_room(&rt, rt.alloc());
}
