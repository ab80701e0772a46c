//! The octets of messages that are queued.
use crate::frames::{check_frames, opened};
use crate::messages::check_message;
use crate::packets::check_packets;
use crate::queues::taker_of;
use es_base::Net::A;
use es_base::Verdict::FragmentHeld;
use queuing_port::Taker;
use std::alloc::Global;
use std::process::Abort;
use std::sync::Wait;
use test_inputs::fragments::PacketName::{First, Last, LongerLast};
use test_inputs::rows::{FOR_NAV, FrameRow, PacketRow, first_twice, in_order, last_first};
use test_inputs::{IP, LINK, PAYLOAD, fives};

/// The taker takes one message, of this time in microseconds and with this payload.
pub(crate) fn check_taken(
    rt: &(impl Abort + Wait),
    alloc: Global,
    taker: &mut Taker,
    time: u64,
    payload: &str,
) {
    let message = taker.take(rt).expect(rt, "a message");
    check_message(rt, alloc, &message, time, payload);
    assert!(rt; taker.take(rt).is_none());
}

/// A new receiver gives these frames these verdicts, and then the taker of `nav` takes one message, of
/// this time in microseconds and with this payload.
fn check_queued(
    rt: &(impl Abort + Wait),
    alloc: Global,
    rows: &[FrameRow<'_>],
    time: u64,
    payload: &str,
) {
    let (mut state, ends) = opened(rt, alloc, LINK);
    let mut taker = taker_of(rt, ends);
    check_frames(rt, alloc, &mut state, rows);
    check_taken(rt, alloc, &mut taker, time, payload);
}

/// A new receiver gives these packets, each in a frame of 60 octets, these verdicts, and then the taker of
/// `nav` takes one message, of this time in microseconds and with this payload.
fn check_joined(
    rt: &(impl Abort + Wait),
    alloc: Global,
    rows: &[PacketRow],
    time: u64,
    payload: &str,
) {
    let (mut state, ends) = opened(rt, alloc, LINK);
    let mut taker = taker_of(rt, ends);
    check_packets(rt, alloc, &mut state, rows);
    check_taken(rt, alloc, &mut taker, time, payload);
}

/// Three fragments of a datagram, the third of which completes it.
fn three(first: PacketRow, second: PacketRow, third: PacketRow) -> [PacketRow; 3] {
    [first, second, third]
}

// rule: PORT-11
#[test]
fn a_joined_datagram_is_queued_whole(rt: HostRuntime) {
    let payload = "a0a1a2a3a4a5a6a7b0b1b2b3b4b5b6b7b8b9babbbcbdbebf";
    check_joined(&rt, rt.alloc(), &in_order(), 1100, payload);
    check_joined(&rt, rt.alloc(), &last_first(), 1100, payload);
}

// rule: REAS-8
#[test]
fn a_queued_message_has_the_latest_octets(rt: HostRuntime) {
    let payload = "c0c1c2c3c4c5c6c7b0b1b2b3b4b5b6b7b8b9babbbcbdbebf";
    check_joined(&rt, rt.alloc(), &first_twice(), 1200, payload);
}

/// The last fragment that ends earlier comes later, and the end is its end; and the other way round the
/// UDP header cuts what was joined.
// rule: UDP-2
#[test]
fn a_queued_message_is_as_long_as_its_udp_header_says(rt: HostRuntime) {
    let down = three(
        (A, 1000, 1, LongerLast, FragmentHeld),
        (A, 1100, 2, Last, FragmentHeld),
        (A, 1200, 3, First, FOR_NAV),
    );
    let payload = "a0a1a2a3a4a5a6a7b0b1b2b3b4b5b6b7b8b9babbbcbdbebf";
    check_joined(&rt, rt.alloc(), &down, 1200, payload);
    let up = three(
        (A, 1000, 1, Last, FragmentHeld),
        (A, 1100, 2, LongerLast, FragmentHeld),
        (A, 1200, 3, First, FOR_NAV),
    );
    let payload = "a0a1a2a3a4a5a6a7d0d1d2d3d4d5d6d7d8d9dadbdcdddedf";
    check_joined(&rt, rt.alloc(), &up, 1200, payload);
}

// rule: PORT-9
#[test]
fn an_empty_message_is_queued(rt: HostRuntime) {
    let row = (A, 1000, 1, IP, "1389138a00080000", PAYLOAD, FOR_NAV);
    check_queued(&rt, rt.alloc(), &[row], 1000, "");
}

/// The headers of the six fragments of a datagram of 8200 octets: 1472 octets in each, and 840 in the
/// last.
const LONGEST: [&str; 6] = [
    "450005d4000220000111a8240a010101e0e00011",
    "450005d4000220b80111a76c0a010101e0e00011",
    "450005d4000221700111a6b40a010101e0e00011",
    "450005d4000222280111a5fc0a010101e0e00011",
    "450005d4000222e00111a5440a010101e0e00011",
    "4500035c000203980111c7040a010101e0e00011",
];

/// The hexadecimal text of this many octets 5a.
fn text_of(rt: &impl Abort, alloc: Global, octets: usize) -> String {
    fives(alloc, octets).expect(rt, "memory")
}

/// A message of 8192 octets is the longest.
fn check_longest(rt: &(impl Abort + Wait), alloc: Global) {
    let payload = text_of(rt, alloc, 8192);
    let begin = text_of(rt, alloc, 1464);
    let middle = text_of(rt, alloc, 1472);
    let end = text_of(rt, alloc, 840);
    let [one, two, three, four, five, six] = LONGEST;
    let rows = [
        (
            A,
            1,
            1,
            one,
            "1389138a20080000",
            begin.as_str(),
            FragmentHeld,
        ),
        (A, 2, 2, two, "", middle.as_str(), FragmentHeld),
        (A, 3, 3, three, "", middle.as_str(), FragmentHeld),
        (A, 4, 4, four, "", middle.as_str(), FragmentHeld),
        (A, 5, 5, five, "", middle.as_str(), FragmentHeld),
        (A, 6, 6, six, "", end.as_str(), FOR_NAV),
    ];
    check_queued(rt, alloc, &rows, 6, payload.as_str());
}

// rule: PORT-9
#[test]
fn the_longest_message_is_queued_whole(rt: HostRuntime) {
    check_longest(&rt, rt.alloc());
}
