//! Frames of link 17, each with the verdict that the rules give it. Each table is for a new receiver of the built-in
//! configuration.
use crate::fragments::PacketName::{
    First, First3, First4, First5, First6, FirstAnew, FirstForPos, Last,
};
use crate::fragments::{PacketName, padding_after};
use crate::frames::{ETHERNET, IP, PAYLOAD, UDP, frame_of};
use es_base::Net::{A, B};
use es_base::PacketFault::Checksum;
use es_base::Verdict::{
    BadHeader, FragmentHeld, FragmentedSample, OutOfSequence, Redundant, Sampled,
};
use es_base::{Net, PortNo, Verdict};
use std::alloc::Global;

/// The sampling port `pos` of the built-in configuration.
pub const POS: PortNo = PortNo(0);
/// Its queuing port `nav`.
pub const NAV: PortNo = PortNo(1);
/// The verdict of a good datagram for `nav`, whose queue has room.
pub const FOR_NAV: Verdict = Verdict::Queued(NAV);
/// The UDP header of the smallest frame, for `nav`.
pub const NAV_UDP: &str = "1389138a00190000";

/// The network, arrival time in microseconds and sequence number of a frame, its IPv4 header, UDP header and payload,
/// and its verdict.
pub type FrameRow<'a> = (Net, u64, u8, &'a str, &'a str, &'a str, Verdict);

/// The network, arrival time in microseconds and sequence number of a smallest frame for `pos`, and its verdict.
pub type SmallestRow = (Net, u64, u8, Verdict);

/// The network, arrival time in microseconds and sequence number of a frame of 60 octets, its packet, and its verdict.
pub type PacketRow = (Net, u64, u8, PacketName, Verdict);

/// This smallest frame.
pub fn smallest_row(row: SmallestRow) -> FrameRow<'static> {
    let (net, now, sequence_number, verdict) = row;
    (net, now, sequence_number, IP, UDP, PAYLOAD, verdict)
}

/// The frame of this packet.
pub fn packet_row(row: PacketRow) -> FrameRow<'static> {
    let (net, now, sequence_number, packet, verdict) = row;
    let (ip, octets) = packet.texts();
    let padding = padding_after(octets);
    (net, now, sequence_number, ip, octets, padding, verdict)
}

/// A frame of link 17, drawn by this number: with a fragment for 0 to 2, and else for `nav`. None if memory runs out.
pub fn frame_of_17(alloc: Global, draw: usize, sequence_number: u8) -> Option<Vec<u8>> {
    let (ip, octets) = match draw {
        0 => PacketName::First.texts(),
        1 => PacketName::Last.texts(),
        2 => PacketName::First3.texts(),
        _ => (IP, NAV_UDP),
    };
    let padding = if draw > 2 {
        PAYLOAD
    } else {
        padding_after(octets)
    };
    frame_of(alloc, &[ETHERNET, ip, octets, padding], sequence_number).ok()
}

// ---- integrity checking

/// A discarded sequence number counts as the one before: 0c follows 0b.
pub fn window() -> [SmallestRow; 5] {
    [
        (A, 10_000, 0x05, Sampled(POS, 1)),
        (A, 20_000, 0x06, Sampled(POS, 2)),
        (A, 30_000, 0x08, Sampled(POS, 3)),
        (A, 40_000, 0x0b, OutOfSequence),
        (A, 50_000, 0x0c, Sampled(POS, 4)),
    ]
}

/// 1 follows 255.
pub fn turn() -> [SmallestRow; 3] {
    [
        (A, 1000, 0xfe, Sampled(POS, 1)),
        (A, 2000, 0xff, Sampled(POS, 2)),
        (A, 3000, 0x01, Sampled(POS, 3)),
    ]
}

// ---- redundancy management

/// A copy at SkewMax, 1000 microseconds.
pub fn copy_at_skew_max() -> [SmallestRow; 2] {
    [(A, 1000, 7, Sampled(POS, 1)), (B, 2000, 7, Redundant)]
}

/// A copy one microsecond later.
pub fn copy_after_skew_max() -> [SmallestRow; 2] {
    [(A, 1000, 7, Sampled(POS, 1)), (B, 2001, 7, Sampled(POS, 2))]
}

/// B follows A by two frames.
pub fn two_frames_late() -> [SmallestRow; 4] {
    [
        (A, 1000, 0, Sampled(POS, 1)),
        (A, 1100, 1, Sampled(POS, 2)),
        (B, 1200, 0, Redundant),
        (B, 1300, 1, Redundant),
    ]
}

/// 0 follows 255.
pub fn reset_after_255() -> [SmallestRow; 2] {
    [
        (A, 1000, 0xff, Sampled(POS, 1)),
        (A, 1200, 0, Sampled(POS, 2)),
    ]
}

/// Nothing has elapsed since a later time.
pub fn copy_before_its_first() -> [SmallestRow; 2] {
    [(A, 5000, 9, Sampled(POS, 1)), (B, 10, 9, Redundant)]
}

/// A frame with a wrong checksum, and a good copy of it.
pub fn bad_and_good() -> [FrameRow<'static>; 2] {
    let bad = "4500002d000100000111cdcd0a010101e0e00011";
    [
        (A, 1000, 0, bad, UDP, PAYLOAD, BadHeader(Checksum)),
        (B, 1100, 0, IP, UDP, PAYLOAD, Redundant),
    ]
}

// ---- reassembly

/// Both fragments of a datagram for `nav`.
pub fn in_order() -> [PacketRow; 2] {
    [
        (A, 1000, 1, First, FragmentHeld),
        (A, 1100, 2, Last, FOR_NAV),
    ]
}

/// The last fragment comes first.
pub fn last_first() -> [PacketRow; 2] {
    [
        (A, 1000, 1, Last, FragmentHeld),
        (A, 1100, 2, First, FOR_NAV),
    ]
}

/// The first fragment comes twice, with other octets the second time.
pub fn first_twice() -> [PacketRow; 3] {
    [
        (A, 1000, 1, First, FragmentHeld),
        (A, 1100, 2, FirstAnew, FragmentHeld),
        (A, 1200, 3, Last, FOR_NAV),
    ]
}

/// Five datagrams begin, and the first of them, which was given up, never ends.
pub fn five_begin() -> [PacketRow; 6] {
    [
        (A, 1000, 1, First, FragmentHeld),
        (A, 1100, 2, First3, FragmentHeld),
        (A, 1200, 3, First4, FragmentHeld),
        (A, 1300, 4, First5, FragmentHeld),
        (A, 1400, 5, First6, FragmentHeld),
        (A, 1500, 6, Last, FragmentHeld),
    ]
}

/// A datagram for `pos` in two fragments.
pub fn joined_for_a_sampling_port() -> [PacketRow; 2] {
    [
        (A, 1000, 1, FirstForPos, FragmentHeld),
        (A, 1100, 2, Last, FragmentedSample(POS)),
    ]
}
