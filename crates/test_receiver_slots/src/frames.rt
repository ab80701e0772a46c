//! Frames, and their counts.
use crate::given::{FILTERED, frame, opened, reply};
use receiver_slots::codes::{DONE, NO_KIND, NO_NETWORK, NO_PLACE, NOT_OPEN};
use receiver_slots::{FrameReply, ReceiverSlot};
use std::alloc::Global;
use std::process::Abort;
use test_inputs::{ETHERNET, PAYLOAD, UDP, frame_of};

const A: u32 = 0;

const B: u32 = 1;

/// The first frame of link 17, a sample.
const SAMPLED: FrameReply = FrameReply {
    kind: 10,
    cause: 0,
    link: 0,
    vl: 17,
    port: 0,
    place: 0,
    number: 1,
};

/// A frame for `pos` whose header has a wrong checksum.
fn wrong_checksum(rt: &impl Abort, alloc: Global) -> Vec<u8> {
    let bad = "4500002d000100000111cdcd0a010101e0e00011";
    frame_of(alloc, &[ETHERNET, bad, UDP, PAYLOAD], 2).expect(rt, "octets")
}

/// The first sample comes on both networks, then a frame whose sequence number is too far ahead, one with a wrong
/// checksum, and one for `nav`.
fn check_verdicts(rt: &impl Abort, alloc: Global, slot: &mut ReceiverSlot) {
    let first = frame(rt, alloc, false, 1);
    assert!(rt; reply(rt, slot, (A, 1000), &first) == SAMPLED);
    let mut wanted = SAMPLED;
    (wanted.kind, wanted.number, wanted.place) = (2, 0, 1);
    assert!(rt; reply(rt, slot, (B, 1100), &first) == wanted);
    (wanted.kind, wanted.place) = (1, 2);
    assert!(rt; reply(rt, slot, (B, 1200), &frame(rt, alloc, false, 9)) == wanted);
    (wanted.kind, wanted.cause, wanted.place) = (3, 4, 3);
    assert!(rt; reply(rt, slot, (A, 2000), &wrong_checksum(rt, alloc)) == wanted);
    (wanted.kind, wanted.cause, wanted.port, wanted.place) = (11, 0, 1, 4);
    assert!(rt; reply(rt, slot, (A, 3000), &frame(rt, alloc, true, 3)) == wanted);
}

/// Octets that come to no link.
fn check_causes(rt: &impl Abort, alloc: Global, slot: &mut ReceiverSlot) {
    let mut other = frame(rt, alloc, false, 0);
    if let Some(octet) = other.get_mut(5) {
        *octet = 99;
    }
    let mut wanted = FILTERED;
    wanted.cause = 5;
    assert!(rt; reply(rt, slot, (A, 4000), &other) == wanted);
    wanted.cause = 1;
    assert!(rt; reply(rt, slot, (B, 4000), &[3; 59]) == wanted);
    wanted.kind = 77;
    assert!(rt; slot.receive(2, 4000, &[3; 59], &mut wanted) == NO_NETWORK);
    assert!(rt; wanted.kind == 77);
}

/// A count of frames of a link, and what is answered.
fn count(slot: &ReceiverSlot, link: usize, net: u32, kind: u32) -> (u32, u64) {
    let mut count = 99;
    let code = slot.count(link, net, kind, &mut count);
    (code, count)
}

/// A count of filtered frames, and what is answered.
fn filtered(slot: &ReceiverSlot, net: u32, cause: u32) -> (u32, u64) {
    let mut count = 99;
    let code = slot.filtered(net, cause, &mut count);
    (code, count)
}

fn check_counts(rt: &impl Abort, slot: &ReceiverSlot) {
    assert!(rt; count(slot, 0, A, 10) == (DONE, 1) && count(slot, 0, B, 10) == (DONE, 0));
    assert!(rt; count(slot, 0, B, 2) == (DONE, 1) && count(slot, 0, A, 11) == (DONE, 1));
    assert!(rt; count(slot, 1, A, 13) == (DONE, 0));
    assert!(rt; count(slot, 2, A, 10) == (NO_PLACE, 99));
    assert!(rt; count(slot, 0, 2, 10) == (NO_NETWORK, 99));
    assert!(rt; count(slot, 0, A, 0) == (NO_KIND, 99) && count(slot, 0, A, 14) == (NO_KIND, 99));
    assert!(rt; filtered(slot, A, 5) == (DONE, 1) && filtered(slot, B, 1) == (DONE, 1));
    assert!(rt; filtered(slot, A, 4) == (DONE, 0) && filtered(slot, B, 5) == (DONE, 0));
    assert!(rt; filtered(slot, 2, 5) == (NO_NETWORK, 99));
    assert!(rt; filtered(slot, A, 0) == (NO_KIND, 99) && filtered(slot, A, 6) == (NO_KIND, 99));
}

fn check_frames(rt: &impl Abort, alloc: Global) {
    let mut slot = opened(rt, alloc);
    check_verdicts(rt, alloc, &mut slot);
    check_causes(rt, alloc, &mut slot);
    check_counts(rt, &slot);
    slot.close();
    assert!(rt;
        count(&slot, 0, A, 10) == (NOT_OPEN, 99) && filtered(&slot, A, 5) == (NOT_OPEN, 99)
    );
}

// rule: EMB-15, EMB-16
#[test]
fn what_becomes_of_a_frame_is_told_by_numbers_and_counted(rt: HostRuntime) {
    check_frames(&rt, rt.alloc());
}
