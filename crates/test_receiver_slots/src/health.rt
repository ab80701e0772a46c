//! How a link is, what became of a port's messages, and how full its queue is.
use crate::given::{bring, frame, opened, reply};
use receiver_slots::codes::{DONE, NO_PLACE, NONE_LEFT, NOT_OPEN};
use receiver_slots::{FillReply, HealthReply, PortCountsReply, ReceiverSlot};
use std::alloc::Global;
use std::process::Abort;
use test_inputs::fragments::{PacketName, padding_after};
use test_inputs::{ETHERNET, frame_of};

/// To a link no frame came.
const SILENT: HealthReply = HealthReply {
    came_a: 0,
    came_b: 0,
    latest_a: 0,
    latest_b: 0,
    given_up: 0,
};

/// A reply that no call gives for a link.
const UNTOLD: HealthReply = HealthReply {
    came_a: 9,
    came_b: 9,
    latest_a: 99,
    latest_b: 99,
    given_up: 99,
};

/// How the link at this place is, and what is answered.
fn health(slot: &ReceiverSlot, link: usize) -> (u32, HealthReply) {
    let mut reply = UNTOLD;
    let code = slot.health(link, &mut reply);
    (code, reply)
}

/// How many messages wait at a port and waited at most, and what is answered.
fn fill(slot: &mut ReceiverSlot, link: usize, port: usize) -> (u32, usize, usize) {
    let mut reply = FillReply {
        waiting: 99,
        greatest: 99,
    };
    let code = slot.fill(link, port, &mut reply);
    (code, reply.waiting, reply.greatest)
}

/// A reply that no call gives for a port.
const NOT_COUNTED: PortCountsReply = PortCountsReply {
    delivered: 99,
    overflowed: 99,
    too_long: 99,
    fragmented: 99,
    came: 9,
    net: 9,
    latest: 99,
};

/// What became of the messages for a port, and what is answered.
fn counts(slot: &ReceiverSlot, link: usize, port: usize) -> (u32, PortCountsReply) {
    let mut reply = NOT_COUNTED;
    let code = slot.port_counts(link, port, &mut reply);
    (code, reply)
}

/// The frame of a fragment comes on A.
fn bring_fragment(
    rt: &impl Abort,
    alloc: Global,
    slot: &mut ReceiverSlot,
    (name, number, time): (PacketName, u8, u64),
) {
    let (ip, octets) = name.texts();
    let texts = [ETHERNET, ip, octets, padding_after(octets)];
    let octets = frame_of(alloc, &texts, number).expect(rt, "octets");
    assert!(rt; reply(rt, slot, (0, time), &octets).kind == 5);
}

fn check_health(rt: &impl Abort, alloc: Global) {
    let mut slot = opened(rt, alloc);
    assert!(rt; health(&slot, 0) == (DONE, SILENT));
    let octets = frame(rt, alloc, false, 1);
    let _ = reply(rt, &mut slot, (1, 0), &octets);
    let mut wanted = SILENT;
    wanted.came_b = 1;
    assert!(rt; health(&slot, 0) == (DONE, wanted));
    bring_fragment(rt, alloc, &mut slot, (PacketName::First, 2, 2000));
    // the first one's time is over
    bring_fragment(rt, alloc, &mut slot, (PacketName::Last, 3, 52_001));
    (wanted.came_a, wanted.latest_a, wanted.given_up) = (1, 52_001, 1);
    assert!(rt; health(&slot, 0) == (DONE, wanted));
    assert!(rt; health(&slot, 1) == (DONE, SILENT));
    assert!(rt; health(&slot, 2) == (NO_PLACE, UNTOLD));
    slot.close();
    assert!(rt; health(&slot, 0) == (NOT_OPEN, UNTOLD));
}

// rule: EMB-6, EMB-21
#[test]
fn when_frames_came_and_what_was_given_up_is_told(rt: HostRuntime) {
    check_health(&rt, rt.alloc());
}

fn check_fill(rt: &impl Abort, alloc: Global) {
    let mut slot = opened(rt, alloc);
    assert!(rt; fill(&mut slot, 0, 1) == (DONE, 0, 0));
    let _ = bring(rt, alloc, &mut slot, true, 1);
    let _ = bring(rt, alloc, &mut slot, true, 2);
    assert!(rt; fill(&mut slot, 0, 1) == (DONE, 2, 2));
    assert!(rt; fill(&mut slot, 0, 0) == (NONE_LEFT, 99, 99));
    assert!(rt; fill(&mut slot, 0, 2) == (NO_PLACE, 99, 99));
    assert!(rt; fill(&mut slot, 2, 0) == (NO_PLACE, 99, 99));
    slot.close();
    assert!(rt; fill(&mut slot, 0, 1) == (NOT_OPEN, 99, 99));
}

// rule: EMB-21
#[test]
fn how_full_a_queue_is_is_told(rt: HostRuntime) {
    check_fill(&rt, rt.alloc());
}

fn check_counts(rt: &impl Abort, alloc: Global) {
    let mut slot = opened(rt, alloc);
    let mut wanted = PortCountsReply {
        delivered: 0,
        overflowed: 0,
        too_long: 0,
        fragmented: 0,
        came: 0,
        net: 0,
        latest: 0,
    };
    assert!(rt; counts(&slot, 0, 0) == (DONE, wanted));
    let octets = frame(rt, alloc, false, 1);
    let _ = reply(rt, &mut slot, (1, 5000), &octets);
    (wanted.delivered, wanted.came, wanted.net, wanted.latest) = (1, 1, 1, 5000);
    assert!(rt; counts(&slot, 0, 0) == (DONE, wanted));
    assert!(rt; counts(&slot, 0, 2) == (NO_PLACE, NOT_COUNTED));
    assert!(rt; counts(&slot, 0, 256) == (NO_PLACE, NOT_COUNTED));
    assert!(rt; counts(&slot, 2, 0) == (NO_PLACE, NOT_COUNTED));
    slot.close();
    assert!(rt; counts(&slot, 0, 0) == (NOT_OPEN, NOT_COUNTED));
}

// rule: EMB-21, EMB-45
#[test]
fn what_became_of_the_messages_for_a_port_is_told(rt: HostRuntime) {
    check_counts(&rt, rt.alloc());
}
