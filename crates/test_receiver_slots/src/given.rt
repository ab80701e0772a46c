//! A receiver of the built-in configuration and a second link in a slot, and frames for it.
use receiver_slots::codes::DONE;
use receiver_slots::{FaultReply, FrameReply, LinkReply, ReadReply, ReceiverSlot, TakeReply};
use std::alloc::Global;
use std::process::Abort;
use test_inputs::rows::NAV_UDP;
use test_inputs::{ETHERNET, IP, PAYLOAD, SECOND_LINK, UDP, frame_of};
use vl_config::BUILT_IN;

pub(crate) const NO_FAULT: FaultReply = FaultReply {
    fault: 0,
    key: 0,
    level: 0,
    link: 0,
    port: 0,
    line: 0,
};

pub(crate) const FILTERED: FrameReply = FrameReply {
    kind: 0,
    cause: 0,
    link: 0,
    vl: 0,
    port: 0,
    place: 0,
    number: 0,
};

pub(crate) const NOTHING_READ: ReadReply = ReadReply {
    found: 0,
    valid: 0,
    number: 0,
    time: 0,
    len: 0,
};

pub(crate) const NOTHING_TAKEN: TakeReply = TakeReply {
    found: 0,
    time: 0,
    len: 0,
    lost: 0,
};

/// A reply that no call gives for a link.
pub(crate) const NO_LINK: LinkReply = LinkReply {
    vl: 99_999,
    redundancy: 9,
    skew_max: 99,
    reassembly: 99,
    window: 9,
    ports: 99,
};

/// The built-in configuration, and link 18.
pub(crate) fn text(rt: &impl Abort, alloc: Global) -> String {
    let mut text = String::new(alloc);
    text.push_str(BUILT_IN).expect(rt, "memory");
    text.push_str(SECOND_LINK).expect(rt, "memory");
    text
}

/// A receiver of the configuration of this text.
pub(crate) fn opened_with(rt: &impl Abort, alloc: Global, text: &str) -> ReceiverSlot {
    let mut slot = ReceiverSlot::new();
    let mut fault = NO_FAULT;
    assert!(rt; slot.open_text(alloc, text.as_bytes(), 8, &mut fault) == DONE);
    assert!(rt; fault == NO_FAULT);
    slot
}

pub(crate) fn opened(rt: &impl Abort, alloc: Global) -> ReceiverSlot {
    opened_with(rt, alloc, text(rt, alloc).as_str())
}

/// A smallest frame of link 17 for `pos` or `nav`, with this sequence number.
pub(crate) fn frame(rt: &impl Abort, alloc: Global, is_for_nav: bool, number: u8) -> Vec<u8> {
    let udp = if is_for_nav { NAV_UDP } else { UDP };
    frame_of(alloc, &[ETHERNET, IP, udp, PAYLOAD], number).expect(rt, "octets")
}

/// Reply to a frame on this network.
pub(crate) fn reply(
    rt: &impl Abort,
    slot: &mut ReceiverSlot,
    (net, time): (u32, u64),
    octets: &[u8],
) -> FrameReply {
    let mut reply = FILTERED;
    assert!(rt; slot.receive(net, time, octets, &mut reply) == DONE);
    reply
}

/// A frame of this sequence number comes on A at as many milliseconds.
pub(crate) fn bring(
    rt: &impl Abort,
    alloc: Global,
    slot: &mut ReceiverSlot,
    is_for_nav: bool,
    number: u8,
) -> u32 {
    let octets = frame(rt, alloc, is_for_nav, number);
    let time = u64::from(number) * 1000;
    reply(rt, slot, (0, time), &octets).kind
}
