//! The greatest configuration: 64 links, the last of which has 32 ports.
use crate::ends::{read, take};
use crate::given::{NO_LINK, opened_with, reply};
use receiver_slots::codes::DONE;
use receiver_slots::{
    FrameReply, PlaceReply, ReadReply, ReaderSlot, ReceiverSlot, TakeReply, TakerSlot,
};
use std::alloc::Global;
use std::process::Abort;
use test_inputs::{
    GREATEST_LINKS, GREATEST_PORTS, greatest_frame, greatest_number_at, greatest_samples,
    greatest_text,
};

/// The place of the last link.
const LAST: u16 = GREATEST_LINKS - 1;

/// Reply to the first frame of the link at this place, which has no port.
fn without_a_port(place: u16) -> FrameReply {
    FrameReply {
        kind: 7,
        cause: 0,
        link: usize::from(place),
        vl: u32::from(greatest_number_at(place)),
        port: 0,
        place: 0,
        number: 0,
    }
}

/// The link at this place is told with its number, and so is a frame of it.
fn check_link(rt: &impl Abort, alloc: Global, slot: &mut ReceiverSlot, place: u16) {
    let vl = greatest_number_at(place);
    let mut link = NO_LINK;
    assert!(rt; slot.link(usize::from(place), &mut link) == DONE);
    assert!(rt; link.vl == u32::from(vl) && link.ports == 0, "{link:?}");
    let octets = greatest_frame(alloc, vl, 0, 7).expect(rt, "octets");
    let told = reply(rt, slot, (0, 1000), &octets);
    assert!(rt; told == without_a_port(place), "{told:?}");
}

/// When the message for the port at this place comes, in microseconds.
fn time_of(port: u16) -> u64 {
    u64::from(port) * 1000 + 5
}

/// Reply to the frame for this port of the last link, after one for each port before it.
fn at_port(port: u16) -> FrameReply {
    let samples = greatest_samples(port);
    FrameReply {
        kind: if samples { 10 } else { 11 },
        cause: 0,
        link: usize::from(LAST),
        vl: 65_535,
        port: u32::from(port),
        place: u64::from(port),
        number: u64::from(samples),
    }
}

fn check_frame(rt: &impl Abort, alloc: Global, slot: &mut ReceiverSlot, port: u16) {
    let octets = greatest_frame(alloc, u16::MAX, port, (port % 256) as u8).expect(rt, "octets");
    let told = reply(rt, slot, (0, time_of(port)), &octets);
    assert!(rt; told == at_port(port), "{told:?}");
}

/// The reader of a sampling port finds its message.
fn check_read(rt: &impl Abort, slot: &mut ReceiverSlot, port: u16, name: &[u8]) {
    let mut reader = ReaderSlot::new();
    assert!(rt; slot.hand_reader(&mut reader, name) == DONE, "{port}");
    let wanted = ReadReply {
        found: 1,
        valid: 1,
        number: 1,
        time: time_of(port),
        len: 17,
    };
    let mut out = [0; 17];
    assert!(rt; read(&mut reader, 0, &mut out) == (DONE, wanted), "{port}");
    assert!(rt; u16::from(out[0]) == port && out[16] == 17, "{port}");
    let _ = reader.into_reader();
}

/// The taker of a queuing port takes its message.
fn check_taken(rt: &impl Abort, slot: &mut ReceiverSlot, port: u16, name: &[u8]) {
    let mut taker = TakerSlot::new();
    assert!(rt; slot.hand_taker(&mut taker, name) == DONE, "{port}");
    let wanted = TakeReply {
        found: 1,
        time: time_of(port),
        len: 17,
        lost: 0,
    };
    let mut out = [0; 17];
    assert!(rt; take(&mut taker, &mut out) == (DONE, wanted), "{port}");
    assert!(rt; u16::from(out[0]) == port && out[16] == 17, "{port}");
}

/// The port is found by its name, and has its own message.
fn check_port(rt: &impl Abort, alloc: Global, slot: &mut ReceiverSlot, port: u16) {
    let name = format!(in alloc; "p{port}").expect(rt, "memory");
    let name = name.as_str().as_bytes();
    let mut place = PlaceReply { link: 9, port: 99 };
    assert!(rt; slot.place(name, &mut place) == DONE);
    assert!(rt;
        place.link == usize::from(LAST) && place.port == u32::from(port),
        "{place:?}"
    );
    if greatest_samples(port) {
        check_read(rt, slot, port, name);
    } else {
        check_taken(rt, slot, port, name);
    }
}

/// Each link gets a frame, and then each port, before any of them is read.
fn check_greatest(rt: &impl Abort, alloc: Global) {
    let text = greatest_text(alloc).expect(rt, "memory");
    let mut slot = opened_with(rt, alloc, text.as_str());
    for place in 0..LAST {
        check_link(rt, alloc, &mut slot, place);
    }
    for port in 0..GREATEST_PORTS {
        check_frame(rt, alloc, &mut slot, port);
    }
    for port in 0..GREATEST_PORTS {
        check_port(rt, alloc, &mut slot, port);
    }
}

// rule: FRAME-6, EMB-2, EMB-4, EMB-17, CONF-3, CONF-9
#[test]
fn sixty_four_links_and_thirty_two_ports_are_told_apart(rt: HostRuntime) {
    check_greatest(&rt, rt.alloc());
}
