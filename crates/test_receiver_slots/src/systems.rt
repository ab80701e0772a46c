//! The slots of an end system of two threads, on one thread: each call once, and each of its answers but BUSY.
use crate::given::{FILTERED, NO_FAULT, NO_LINK, NOTHING_READ, NOTHING_TAKEN, frame, text};
use receiver_slots::codes::{
    ALREADY_OPEN, DONE, FAULTY, NO_KIND, NO_NAME, NO_NETWORK, NO_PLACE, NONE_LEFT, NOT_OPEN,
    OUT_OF_RANGE,
};
use receiver_slots::{
    FillReply, FrameReply, LinkHealthReply, PlaceReply, PortCountsReply, PortReply, ReaderSlot,
    TakerSlot,
};
use std::alloc::Global;
use std::process::Abort;
use system_slots::{PassSlot, SystemSlot, hand_pass};

const A: u32 = 0;

const B: u32 = 1;

/// The first frame of link 17, a sample.
const SAMPLED: FrameReply = FrameReply {
    kind: 10,
    cause: 0,
    link: 0,
    vl: 17,
    port: 0,
    place: 0,
    number: 1,
};

const NO_PORT: PortReply = PortReply {
    service: 9,
    address: 0,
    udp: 0,
    max: 0,
    limit: 0,
    name_len: 0,
};

/// A system of the built-in configuration and a second link, and the passes of both networks.
#[derive(Drop)]
struct Running {
    system: SystemSlot,
    a: PassSlot,
    b: PassSlot,
}

fn opened(rt: &impl Abort, alloc: Global) -> Running {
    let text = text(rt, alloc);
    let mut running = Running {
        system: SystemSlot::new(),
        a: PassSlot::new(),
        b: PassSlot::new(),
    };
    let mut fault = NO_FAULT;
    let Running { system, a, b } = &mut running;
    assert!(rt; system.open_text(alloc, text.as_str().as_bytes(), 1, &mut fault) == DONE);
    assert!(rt; hand_pass(system, A, a) == DONE && hand_pass(system, B, b) == DONE);
    running
}

/// Reply of a pass to a frame.
fn reply(rt: &impl Abort, pass: &mut PassSlot, now: u64, octets: &[u8]) -> FrameReply {
    let mut reply = FILTERED;
    assert!(rt; pass.receive(now, octets, &mut reply) == DONE);
    reply
}

/// A count of frames of a link, and what is answered.
fn count(pass: &PassSlot, link: usize, kind: u32) -> (u32, u64) {
    let mut count = 99;
    let code = pass.count(link, kind, &mut count);
    (code, count)
}

/// A count of filtered frames, and what is answered.
fn filtered(pass: &PassSlot, cause: u32) -> (u32, u64) {
    let mut count = 99;
    let code = pass.filtered(cause, &mut count);
    (code, count)
}

/// The first sample comes on both networks, and a message for `nav`, and octets that come to no link.
fn check_verdicts(rt: &impl Abort, alloc: Global, a: &mut PassSlot, b: &mut PassSlot) {
    let first = frame(rt, alloc, false, 1);
    assert!(rt; reply(rt, a, 1000, &first) == SAMPLED);
    let mut wanted = SAMPLED;
    (wanted.kind, wanted.number, wanted.place) = (2, 0, 1);
    assert!(rt; reply(rt, b, 1100, &first) == wanted);
    (wanted.kind, wanted.port, wanted.place) = (11, 1, 2);
    assert!(rt; reply(rt, b, 2000, &frame(rt, alloc, true, 2)) == wanted);
    wanted = FILTERED;
    wanted.cause = 1;
    assert!(rt; reply(rt, a, 3000, &[3; 59]) == wanted);
}

/// Each pass counts what came on its own network.
fn check_counts(rt: &impl Abort, a: &PassSlot, b: &PassSlot) {
    assert!(rt; count(a, 0, 10) == (DONE, 1) && count(b, 0, 10) == (DONE, 0));
    assert!(rt; count(a, 0, 2) == (DONE, 0) && count(b, 0, 2) == (DONE, 1));
    assert!(rt; count(b, 0, 11) == (DONE, 1) && count(b, 1, 11) == (DONE, 0));
    assert!(rt; count(a, 2, 10) == (NO_PLACE, 99) && count(a, 0, 0) == (NO_KIND, 99));
    assert!(rt; count(a, 2, 14) == (NO_KIND, 99));
    assert!(rt; filtered(a, 1) == (DONE, 1) && filtered(b, 1) == (DONE, 0));
    assert!(rt; filtered(a, 0) == (NO_KIND, 99) && filtered(a, 6) == (NO_KIND, 99));
}

/// How a link is by a pass, and what is answered.
fn health(pass: &mut PassSlot, link: usize) -> (u32, LinkHealthReply) {
    let mut health = LinkHealthReply {
        came: 9,
        latest: 9,
        received: 9,
        given_up: 9,
    };
    let code = pass.health(link, &mut health);
    (code, health)
}

/// Each pass knows when the latest frame came on its own network, and both how many came.
fn check_health(rt: &impl Abort, a: &mut PassSlot, b: &mut PassSlot) {
    let mut wanted = LinkHealthReply {
        came: 1,
        latest: 1000,
        received: 3,
        given_up: 0,
    };
    assert!(rt; health(a, 0) == (DONE, wanted));
    wanted.latest = 2000;
    assert!(rt; health(b, 0) == (DONE, wanted));
    (wanted.came, wanted.latest, wanted.received) = (0, 0, 0);
    assert!(rt; health(a, 1) == (DONE, wanted) && health(b, 1) == (DONE, wanted));
    let (code, same) = health(a, 2);
    assert!(rt; code == NO_PLACE && same.came == 9 && same.given_up == 9);
    let (code, same) = health(&mut PassSlot::new(), 0);
    assert!(rt; code == NOT_OPEN && same.latest == 9 && same.received == 9);
}

/// A reader finds the sample, and the taker the message.
fn check_ends(rt: &impl Abort, system: &mut SystemSlot) {
    let (mut pos, mut other) = (ReaderSlot::new(), ReaderSlot::new());
    let mut nav = TakerSlot::new();
    assert!(rt; system.hand_reader(&mut pos, b"pos") == DONE);
    assert!(rt; system.hand_reader(&mut pos, b"pos") == ALREADY_OPEN);
    assert!(rt; system.hand_reader(&mut other, b"pos") == NONE_LEFT);
    assert!(rt; system.hand_reader(&mut other, b"none") == NO_NAME);
    assert!(rt; system.hand_taker(&mut nav, b"pos") == NONE_LEFT);
    assert!(rt; system.hand_taker(&mut nav, b"nav") == DONE);
    assert!(rt; system.hand_taker(&mut nav, b"nav") == ALREADY_OPEN);
    let (mut out, mut read) = ([0; 64], NOTHING_READ);
    assert!(rt; pos.read(1500, &mut out, &mut read) == DONE);
    assert!(rt; read.found == 1 && read.valid == 1 && read.number == 1 && read.time == 1000);
    let (mut room, mut taken) = ([0; 8192], NOTHING_TAKEN);
    assert!(rt; nav.take(&mut room, &mut taken) == DONE);
    assert!(rt; taken.found == 1 && taken.time == 2000);
}

fn check_frames(rt: &impl Abort, alloc: Global) {
    let Running {
        mut system,
        mut a,
        mut b,
    } = opened(rt, alloc);
    check_verdicts(rt, alloc, &mut a, &mut b);
    check_counts(rt, &a, &b);
    check_health(rt, &mut a, &mut b);
    check_ends(rt, &mut system);
}

// rule: EMB-25, EMB-26, EMB-27, EMB-41, EMB-42
#[test]
fn what_becomes_of_a_frame_is_told_by_its_pass(rt: HostRuntime) {
    check_frames(&rt, rt.alloc());
}

/// How many messages wait at a port and waited at most by a pass, and what is answered.
fn fill(pass: &mut PassSlot, link: usize, port: usize) -> (u32, usize, usize) {
    let mut reply = FillReply {
        waiting: 99,
        greatest: 99,
    };
    let code = pass.fill(link, port, &mut reply);
    (code, reply.waiting, reply.greatest)
}

/// Both passes tell the same of a queue, before a message is taken and after.
fn check_fill(rt: &impl Abort, alloc: Global) {
    let Running {
        mut system,
        mut a,
        mut b,
    } = opened(rt, alloc);
    let mut nav = TakerSlot::new();
    assert!(rt; system.hand_taker(&mut nav, b"nav") == DONE);
    assert!(rt; fill(&mut a, 0, 1) == (DONE, 0, 0));
    assert!(rt; reply(rt, &mut a, 1000, &frame(rt, alloc, true, 1)).kind == 11);
    assert!(rt; reply(rt, &mut b, 2000, &frame(rt, alloc, true, 2)).kind == 11);
    assert!(rt; fill(&mut a, 0, 1) == (DONE, 2, 2) && fill(&mut b, 0, 1) == (DONE, 2, 2));
    let (mut room, mut taken) = ([0; 8192], NOTHING_TAKEN);
    assert!(rt; nav.take(&mut room, &mut taken) == DONE && taken.found == 1);
    assert!(rt; fill(&mut b, 0, 1) == (DONE, 1, 2));
    assert!(rt; fill(&mut a, 0, 0) == (NONE_LEFT, 99, 99));
    assert!(rt; fill(&mut a, 0, 2) == (NO_PLACE, 99, 99));
    assert!(rt; fill(&mut a, 2, 0) == (NO_PLACE, 99, 99));
    a.close();
    assert!(rt; fill(&mut a, 0, 1) == (NOT_OPEN, 99, 99));
}

// rule: EMB-44
#[test]
fn each_pass_tells_how_full_a_queue_is(rt: HostRuntime) {
    check_fill(&rt, rt.alloc());
}

/// What became of the messages for a port by a pass, and what is answered.
fn counts(pass: &mut PassSlot, link: usize, port: usize) -> (u32, PortCountsReply) {
    let mut reply = PortCountsReply {
        delivered: 99,
        overflowed: 99,
        too_long: 99,
        fragmented: 99,
        came: 9,
        net: 9,
        latest: 99,
    };
    let code = pass.port_counts(link, port, &mut reply);
    (code, reply)
}

/// Both passes tell the same of a port, whose second message network B brings.
fn check_port_counts(rt: &impl Abort, alloc: Global) {
    let Running {
        system: _,
        mut a,
        mut b,
    } = opened(rt, alloc);
    assert!(rt; reply(rt, &mut a, 1000, &frame(rt, alloc, true, 1)).kind == 11);
    assert!(rt; reply(rt, &mut b, 2000, &frame(rt, alloc, true, 2)).kind == 11);
    let told = counts(&mut a, 0, 1);
    assert!(rt; told.0 == DONE && told.1.delivered == 2 && told.1.overflowed == 0);
    assert!(rt; told.1.came == 1 && told.1.net == B && told.1.latest == 2000);
    assert!(rt; counts(&mut b, 0, 1) == told);
    assert!(rt; counts(&mut a, 0, 2).0 == NO_PLACE && counts(&mut a, 2, 0).0 == NO_PLACE);
    a.close();
    assert!(rt; counts(&mut a, 0, 1).0 == NOT_OPEN);
}

// rule: EMB-47
#[test]
fn each_pass_tells_what_became_of_the_messages_for_a_port(rt: HostRuntime) {
    check_port_counts(&rt, rt.alloc());
}

/// Each network's pass is handed out once.
fn check_passes(rt: &impl Abort, alloc: Global) {
    let Running {
        mut system,
        mut a,
        ..
    } = opened(rt, alloc);
    let mut other = PassSlot::new();
    assert!(rt; hand_pass(&mut system, A, &mut a) == ALREADY_OPEN);
    assert!(rt; hand_pass(&mut system, 2, &mut other) == NO_NETWORK);
    assert!(rt; hand_pass(&mut system, A, &mut other) == NONE_LEFT);
    a.close();
    assert!(rt; hand_pass(&mut system, A, &mut a) == NONE_LEFT);
    let mut reply = FILTERED;
    assert!(rt; a.receive(0, &[0; 60], &mut reply) == NOT_OPEN && reply == FILTERED);
    assert!(rt; count(&a, 0, 10) == (NOT_OPEN, 99) && filtered(&a, 1) == (NOT_OPEN, 99));
}

/// A pass goes on after its system was closed, and after the other pass was.
fn check_pass_outlives_system(rt: &impl Abort, alloc: Global) {
    let Running {
        mut system,
        mut a,
        mut b,
    } = opened(rt, alloc);
    system.close();
    assert!(rt; hand_pass(&mut system, A, &mut a) == NOT_OPEN);
    check_verdicts(rt, alloc, &mut a, &mut b);
    a.close();
    assert!(rt; reply(rt, &mut b, 4000, &frame(rt, alloc, false, 3)).number == 2);
}

// rule: EMB-25, EMB-28
#[test]
fn a_pass_is_handed_out_once_and_outlives_its_system(rt: HostRuntime) {
    check_passes(&rt, rt.alloc());
    check_pass_outlives_system(&rt, rt.alloc());
}

fn check_opened_twice(rt: &impl Abort, alloc: Global) {
    let text = text(rt, alloc);
    let octets = text.as_str().as_bytes();
    let mut system = SystemSlot::new();
    let mut fault = NO_FAULT;
    assert!(rt; system.open_text(alloc, octets, 9, &mut fault) == OUT_OF_RANGE);
    assert!(rt; system.open_text(alloc, octets, 8, &mut fault) == DONE && fault == NO_FAULT);
    assert!(rt; system.open_text(alloc, octets, 8, &mut fault) == ALREADY_OPEN);
    system.close();
    assert!(rt; system.open_text(alloc, b"link", 8, &mut fault) == FAULTY && fault.fault == 1);
    fault = NO_FAULT;
    assert!(rt; system.open_table(alloc, &[3, 0, 0, 0], &[], &[], 8, &mut fault) == FAULTY);
    assert!(rt; fault.fault == 2 && fault.key == 2 && fault.line == 0);
}

/// Links and ports are told as those of a receiver.
fn check_facts(rt: &impl Abort, alloc: Global) {
    let Running { mut system, .. } = opened(rt, alloc);
    let (mut links, mut link) = (0, NO_LINK);
    let mut place = PlaceReply { link: 9, port: 9 };
    let (mut port, mut name) = (NO_PORT, [b' '; 16]);
    assert!(rt; system.links(&mut links) == DONE && links == 2);
    assert!(rt; system.link(1, &mut link) == DONE && link.vl == 18 && link.ports == 1);
    assert!(rt; system.link(2, &mut link) == NO_PLACE && link.vl == 18);
    assert!(rt; system.port(0, 2, &mut port, &mut name) == NO_PLACE && port == NO_PORT);
    assert!(rt; system.port(0, 1, &mut port, &mut name) == DONE && port.service == 2);
    assert!(rt; name == *b"nav             " && port.name_len == 3);
    assert!(rt; system.place(b"nav", &mut place) == DONE && place.link == 0 && place.port == 1);
    assert!(rt; system.place(b"none", &mut place) == NO_NAME && place.port == 1);
    system.close();
    assert!(rt;
        system.links(&mut links) == NOT_OPEN && system.place(b"nav", &mut place) == NOT_OPEN
    );
}

// rule: EMB-25
#[test]
fn a_system_is_opened_once_and_told_by_its_places(rt: HostRuntime) {
    check_opened_twice(&rt, rt.alloc());
    check_facts(&rt, rt.alloc());
}
