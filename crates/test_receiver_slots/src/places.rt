//! Links and ports by their places, and ports by their names.
use crate::given::{NO_LINK, opened, opened_with};
use receiver_slots::codes::{DONE, NO_NAME, NO_PLACE, NOT_OPEN};
use receiver_slots::{LinkReply, PlaceReply, PortReply, ReceiverSlot};
use std::alloc::Global;
use std::process::Abort;

const NO_PORT: PortReply = PortReply {
    service: 0,
    address: 0,
    udp: 0,
    max: 0,
    limit: 0,
    name_len: 0,
};

/// The queuing port of the built-in configuration.
const NAV: PortReply = PortReply {
    service: 2,
    address: 0xe0e0_0011,
    udp: 5002,
    max: 8192,
    limit: 4,
    name_len: 3,
};

/// The link of the built-in configuration: what its table doesn't say is as FORMATS says.
const BUILT_IN_LINK: LinkReply = LinkReply {
    vl: 17,
    redundancy: 1,
    skew_max: 1000,
    reassembly: 50_000,
    window: 2,
    ports: 2,
};

/// Two links whose settings are the greatest, and others.
const OTHER_LINKS: &str = r#"[[link]]
vl = 65535
skew_max_us = 1000000
redundancy = false
reassembly_us = 10000000
window = 4

[[link]]
vl = 0
skew_max_us = 7
redundancy = true
reassembly_us = 0
window = 1
"#;

fn check_links(rt: &impl Abort, slot: &ReceiverSlot) {
    let (mut links, mut reply) = (0, NO_LINK);
    assert!(rt; slot.links(&mut links) == DONE && links == 2);
    assert!(rt; slot.link(0, &mut reply) == DONE && reply == BUILT_IN_LINK);
    assert!(rt; slot.link(1, &mut reply) == DONE && reply.vl == 18 && reply.ports == 1);
    assert!(rt; slot.link(2, &mut reply) == NO_PLACE && reply.vl == 18);
}

fn told_link(rt: &impl Abort, slot: &ReceiverSlot, link: usize) -> LinkReply {
    let mut reply = NO_LINK;
    assert!(rt; slot.link(link, &mut reply) == DONE);
    reply
}

/// Each setting of a link has its own value.
fn check_settings(rt: &impl Abort, alloc: Global) {
    let slot = opened_with(rt, alloc, OTHER_LINKS);
    let greatest = LinkReply {
        vl: 65_535,
        redundancy: 0,
        skew_max: 1_000_000,
        reassembly: 10_000_000,
        window: 4,
        ports: 0,
    };
    assert!(rt; told_link(rt, &slot, 0) == greatest);
    let other = LinkReply {
        vl: 0,
        redundancy: 1,
        skew_max: 7,
        reassembly: 0,
        window: 1,
        ports: 0,
    };
    assert!(rt; told_link(rt, &slot, 1) == other);
}

fn check_ports(rt: &impl Abort, slot: &ReceiverSlot) {
    let (mut reply, mut name) = (NO_PORT, [b'.'; 16]);
    assert!(rt; slot.port(0, 1, &mut reply, &mut name) == DONE && reply == NAV);
    assert!(rt; name == *b"nav.............");
    assert!(rt; slot.port(0, 0, &mut reply, &mut name) == DONE);
    assert!(rt; reply.service == 1 && reply.limit == 20_000 && reply.max == 1471);
    assert!(rt; slot.port(0, 2, &mut reply, &mut name) == NO_PLACE);
    assert!(rt; slot.port(2, 0, &mut reply, &mut name) == NO_PLACE);
    assert!(rt; name == *b"pos.............");
}

fn check_names(rt: &impl Abort, slot: &ReceiverSlot) {
    let mut reply = PlaceReply { link: 9, port: 9 };
    for name in [&b"po"[..], b"", b"pos2", &[255]] {
        assert!(rt; slot.place(name, &mut reply) == NO_NAME && reply.link == 9);
    }
    assert!(rt; slot.place(b"alt", &mut reply) == DONE && reply == PlaceReply { link: 1, port: 0 });
    assert!(rt; slot.place(b"nav", &mut reply) == DONE && reply == PlaceReply { link: 0, port: 1 });
}

fn check_closed(rt: &impl Abort, slot: &ReceiverSlot) {
    assert!(rt; slot.links(&mut 0) == NOT_OPEN);
    let (mut link, mut port) = (NO_LINK, NO_PORT);
    assert!(rt; slot.link(0, &mut link) == NOT_OPEN);
    assert!(rt; slot.port(0, 0, &mut port, &mut [0; 16]) == NOT_OPEN);
    assert!(rt; slot.place(b"pos", &mut PlaceReply { link: 9, port: 9 }) == NOT_OPEN);
}

fn check_places(rt: &impl Abort, alloc: Global) {
    let mut slot = opened(rt, alloc);
    check_links(rt, &slot);
    check_ports(rt, &slot);
    check_names(rt, &slot);
    slot.close();
    check_closed(rt, &slot);
}

// rule: EMB-17
#[test]
fn links_and_ports_are_told_by_their_places_and_names(rt: HostRuntime) {
    check_places(&rt, rt.alloc());
}

// rule: EMB-17
#[test]
fn all_settings_of_a_link_are_told(rt: HostRuntime) {
    check_settings(&rt, rt.alloc());
}
