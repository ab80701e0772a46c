//! What the headers of IPv4 and UDP decide about a frame.
use crate::frames::{check_rows, opened, receive};
use es_base::PacketFault::{Checksum, HeaderLength, Protocol, TotalLength, Version};
use es_base::Verdict::{BadHeader, BadUdp, NoPort, Sampled};
use es_base::{Net, Verdict};
use std::alloc::Global;
use std::process::Abort;
use std::sync::Wait;
use test_inputs::rows::{FOR_NAV, POS};
use test_inputs::{IP, LINK, PAYLOAD, UDP, frame_of, longest};

/// An IPv4 header, a UDP header, and the verdict of their frame.
type Row = (&'static str, &'static str, Verdict);

fn faults_of_the_ip_header() -> [Row; 6] {
    [
        (
            "5500002d000100000111cdcc0a010101e0e00011",
            UDP,
            BadHeader(Version),
        ),
        (
            "4600002d000100000111cdcc0a010101e0e00011",
            UDP,
            BadHeader(HeaderLength),
        ),
        (
            "45000013000100000111cdcc0a010101e0e00011",
            UDP,
            BadHeader(TotalLength),
        ),
        (
            "4500002e000100000111cdcc0a010101e0e00011",
            UDP,
            BadHeader(TotalLength),
        ),
        (
            "4500002d000100000111cdcd0a010101e0e00011",
            UDP,
            BadHeader(Checksum),
        ),
        (
            "4500002d000100000106cdd70a010101e0e00011",
            UDP,
            BadHeader(Protocol),
        ),
    ]
}

/// Of two faults the first decides.
fn two_faults_of_the_ip_header() -> [Row; 2] {
    [
        (
            "5600002d000100000111bccc0a010101e0e00011",
            UDP,
            BadHeader(Version),
        ),
        (
            "4500002d000100000106cdcc0a010101e0e00011",
            UDP,
            BadHeader(Checksum),
        ),
    ]
}

/// Don't-fragment and the reserved flag aren't looked at.
fn flags_of_the_ip_header() -> [Row; 2] {
    [
        (
            "4500002d0001400001118dcc0a010101e0e00011",
            UDP,
            Sampled(POS, 1),
        ),
        (
            "4500002d0001800001114dcc0a010101e0e00011",
            UDP,
            Sampled(POS, 1),
        ),
    ]
}

/// Type of service, time to live, the source address and the UDP checksum aren't looked at.
fn what_is_not_looked_at() -> [Row; 4] {
    [
        (
            "45b8002d000100000111cd140a010101e0e00011",
            UDP,
            Sampled(POS, 1),
        ),
        (
            "4500002d0001000040118ecc0a010101e0e00011",
            UDP,
            Sampled(POS, 1),
        ),
        (
            "4500002d000100000111caca0c030201e0e00011",
            UDP,
            Sampled(POS, 1),
        ),
        (IP, "1389138800191234", Sampled(POS, 1)),
    ]
}

/// A UDP header may say 8 octets and as many as came, 25, but not 7 and not 26.
fn lengths_of_udp_datagrams() -> [Row; 3] {
    [
        (IP, "1389138800080000", Sampled(POS, 1)),
        (IP, "1389138800070000", BadUdp),
        (IP, "13891388001a0000", BadUdp),
    ]
}

/// UDP port 5001, and other destination addresses.
fn other_destinations() -> [Row; 3] {
    [
        (IP, "1389138900190000", NoPort),
        ("4500002d000100000111cdcb0a010101e0e00012", UDP, NoPort),
        ("4500002d000100000111f7dbe0e00011e0e00012", UDP, NoPort),
    ]
}

/// First frames of the built-in configuration's link, with the payload of the smallest frame.
fn check_first(rt: &(impl Abort + Wait), alloc: Global, rows: &[Row]) {
    for (ip, udp, verdict) in rows {
        let frame = (Net::A, 1000, 0, *ip, *udp, PAYLOAD, *verdict);
        check_rows(rt, alloc, LINK, &[frame]);
    }
}

// rule: IP-1, IP-2, IP-3, IP-4, IP-5, IP-6
#[test]
fn ip_headers_are_refused_by_their_first_fault(rt: HostRuntime) {
    check_first(&rt, rt.alloc(), &faults_of_the_ip_header());
    check_first(&rt, rt.alloc(), &two_faults_of_the_ip_header());
}

/// A new receiver finds the header of this beginning of a frame to say more octets than came.
fn check_cut(rt: &(impl Abort + Wait), alloc: Global, frame: &[u8], len: usize) {
    let octets = frame.get(..len).expect(rt, "a beginning");
    let (mut state, _) = opened(rt, alloc, LINK);
    let verdict = receive(rt, alloc, &mut state, Net::A, 1000, octets);
    assert!(rt; verdict == BadHeader(TotalLength), "{len}: {verdict:?}");
}

// rule: IP-4
#[test]
fn a_frame_that_was_cut_has_a_bad_header(rt: HostRuntime) {
    let frame = longest(rt.alloc(), 0).expect(&rt, "a frame");
    for len in 60..1514 {
        check_cut(&rt, rt.alloc(), &frame, len);
    }
}

// rule: IP-7
#[test]
fn other_flags_are_ignored(rt: HostRuntime) {
    check_first(&rt, rt.alloc(), &flags_of_the_ip_header());
}

// rule: IP-7, UDP-3
#[test]
fn other_parts_are_ignored(rt: HostRuntime) {
    check_first(&rt, rt.alloc(), &what_is_not_looked_at());
}

/// A frame with this Ethernet header comes to its port.
fn check_from(rt: &(impl Abort + Wait), alloc: Global, ethernet: &str) {
    let octets = frame_of(alloc, &[ethernet, IP, UDP, PAYLOAD], 0).expect(rt, "a frame");
    let (mut state, _) = opened(rt, alloc, LINK);
    let verdict = receive(rt, alloc, &mut state, Net::A, 1000, &octets);
    assert!(rt; verdict == Sampled(POS, 1), "{verdict:?}");
}

// rule: FRAME-8
#[test]
fn the_source_address_is_ignored(rt: HostRuntime) {
    check_from(&rt, rt.alloc(), "0300000000110a1b2c3d4e5f0800");
}

// rule: UDP-1
#[test]
fn the_length_of_a_udp_datagram_has_bounds(rt: HostRuntime) {
    check_first(&rt, rt.alloc(), &lengths_of_udp_datagrams());
}

// rule: FRAME-7, UDP-1
#[test]
fn seven_octets_are_no_udp_datagram(rt: HostRuntime) {
    let ip = "4500001b000100000111cdde0a010101e0e00011";
    let zeros = "000000000000000000000000000000000000";
    let frame = (Net::A, 1000, 0, ip, "13891388000800", zeros, BadUdp);
    check_rows(&rt, rt.alloc(), LINK, &[frame]);
}

// rule: PORT-1
#[test]
fn other_destinations_have_no_port(rt: HostRuntime) {
    check_first(&rt, rt.alloc(), &other_destinations());
}

// rule: PORT-9
#[test]
fn datagrams_for_a_queuing_port(rt: HostRuntime) {
    check_first(&rt, rt.alloc(), &[(IP, "1389138a00190000", FOR_NAV)]);
}
