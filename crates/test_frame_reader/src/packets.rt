//! IPv4 packets and UDP datagrams as they are read, and their faults.
use crate::fields::check_field;
use crate::frames::{frame_from, octets_of, smallest_octets};
use es_base::UdpFault;
use frame_reader::{Packet, read_packet, read_udp, read_udp_head};
use std::alloc::Global;
use std::process::Abort;
use test_inputs::ETHERNET;

/// The packet of the frame of these octets.
fn packet_from<'a>(rt: &impl Abort, octets: &'a [u8]) -> Packet<'a> {
    read_packet(&frame_from(rt, octets)).expect(rt, "a packet")
}

/// The packet is a fragment with this identification and offset, and this many octets.
fn check_place(rt: &impl Abort, packet: &Packet<'_>, ident: u64, offset: u32, octets: u64) {
    check_field(rt, "identification", u64::from(packet.ident), ident);
    check_field(rt, "offset", u64::from(packet.offset), u64::from(offset));
    check_field(rt, "octets", packet.octets.len() as u64, octets);
}

fn check_smallest_packet(rt: &impl Abort, packet: &Packet<'_>) {
    check_field(rt, "source", u64::from(packet.source), 0x0a01_0101);
    check_field(
        rt,
        "destination",
        u64::from(packet.destination),
        0xe0e0_0011,
    );
    check_place(rt, packet, 1, 0, 25);
    assert!(rt; !packet.more);
}

fn check_smallest_datagram(rt: &impl Abort, packet: &Packet<'_>) {
    let datagram = read_udp(packet.octets).expect(rt, "a UDP datagram");
    check_field(rt, "source port", u64::from(datagram.source_port), 5001);
    check_field(
        rt,
        "destination port",
        u64::from(datagram.destination_port),
        5000,
    );
    check_field(rt, "octets", datagram.payload.len() as u64, 17);
    assert!(rt; datagram.payload.starts_with(&[1, 2]));
}

// rule: UDP-2, WIRE-1, WIRE-3, WIRE-4
#[test]
fn the_smallest_packet_is_read_field_by_field(rt: HostRuntime) {
    let octets = smallest_octets(&rt, rt.alloc(), 7);
    let packet = packet_from(&rt, &octets);
    check_smallest_packet(&rt, &packet);
    check_smallest_datagram(&rt, &packet);
}

/// The first 8 octets, with zeros if there are fewer.
fn head_of(octets: &[u8]) -> [u8; 8] {
    let mut head = [0; 8];
    for i in 0..octets.len().min(8) {
        head[i] = octets[i];
    }
    head
}

fn check_smallest_head(rt: &impl Abort, octets: &[u8]) {
    let head = read_udp_head(&head_of(octets), octets.len()).expect(rt, "a UDP header");
    check_field(rt, "source port", u64::from(head.source_port), 5001);
    check_field(
        rt,
        "destination port",
        u64::from(head.destination_port),
        5000,
    );
    check_field(rt, "octets", head.payload_octets as u64, 17);
}

// rule: UDP-1, WIRE-4
#[test]
fn a_udp_header_is_read_in_the_first_octets(rt: HostRuntime) {
    let octets = smallest_octets(&rt, rt.alloc(), 7);
    check_smallest_head(&rt, packet_from(&rt, &octets).octets);
}

/// The IPv4 header of a fragment, and its offset in octets.
type Fragment = (&'static str, u32);

/// Identification 2 and more fragments: at offset 8, and at the greatest offset.
fn fragments() -> [Fragment; 2] {
    [
        ("45000020000220010111add70a010101e0e00011", 8),
        ("4500002000023fff01118dd90a010101e0e00011", 65_528),
    ]
}

fn check_fragment(rt: &impl Abort, alloc: Global, (ip, offset): Fragment) {
    let octets = octets_of(rt, alloc, ETHERNET, ip);
    let packet = packet_from(rt, &octets);
    check_place(rt, &packet, 2, offset, 12);
    assert!(rt; packet.more);
}

// rule: FRAME-7, WIRE-3
#[test]
fn fragments_are_read(rt: HostRuntime) {
    for row in fragments() {
        check_fragment(&rt, rt.alloc(), row);
    }
}

fn check_udp(rt: &impl Abort, octets: &[u8], fault: Option<UdpFault>) {
    assert!(rt; read_udp(octets).err() == fault, "{octets:?}");
    let answer = read_udp_head(&head_of(octets), octets.len());
    assert!(rt; answer.err() == fault, "{octets:?}");
}

// rule: UDP-1
#[test]
fn udp_datagrams_are_refused_by_their_first_fault(rt: HostRuntime) {
    check_udp(&rt, &[0; 7], Some(UdpFault::Short));
    // The length field says 7, 8 and 9 octets of the 8.
    check_udp(&rt, &[0, 0, 0, 0, 0, 7, 0, 0], Some(UdpFault::Length));
    check_udp(&rt, &[0, 0, 0, 0, 0, 8, 0, 0], None);
    check_udp(&rt, &[0, 0, 0, 0, 0, 9, 0, 0], Some(UdpFault::Length));
}

/// The datagram has this payload.
fn check_payload(rt: &impl Abort, octets: &[u8], payload: &[u8]) {
    let datagram = read_udp(octets).expect(rt, "a UDP datagram");
    assert!(rt; datagram.payload == payload, "{octets:?}");
    let head = read_udp_head(&head_of(octets), octets.len()).expect(rt, "a UDP header");
    check_field(
        rt,
        "octets",
        head.payload_octets as u64,
        payload.len() as u64,
    );
}

/// The length field says 10, 8 and all of the 11 octets.
// rule: UDP-2
#[test]
fn a_smaller_length_cuts_the_payload(rt: HostRuntime) {
    check_payload(&rt, &[0, 1, 0, 2, 0, 10, 0, 0, 7, 8, 9], &[7, 8]);
    check_payload(&rt, &[0, 1, 0, 2, 0, 8, 0, 0, 7, 8, 9], &[]);
    check_payload(&rt, &[0, 1, 0, 2, 0, 11, 0, 0, 7, 8, 9], &[7, 8, 9]);
}
