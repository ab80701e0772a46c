//! Which datagram the fragments of some frames make, and the verdict of each frame.
use crate::packets::{check_packet_rows, check_packets_of};
use es_base::Net::{A, B};
use es_base::Verdict::{BadUdp, FragmentHeld, Redundant};
use test_inputs::fragments::PacketName::{
    EndAt16, EndAt40, First, FirstOf21, Last, LastFrom24, LastTo19, LastTo20, LongerLast,
};
use test_inputs::rows::{
    FOR_NAV, PacketRow, first_twice, in_order, joined_for_a_sampling_port, last_first,
};
use test_inputs::{LINK, Link};

/// Copies of both fragments on the other network are redundant, and joined with nothing that comes later.
fn on_both_networks() -> [PacketRow; 5] {
    [
        (A, 1000, 1, First, FragmentHeld),
        (B, 1050, 1, First, Redundant),
        (B, 1100, 2, Last, FOR_NAV),
        (A, 1150, 2, Last, Redundant),
        (B, 1200, 3, First, FragmentHeld),
    ]
}

/// A last fragment that ends earlier follows one that ends later.
fn end_moves_down() -> [PacketRow; 3] {
    [
        (A, 1000, 1, LongerLast, FragmentHeld),
        (A, 1100, 2, Last, FragmentHeld),
        (A, 1200, 3, First, FOR_NAV),
    ]
}

fn end_moves_up() -> [PacketRow; 3] {
    [
        (A, 1000, 1, Last, FragmentHeld),
        (A, 1100, 2, LongerLast, FragmentHeld),
        (A, 1200, 3, First, FOR_NAV),
    ]
}

/// The end moves down and up again, by a last fragment of no octets at offset 40.
fn end_moves_to_and_fro() -> [PacketRow; 4] {
    [
        (A, 1000, 1, LongerLast, FragmentHeld),
        (A, 1100, 2, Last, FragmentHeld),
        (A, 1200, 3, EndAt40, FragmentHeld),
        (A, 1300, 4, First, FOR_NAV),
    ]
}

/// A last fragment of 5 octets.
fn end_within_a_block() -> [PacketRow; 2] {
    [
        (A, 1000, 1, FirstOf21, FragmentHeld),
        (A, 1100, 2, LastTo20, FOR_NAV),
    ]
}

/// Octets 16 to 19 and 24 to 31, each as a last fragment: 20 to 23 never come.
fn gap_within_a_block() -> [PacketRow; 3] {
    [
        (A, 1000, 1, LastTo19, FragmentHeld),
        (A, 1100, 2, LastFrom24, FragmentHeld),
        (A, 1200, 3, First, FragmentHeld),
    ]
}

/// The last fragment comes once more.
fn last_once_more() -> [PacketRow; 3] {
    [
        (A, 1000, 1, First, FragmentHeld),
        (A, 1100, 2, Last, FOR_NAV),
        (A, 1200, 3, Last, FragmentHeld),
    ]
}

/// A last fragment without octets ends the datagram at octet 16; its UDP header says 32.
fn shorter_than_its_header() -> [PacketRow; 2] {
    [
        (A, 1000, 1, First, FragmentHeld),
        (A, 1100, 2, EndAt16, BadUdp),
    ]
}

// rule: REAS-10
#[test]
fn fragments_are_joined_in_any_order(rt: HostRuntime) {
    check_packet_rows(&rt, rt.alloc(), &in_order());
    check_packet_rows(&rt, rt.alloc(), &last_first());
}

// rule: REAS-1
#[test]
fn fragments_of_both_networks_are_joined_once(rt: HostRuntime) {
    check_packet_rows(&rt, rt.alloc(), &on_both_networks());
}

// rule: REAS-8
#[test]
fn a_fragment_may_come_twice(rt: HostRuntime) {
    check_packet_rows(&rt, rt.alloc(), &first_twice());
}

// rule: REAS-7
#[test]
fn the_latest_last_fragment_sets_the_end(rt: HostRuntime) {
    check_packet_rows(&rt, rt.alloc(), &end_moves_down());
    check_packet_rows(&rt, rt.alloc(), &end_moves_up());
    check_packet_rows(&rt, rt.alloc(), &end_moves_to_and_fro());
}

// rule: REAS-7
#[test]
fn the_last_fragment_may_end_within_a_block(rt: HostRuntime) {
    check_packet_rows(&rt, rt.alloc(), &end_within_a_block());
}

// rule: REAS-9
#[test]
fn each_octet_has_to_come(rt: HostRuntime) {
    check_packet_rows(&rt, rt.alloc(), &gap_within_a_block());
}

// rule: REAS-9
#[test]
fn a_complete_datagram_ends_its_group(rt: HostRuntime) {
    check_packet_rows(&rt, rt.alloc(), &last_once_more());
}

// rule: PORT-2
#[test]
fn a_sampling_port_refuses_what_was_joined(rt: HostRuntime) {
    check_packet_rows(&rt, rt.alloc(), &joined_for_a_sampling_port());
}

/// The payload has 24 octets, and the largest of the port is 16: that it was joined decides.
// rule: PORT-2
#[test]
fn what_was_joined_is_refused_before_what_is_too_long(rt: HostRuntime) {
    let link = Link {
        pos_max: 16,
        ..LINK
    };
    check_packets_of(&rt, rt.alloc(), link, &joined_for_a_sampling_port());
}

// rule: UDP-4
#[test]
fn what_is_joined_needs_a_good_udp_header(rt: HostRuntime) {
    check_packet_rows(&rt, rt.alloc(), &shorter_than_its_header());
}
