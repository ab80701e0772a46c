//! Fragments that are no piece of a datagram, and the verdict of each frame.
use crate::packets::check_packet_rows;
use es_base::Net::A;
use es_base::Verdict::{BadFragment, FragmentHeld};
use test_inputs::fragments::PacketName::{
    EmptyFirst, First, FirstTo11, Last, LastFrom32784, LastTo8199, LastTo8200, NextFrom65528,
    NextTo20,
};
use test_inputs::rows::{FOR_NAV, PacketRow};

fn bad_between() -> [PacketRow; 3] {
    [
        (A, 1000, 1, First, FragmentHeld),
        (A, 1100, 2, LastFrom32784, BadFragment),
        (A, 1200, 3, Last, FOR_NAV),
    ]
}

fn uneven_between() -> [PacketRow; 3] {
    [
        (A, 1000, 1, First, FragmentHeld),
        (A, 1100, 2, NextTo20, BadFragment),
        (A, 1200, 3, Last, FOR_NAV),
    ]
}

/// The bad one comes after the limit of time, and the last piece with an earlier time.
fn uneven_after_the_limit() -> [PacketRow; 3] {
    [
        (A, 1000, 1, First, FragmentHeld),
        (A, 51_001, 2, NextTo20, BadFragment),
        (A, 51_000, 3, Last, FOR_NAV),
    ]
}

// rule: REAS-3, REAS-13
#[test]
fn a_length_between_blocks_is_bad(rt: HostRuntime) {
    check_packet_rows(&rt, rt.alloc(), &[(A, 1000, 1, FirstTo11, BadFragment)]);
    check_packet_rows(&rt, rt.alloc(), &[(A, 1000, 1, EmptyFirst, BadFragment)]);
}

// rule: REAS-12
#[test]
fn an_end_past_the_longest_datagram_is_bad(rt: HostRuntime) {
    check_packet_rows(&rt, rt.alloc(), &[(A, 1000, 1, LastTo8199, FragmentHeld)]);
    check_packet_rows(&rt, rt.alloc(), &[(A, 1000, 1, LastTo8200, BadFragment)]);
    check_packet_rows(&rt, rt.alloc(), &[(A, 1000, 1, NextFrom65528, BadFragment)]);
}

// rule: REAS-13
#[test]
fn a_bad_fragment_changes_nothing(rt: HostRuntime) {
    check_packet_rows(&rt, rt.alloc(), &bad_between());
    check_packet_rows(&rt, rt.alloc(), &uneven_between());
    check_packet_rows(&rt, rt.alloc(), &uneven_after_the_limit());
}
