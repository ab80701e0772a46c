//! Which fragments of some frames belong together, which are given up, and the verdict of each frame.
use crate::packets::check_packet_rows;
use es_base::Net::A;
use es_base::Verdict::FragmentHeld;
use test_inputs::fragments::PacketName::{
    First, First3, First4, First5, First6, Last, LastFromAnother, LastToAnother, Whole,
};
use test_inputs::rows::{FOR_NAV, PacketRow, five_begin};

fn four_begin() -> [PacketRow; 5] {
    [
        (A, 1000, 1, First, FragmentHeld),
        (A, 1100, 2, First3, FragmentHeld),
        (A, 1200, 3, First4, FragmentHeld),
        (A, 1300, 4, First5, FragmentHeld),
        (A, 1500, 5, Last, FOR_NAV),
    ]
}

/// The one that began first was touched last.
fn first_touched_last() -> [PacketRow; 7] {
    [
        (A, 1000, 1, First, FragmentHeld),
        (A, 1100, 2, First3, FragmentHeld),
        (A, 1200, 3, First4, FragmentHeld),
        (A, 1300, 4, First5, FragmentHeld),
        (A, 1400, 5, First, FragmentHeld),
        (A, 1500, 6, First6, FragmentHeld),
        (A, 1600, 7, Last, FragmentHeld),
    ]
}

/// The first piece is 50,000 microseconds old.
fn at_the_limit() -> [PacketRow; 2] {
    [
        (A, 1000, 1, First, FragmentHeld),
        (A, 51_000, 2, Last, FOR_NAV),
    ]
}

/// The last fragment begins a group anew, which the first completes.
fn after_the_limit() -> [PacketRow; 3] {
    [
        (A, 1000, 1, First, FragmentHeld),
        (A, 51_001, 2, Last, FragmentHeld),
        (A, 51_002, 3, First, FOR_NAV),
    ]
}

fn touched_between() -> [PacketRow; 3] {
    [
        (A, 1000, 1, First, FragmentHeld),
        (A, 41_000, 2, First, FragmentHeld),
        (A, 51_001, 3, Last, FragmentHeld),
    ]
}

/// A fragment of another key after the limit; the last piece comes with an earlier time.
fn another_key_between() -> [PacketRow; 3] {
    [
        (A, 1000, 1, First, FragmentHeld),
        (A, 60_000, 2, First3, FragmentHeld),
        (A, 51_000, 3, Last, FOR_NAV),
    ]
}

fn another_source() -> [PacketRow; 2] {
    [
        (A, 1000, 1, First, FragmentHeld),
        (A, 1100, 2, LastFromAnother, FragmentHeld),
    ]
}

fn another_destination() -> [PacketRow; 2] {
    [
        (A, 1000, 1, First, FragmentHeld),
        (A, 1100, 2, LastToAnother, FragmentHeld),
    ]
}

/// A datagram that is whole has the same identification.
fn whole_between() -> [PacketRow; 3] {
    [
        (A, 1000, 1, First, FragmentHeld),
        (A, 1100, 2, Whole, FOR_NAV),
        (A, 1200, 3, Last, FragmentHeld),
    ]
}

// rule: REAS-6
#[test]
fn the_one_that_began_first_is_given_up_for_a_fifth(rt: HostRuntime) {
    check_packet_rows(&rt, rt.alloc(), &five_begin());
    check_packet_rows(&rt, rt.alloc(), &four_begin());
    check_packet_rows(&rt, rt.alloc(), &first_touched_last());
}

// rule: REAS-5
#[test]
fn the_age_is_that_of_the_first_piece(rt: HostRuntime) {
    check_packet_rows(&rt, rt.alloc(), &at_the_limit());
    check_packet_rows(&rt, rt.alloc(), &after_the_limit());
    check_packet_rows(&rt, rt.alloc(), &touched_between());
}

// rule: REAS-14
#[test]
fn no_other_key_is_given_up_for_its_age(rt: HostRuntime) {
    check_packet_rows(&rt, rt.alloc(), &another_key_between());
}

// rule: REAS-4
#[test]
fn a_key_has_both_addresses(rt: HostRuntime) {
    check_packet_rows(&rt, rt.alloc(), &another_source());
    check_packet_rows(&rt, rt.alloc(), &another_destination());
}

// rule: REAS-11
#[test]
fn a_whole_datagram_gives_up_the_group_of_its_key(rt: HostRuntime) {
    check_packet_rows(&rt, rt.alloc(), &whole_between());
}
