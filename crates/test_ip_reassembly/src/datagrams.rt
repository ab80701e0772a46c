//! Which datagram some pieces make.
use crate::steps::Fate::{Alone, Completed, Held, Joined};
use crate::steps::{Step, check, check_copied};
use test_inputs::fragments::PacketName::{
    EndAt16, EndAt40, First, First3, First4, First5, First6, FirstAnew, FirstForPos, FirstOf21,
    Last, LastFrom24, LastTo19, LastTo20, LongerLast, NoOctets, SevenOctets,
};

fn in_order() -> [Step; 2] {
    [(First, 1000, Held), (Last, 1100, Completed)]
}

fn last_first() -> [Step; 2] {
    [(Last, 1000, Held), (First, 1100, Completed)]
}

/// The head of a joined datagram says its port.
fn for_a_sampling_port() -> [Step; 2] {
    let joined = "1389138800200000a0a1a2a3a4a5a6a7b0b1b2b3b4b5b6b7b8b9babbbcbdbebf";
    [(FirstForPos, 1000, Held), (Last, 1100, Joined(joined))]
}

/// The first fragment comes twice, with other octets the second time.
fn first_twice() -> [Step; 3] {
    let joined = "1389138a00200000c0c1c2c3c4c5c6c7b0b1b2b3b4b5b6b7b8b9babbbcbdbebf";
    [
        (First, 1000, Held),
        (FirstAnew, 1100, Held),
        (Last, 1200, Joined(joined)),
    ]
}

/// A last fragment that ends earlier follows one that ends later.
fn end_moves_down() -> [Step; 3] {
    [
        (LongerLast, 1000, Held),
        (Last, 1100, Held),
        (First, 1200, Completed),
    ]
}

fn end_moves_up() -> [Step; 3] {
    let joined = "1389138a00200000a0a1a2a3a4a5a6a7d0d1d2d3d4d5d6d7d8d9dadbdcdddedfe0e1e2e3e4e5e6e7";
    [
        (Last, 1000, Held),
        (LongerLast, 1100, Held),
        (First, 1200, Joined(joined)),
    ]
}

/// The end moves down and up again, by a last fragment of no octets at offset 40.
fn end_moves_to_and_fro() -> [Step; 4] {
    let joined = "1389138a00200000a0a1a2a3a4a5a6a7b0b1b2b3b4b5b6b7b8b9babbbcbdbebfe0e1e2e3e4e5e6e7";
    [
        (LongerLast, 1000, Held),
        (Last, 1100, Held),
        (EndAt40, 1200, Held),
        (First, 1300, Joined(joined)),
    ]
}

/// A last fragment of no octets at offset 16: the datagram is what came before it.
fn empty_end() -> [Step; 2] {
    let joined = "1389138a00200000a0a1a2a3a4a5a6a7";
    [(First, 1000, Held), (EndAt16, 1100, Joined(joined))]
}

/// A last fragment of 5 octets.
fn end_within_a_block() -> [Step; 2] {
    let joined = "1389138a00150000a0a1a2a3a4a5a6a7b0b1b2b3b4";
    [(FirstOf21, 1000, Held), (LastTo20, 1100, Joined(joined))]
}

/// Octets 16 to 19 and 24 to 31, each as a last fragment: 20 to 23 never come.
fn gap_within_a_block() -> [Step; 3] {
    [
        (LastTo19, 1000, Held),
        (LastFrom24, 1100, Held),
        (First, 1200, Held),
    ]
}

/// The last fragment comes once more.
fn last_once_more() -> [Step; 3] {
    [
        (First, 1000, Held),
        (Last, 1100, Completed),
        (Last, 1200, Held),
    ]
}

/// A datagram of 7 octets in one packet, and one of none.
fn short_datagrams() -> [Step; 2] {
    [
        (SevenOctets, 1000, Alone("13891388000800")),
        (NoOctets, 1100, Alone("")),
    ]
}

// rule: REAS-9
#[test]
fn pieces_are_joined_in_either_order(rt: HostRuntime) {
    check(&rt, rt.alloc(), &in_order());
    check(&rt, rt.alloc(), &last_first());
    check(&rt, rt.alloc(), &for_a_sampling_port());
}

// rule: REAS-8
#[test]
fn octets_of_a_later_piece_replace_those_of_an_earlier_one(rt: HostRuntime) {
    check(&rt, rt.alloc(), &first_twice());
}

// rule: REAS-7
#[test]
fn the_latest_last_fragment_sets_the_end(rt: HostRuntime) {
    check(&rt, rt.alloc(), &end_moves_down());
    check(&rt, rt.alloc(), &end_moves_up());
    check(&rt, rt.alloc(), &end_moves_to_and_fro());
}

// rule: REAS-7
#[test]
fn the_last_fragment_may_have_any_length(rt: HostRuntime) {
    check(&rt, rt.alloc(), &empty_end());
    check(&rt, rt.alloc(), &end_within_a_block());
}

// rule: REAS-9
#[test]
fn each_octet_has_to_come(rt: HostRuntime) {
    check(&rt, rt.alloc(), &gap_within_a_block());
}

// rule: REAS-9
#[test]
fn a_complete_datagram_ends_its_group(rt: HostRuntime) {
    check(&rt, rt.alloc(), &last_once_more());
}

// rule: HIST-4
#[test]
fn a_copy_and_the_first_each_complete_a_datagram(rt: HostRuntime) {
    check_copied(
        &rt,
        rt.alloc(),
        &[(First, 1000, Held)],
        &[(Last, 1100, Completed)],
    );
}

/// Four partial datagrams stand, the first of which ends with `Last`.
fn four_that_stand() -> [Step; 4] {
    [
        (First, 1000, Held),
        (First3, 1010, Held),
        (First4, 1020, Held),
        (First5, 1030, Held),
    ]
}

/// With a fifth the first is given up, so that `Last` begins its datagram anew.
fn after_four() -> [Step; 3] {
    [
        (First6, 1100, Held),
        (Last, 1200, Held),
        (First, 1300, Completed),
    ]
}

// rule: HIST-4
#[test]
fn a_copy_and_the_pieces_that_wait_stand_in_their_order(rt: HostRuntime) {
    check_copied(&rt, rt.alloc(), &four_that_stand(), &after_four());
}

// rule: HIST-4
#[test]
fn what_goes_on_from_nothing_is_as_new(rt: HostRuntime) {
    let completed = [(First, 1000, Held), (Last, 1100, Completed)];
    check_copied(&rt, rt.alloc(), &[], &completed);
}

// rule: REAS-2
#[test]
fn the_head_of_a_short_datagram_has_zeros(rt: HostRuntime) {
    check(&rt, rt.alloc(), &short_datagrams());
}
