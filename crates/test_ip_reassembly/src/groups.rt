//! Which pieces belong together, and which are given up.
use crate::steps::Fate::{Alone, Bad, Completed, Held};
use crate::steps::{Step, check, check_given_up};
use test_inputs::fragments::PacketName::{
    First, First3, First4, First5, First6, FirstTo11, Last, LastFromAnother, LastToAnother, Whole,
};

fn five_begin() -> [Step; 6] {
    [
        (First, 1000, Held),
        (First3, 1100, Held),
        (First4, 1200, Held),
        (First5, 1300, Held),
        (First6, 1400, Held),
        (Last, 1500, Held),
    ]
}

fn four_begin() -> [Step; 5] {
    [
        (First, 1000, Held),
        (First3, 1100, Held),
        (First4, 1200, Held),
        (First5, 1300, Held),
        (Last, 1500, Completed),
    ]
}

/// The one that began first was touched last.
fn first_touched_last() -> [Step; 7] {
    [
        (First, 1000, Held),
        (First3, 1100, Held),
        (First4, 1200, Held),
        (First5, 1300, Held),
        (First, 1400, Held),
        (First6, 1500, Held),
        (Last, 1600, Held),
    ]
}

fn at_the_limit() -> [Step; 2] {
    [(First, 1000, Held), (Last, 51_000, Completed)]
}

/// The last fragment begins a group anew, which the first completes.
fn after_the_limit() -> [Step; 3] {
    [
        (First, 1000, Held),
        (Last, 51_001, Held),
        (First, 51_002, Completed),
    ]
}

fn touched_between() -> [Step; 3] {
    [
        (First, 1000, Held),
        (First, 41_000, Held),
        (Last, 51_001, Held),
    ]
}

/// The last fragment comes with a time that is earlier than that of the first one, by more than the limit:
/// the age is 0.
fn earlier_by_more_than_the_limit() -> [Step; 2] {
    [(First, 100_000, Held), (Last, 49_999, Completed)]
}

/// A fragment of another key after the limit; the last piece comes with an earlier time.
fn another_key_between() -> [Step; 3] {
    [
        (First, 1000, Held),
        (First3, 60_000, Held),
        (Last, 51_000, Completed),
    ]
}

fn another_source() -> [Step; 2] {
    [(First, 1000, Held), (LastFromAnother, 1100, Held)]
}

fn another_destination() -> [Step; 2] {
    [(First, 1000, Held), (LastToAnother, 1100, Held)]
}

/// A datagram that is whole comes between, with the identification of both.
fn whole_between() -> [Step; 3] {
    let alone = "1389138a001900000102030405060708090a0b0c0d0e0f1011";
    [
        (First, 1000, Held),
        (Whole, 1100, Alone(alone)),
        (Last, 1200, Held),
    ]
}

// rule: REAS-4, REAS-6
#[test]
fn the_one_that_began_first_is_given_up_for_a_fifth(rt: HostRuntime) {
    check(&rt, rt.alloc(), &five_begin());
    check(&rt, rt.alloc(), &four_begin());
    check(&rt, rt.alloc(), &first_touched_last());
}

// rule: REAS-5
#[test]
fn the_age_is_that_of_the_first_piece(rt: HostRuntime) {
    check(&rt, rt.alloc(), &at_the_limit());
    check(&rt, rt.alloc(), &after_the_limit());
    check(&rt, rt.alloc(), &touched_between());
    check(&rt, rt.alloc(), &earlier_by_more_than_the_limit());
}

// rule: REAS-14
#[test]
fn no_other_key_is_given_up_for_its_age(rt: HostRuntime) {
    check(&rt, rt.alloc(), &another_key_between());
}

// rule: REAS-4
#[test]
fn a_key_has_both_addresses(rt: HostRuntime) {
    check(&rt, rt.alloc(), &another_source());
    check(&rt, rt.alloc(), &another_destination());
}

// rule: REAS-2, REAS-11
#[test]
fn a_whole_datagram_gives_up_the_group_of_its_key(rt: HostRuntime) {
    check(&rt, rt.alloc(), &whole_between());
}

/// Each of the three ways, one after another: 3 are given up.
fn given_up_in_each_way() -> [Step; 10] {
    let alone = "1389138a001900000102030405060708090a0b0c0d0e0f1011";
    [
        (First3, 1000, Held),
        (First, 1100, Held),
        // its time is over
        (Last, 51_101, Held),
        (First4, 51_200, Held),
        (First5, 51_300, Held),
        // a fifth: that of `First3` began first
        (First6, 51_400, Held),
        (FirstTo11, 51_500, Bad),
        // whole, with the key of `Last`
        (Whole, 51_600, Alone(alone)),
        (First, 51_700, Held),
        (Last, 51_800, Completed),
    ]
}

/// The time of the first of four is over as its next piece comes: that makes room, too.
fn over_where_four_stand() -> [Step; 5] {
    [
        (First, 1000, Held),
        (First3, 1100, Held),
        (First4, 1200, Held),
        (First5, 1300, Held),
        (Last, 51_001, Held),
    ]
}

// rule: REAS-15
#[test]
fn partial_datagrams_that_are_given_up_are_counted(rt: HostRuntime) {
    check_given_up(&rt, rt.alloc(), &five_begin(), 2);
    check_given_up(&rt, rt.alloc(), &after_the_limit(), 1);
    check_given_up(&rt, rt.alloc(), &whole_between(), 1);
    check_given_up(&rt, rt.alloc(), &given_up_in_each_way(), 3);
    check_given_up(&rt, rt.alloc(), &over_where_four_stand(), 1);
}

// rule: REAS-15
#[test]
fn one_that_is_completed_or_waits_is_not_counted_as_given_up(rt: HostRuntime) {
    check_given_up(&rt, rt.alloc(), &four_begin(), 0);
    check_given_up(&rt, rt.alloc(), &at_the_limit(), 0);
    check_given_up(&rt, rt.alloc(), &another_key_between(), 0);
}
