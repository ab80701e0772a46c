//! Fragments that are no piece of a datagram.
use crate::steps::Fate::{Bad, Completed, Held};
use crate::steps::{Step, check};
use test_inputs::fragments::PacketName::{
    EmptyFirst, First, FirstTo11, Last, LastFrom32784, LastTo8199, LastTo8200, NextFrom65528,
    NextTo20,
};

fn bad_between() -> [Step; 3] {
    [
        (First, 1000, Held),
        (LastFrom32784, 1100, Bad),
        (Last, 1200, Completed),
    ]
}

fn uneven_between() -> [Step; 3] {
    [
        (First, 1000, Held),
        (NextTo20, 1100, Bad),
        (Last, 1200, Completed),
    ]
}

/// The bad one comes after the limit of time, and the last piece with an earlier time.
fn uneven_after_the_limit() -> [Step; 3] {
    [
        (First, 1000, Held),
        (NextTo20, 51_001, Bad),
        (Last, 51_000, Completed),
    ]
}

// rule: REAS-3
#[test]
fn a_length_between_blocks_is_bad(rt: HostRuntime) {
    check(&rt, rt.alloc(), &[(FirstTo11, 1000, Bad)]);
    check(&rt, rt.alloc(), &[(EmptyFirst, 1000, Bad)]);
}

// rule: REAS-12
#[test]
fn an_end_past_the_longest_datagram_is_bad(rt: HostRuntime) {
    check(&rt, rt.alloc(), &[(LastTo8199, 1000, Held)]);
    check(&rt, rt.alloc(), &[(LastTo8200, 1000, Bad)]);
    check(&rt, rt.alloc(), &[(NextFrom65528, 1000, Bad)]);
}

// rule: REAS-13
#[test]
fn a_bad_fragment_changes_nothing(rt: HostRuntime) {
    check(&rt, rt.alloc(), &bad_between());
    check(&rt, rt.alloc(), &uneven_between());
    check(&rt, rt.alloc(), &uneven_after_the_limit());
}
