//! Which sequence numbers pass on one network.
use crate::frames::{check_steps, check_steps_of};
use es_base::Net::A;
use es_base::Verdict::{OutOfSequence, Sampled};
use std::alloc::Global;
use std::process::Abort;
use std::sync::Wait;
use test_inputs::rows::{POS, SmallestRow, turn, window};
use test_inputs::{LINK, Link};

/// 1 follows 255, and neither 1 nor 4 follows 1.
fn repetition_and_leap() -> [SmallestRow; 5] {
    [
        (A, 0, 0xfe, Sampled(POS, 1)),
        (A, 10_000, 0xff, Sampled(POS, 2)),
        (A, 20_000, 0x01, Sampled(POS, 3)),
        (A, 30_000, 0x01, OutOfSequence),
        (A, 40_000, 0x04, OutOfSequence),
    ]
}

/// 0 always passes, and 1 and 2 follow it.
fn resets() -> [SmallestRow; 5] {
    [
        (A, 0, 0x09, Sampled(POS, 1)),
        (A, 10_000, 0x00, Sampled(POS, 2)),
        (A, 20_000, 0x00, Sampled(POS, 3)),
        (A, 30_000, 0x02, Sampled(POS, 4)),
        (A, 40_000, 0x01, OutOfSequence),
    ]
}

/// 2 comes after the next of 255, and 3 doesn't.
fn next_but_one_of_255() -> [SmallestRow; 5] {
    [
        (A, 0, 0xff, Sampled(POS, 1)),
        (A, 10_000, 0x02, Sampled(POS, 2)),
        (A, 20_000, 0xff, OutOfSequence),
        (A, 30_000, 0x03, OutOfSequence),
        (A, 40_000, 0xff, OutOfSequence),
    ]
}

/// 1 comes after the next of 254, and 255 after the next of 253.
fn next_but_one_of_254() -> [SmallestRow; 5] {
    [
        (A, 0, 0xfd, Sampled(POS, 1)),
        (A, 10_000, 0xff, Sampled(POS, 2)),
        (A, 20_000, 0xfe, OutOfSequence),
        (A, 30_000, 0x01, Sampled(POS, 3)),
        (A, 40_000, 0xff, OutOfSequence),
    ]
}

/// With a window of 1 none may be lost: 08 is out of sequence after 06, and 0b after 08.
fn window_of_1() -> [SmallestRow; 5] {
    [
        (A, 10_000, 0x05, Sampled(POS, 1)),
        (A, 20_000, 0x06, Sampled(POS, 2)),
        (A, 30_000, 0x08, OutOfSequence),
        (A, 40_000, 0x0b, OutOfSequence),
        (A, 50_000, 0x0c, Sampled(POS, 3)),
    ]
}

/// With a window of 3 two may be lost: 0b passes after 08.
fn window_of_3() -> [SmallestRow; 4] {
    [
        (A, 10_000, 0x05, Sampled(POS, 1)),
        (A, 20_000, 0x06, Sampled(POS, 2)),
        (A, 30_000, 0x08, Sampled(POS, 3)),
        (A, 40_000, 0x0b, Sampled(POS, 4)),
    ]
}

/// With a window of 4 the last that passes after 253 is 2: 254, 255, 1, 2.
fn last_in_a_window_of_4() -> [SmallestRow; 2] {
    [
        (A, 1000, 0xfd, Sampled(POS, 1)),
        (A, 20_000, 0x02, Sampled(POS, 2)),
    ]
}

/// 3 is one number further.
fn after_a_window_of_4() -> [SmallestRow; 2] {
    [
        (A, 1000, 0xfd, Sampled(POS, 1)),
        (A, 20_000, 0x03, OutOfSequence),
    ]
}

/// A new receiver of a link with this window gives smallest frames these verdicts.
fn check_window(rt: &(impl Abort + Wait), alloc: Global, window: u8, steps: &[SmallestRow]) {
    check_steps_of(rt, alloc, Link { window, ..LINK }, steps);
}

// rule: INT-2
#[test]
fn as_many_sequence_numbers_pass_as_the_window_says(rt: HostRuntime) {
    check_window(&rt, rt.alloc(), 1, &window_of_1());
    check_window(&rt, rt.alloc(), 3, &window_of_3());
    check_window(&rt, rt.alloc(), 4, &last_in_a_window_of_4());
    check_window(&rt, rt.alloc(), 4, &after_a_window_of_4());
}

// rule: INT-3, INT-4
#[test]
fn a_discarded_sequence_number_counts_as_the_one_before(rt: HostRuntime) {
    check_steps(&rt, rt.alloc(), &window());
}

// rule: INT-1
#[test]
fn sequence_number_1_follows_255(rt: HostRuntime) {
    check_steps(&rt, rt.alloc(), &turn());
    check_steps(&rt, rt.alloc(), &repetition_and_leap());
}

// rule: INT-2
#[test]
fn a_reset_always_passes(rt: HostRuntime) {
    check_steps(&rt, rt.alloc(), &resets());
}

// rule: INT-2
#[test]
fn the_next_sequence_number_but_one_passes(rt: HostRuntime) {
    check_steps(&rt, rt.alloc(), &next_but_one_of_255());
    check_steps(&rt, rt.alloc(), &next_but_one_of_254());
}
