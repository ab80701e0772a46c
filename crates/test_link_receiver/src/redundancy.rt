//! Which frames of both networks are forwarded.
use crate::frames::{check_rows, check_steps, check_steps_of};
use es_base::Net::{A, B};
use es_base::Verdict;
use es_base::Verdict::{OutOfSequence, Redundant, Sampled};
use test_inputs::rows::{
    POS, SmallestRow, bad_and_good, copy_after_skew_max, copy_at_skew_max, copy_before_its_first,
    reset_after_255, two_frames_late,
};
use test_inputs::{LINK, Link};

/// Each network has its own sequence numbers.
fn networks_apart() -> [SmallestRow; 4] {
    [
        (A, 1000, 7, Sampled(POS, 1)),
        (B, 1000, 9, Sampled(POS, 2)),
        (A, 1100, 8, Redundant),
        (B, 1100, 7, OutOfSequence),
    ]
}

fn copies_at_time_0() -> [SmallestRow; 2] {
    [(A, 0, 7, Sampled(POS, 1)), (B, 0, 7, Redundant)]
}

// rule: RM-3
#[test]
fn a_copy_is_forwarded_only_after_skew_max(rt: HostRuntime) {
    check_steps(&rt, rt.alloc(), &copy_at_skew_max());
    check_steps(&rt, rt.alloc(), &copy_after_skew_max());
}

// rule: INT-2, RM-2, RM-4
#[test]
fn only_the_first_copy_is_forwarded(rt: HostRuntime) {
    check_steps(&rt, rt.alloc(), &two_frames_late());
    check_steps(&rt, rt.alloc(), &networks_apart());
}

// rule: RM-7
#[test]
fn a_reset_is_ahead_of_255(rt: HostRuntime) {
    check_steps(&rt, rt.alloc(), &reset_after_255());
}

// rule: RM-2
#[test]
fn time_0_is_a_time(rt: HostRuntime) {
    check_steps(&rt, rt.alloc(), &copies_at_time_0());
}

/// The greatest time counts, not the latest.
fn time_that_falls() -> [SmallestRow; 3] {
    [
        (A, 5000, 9, Sampled(POS, 1)),
        (A, 4500, 10, Sampled(POS, 2)),
        (B, 5600, 9, Redundant),
    ]
}

/// A redundant frame moves nothing.
fn redundant_frame_between() -> [SmallestRow; 3] {
    [
        (A, 1000, 9, Sampled(POS, 1)),
        (B, 1900, 9, Redundant),
        (A, 2500, 0, Sampled(POS, 2)),
    ]
}

// rule: RM-3, RM-5
#[test]
fn the_greatest_time_of_forwarded_frames_counts(rt: HostRuntime) {
    check_steps(&rt, rt.alloc(), &copy_before_its_first());
    check_steps(&rt, rt.alloc(), &time_that_falls());
    check_steps(&rt, rt.alloc(), &redundant_frame_between());
}

/// The sequence number forwarded last, that of a frame on the other network, and its verdict.
type Pair = (u8, u8, Verdict);

fn bounds() -> [Pair; 10] {
    let ahead = Sampled(POS, 2);
    [
        (0x00, 0x7f, ahead),
        (0x00, 0x80, Redundant),
        (0x7f, 0x00, Redundant),
        (0x80, 0x00, ahead),
        (0xc8, 0x48, ahead),
        (0xc8, 0x49, Redundant),
        (0x01, 0x80, ahead),
        (0x01, 0x81, Redundant),
        (0xfe, 0x01, ahead),
        (0x09, 0x08, Redundant),
    ]
}

// rule: RM-7
#[test]
fn sequence_numbers_are_ahead_up_to_the_bounds(rt: HostRuntime) {
    for (last, next, verdict) in bounds() {
        let steps = [(A, 1000, last, Sampled(POS, 1)), (B, 1000, next, verdict)];
        check_steps(&rt, rt.alloc(), &steps);
    }
}

/// Both copies are forwarded.
fn both_copies() -> [SmallestRow; 2] {
    [(A, 1000, 7, Sampled(POS, 1)), (B, 1000, 7, Sampled(POS, 2))]
}

// rule: RM-1
#[test]
fn every_copy_is_forwarded_without_redundancy_management(rt: HostRuntime) {
    let link = Link {
        redundancy: false,
        ..LINK
    };
    check_steps_of(&rt, rt.alloc(), link, &both_copies());
}

// rule: RM-6
#[test]
fn a_frame_with_a_bad_header_counts_as_forwarded(rt: HostRuntime) {
    check_rows(&rt, rt.alloc(), LINK, &bad_and_good());
}
