//! Times of 19 digits, which fit 64 bits whatever they are, and of more.
use crate::patterns::{fault_at, read};
use hex_trace::TraceCause;
use std::alloc::Global;
use std::process::Abort;

/// A trace of this line has a frame of this time.
fn check_time(rt: &impl Abort, alloc: Global, line: &[u8], time: u64) {
    let frames = read(alloc, line).expect(rt, "frames");
    match frames.first() {
        Some(frame) => assert_eq!(rt; frame.time, time),
        None => assert!(rt; false, "{line:?}"),
    }
}

/// A trace of this line is refused for this.
fn check_cause(rt: &impl Abort, alloc: Global, line: &[u8], cause: TraceCause) {
    let fault = read(alloc, line).err();
    assert!(rt; fault == Some(fault_at(1, cause)), "{line:?}");
}

// rule: TRACE-2
#[test]
fn long_times_are_read(rt: HostRuntime) {
    let alloc = rt.alloc();
    check_time(
        &rt,
        alloc,
        b"999999999999999999 00",
        999_999_999_999_999_999,
    );
    check_time(
        &rt,
        alloc,
        b"9999999999999999999 00",
        9_999_999_999_999_999_999,
    );
    check_time(
        &rt,
        alloc,
        b"10000000000000000000 00",
        10_000_000_000_000_000_000,
    );
    check_time(&rt, alloc, b"18446744073709551615 00", u64::MAX);
}

// rule: TRACE-2
#[test]
fn times_that_do_not_fit_64_bits_are_refused(rt: HostRuntime) {
    let alloc = rt.alloc();
    check_cause(&rt, alloc, b"18446744073709551616 00", TraceCause::Time);
    check_cause(&rt, alloc, b"99999999999999999999 00", TraceCause::Time);
    check_cause(&rt, alloc, b"100000000000000000000 00", TraceCause::Time);
}

// rule: TRACE-3
#[test]
fn a_space_follows_a_time_of_any_length(rt: HostRuntime) {
    let alloc = rt.alloc();
    check_cause(&rt, alloc, b"999999999999999999", TraceCause::Space);
    check_cause(&rt, alloc, b"9999999999999999999", TraceCause::Space);
    check_cause(&rt, alloc, b"18446744073709551615x", TraceCause::Space);
    check_cause(&rt, alloc, b"0000000000000000000001 00", TraceCause::Space);
}
