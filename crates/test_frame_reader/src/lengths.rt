//! Lines of many lengths, up to the longest.
use crate::patterns::{digits, fault_at, octets, read};
use hex_trace::{Frames, LONGEST_LINE, TraceCause, TraceFault};
use std::alloc::Global;
use std::process::Abort;

/// A comment, and then a line of `length` bytes: a 0, a space, and digits.
fn trace_of(rt: &impl Abort, alloc: Global, digits: &[u8], length: usize) -> Vec<u8> {
    let mut trace = Vec::from_slice(alloc, b"#\n0 ").expect(rt, "memory");
    trace.extend_from_slice(digits).expect(rt, "memory");
    trace.truncate(length.saturating_add(2));
    trace
}

/// Whether lines of this length are tried: short ones, the longest, and each 61st.
fn is_tried(length: usize) -> bool {
    length <= 140 || length >= LONGEST_LINE - 20 || length % 61 == 0
}

/// The fault of a trace whose second line has this length.
fn fault_of(length: usize) -> Option<TraceFault> {
    if length > LONGEST_LINE {
        Some(fault_at(2, TraceCause::LongLine))
    } else if length == 1 {
        Some(fault_at(2, TraceCause::Space))
    } else if length % 2 == 1 {
        Some(fault_at(2, TraceCause::Hex))
    } else {
        None
    }
}

/// The frame of a line of this length has one octet for two digits; an empty line has none.
fn check_frame(rt: &impl Abort, alloc: Global, frames: &Frames, length: usize) {
    match frames.first() {
        Some(frame) => {
            let wanted = octets(rt, alloc, length.saturating_sub(2) / 2);
            assert!(rt; frame.octets == wanted.as_slice(), "{length}");
        }
        None => assert_eq!(rt; length, 0),
    }
}

fn check_length(rt: &impl Abort, alloc: Global, trace: &[u8], length: usize) {
    match read(alloc, trace) {
        Ok(frames) => {
            assert!(rt; fault_of(length).is_none(), "{length}");
            check_frame(rt, alloc, &frames, length);
        }
        Err(fault) => assert!(rt; fault_of(length) == Some(fault), "{length}"),
    }
}

fn check_lengths(rt: &impl Abort, alloc: Global) {
    let digits = digits(rt, alloc, LONGEST_LINE);
    for length in 0..=LONGEST_LINE + 1 {
        if is_tried(length) {
            let trace = trace_of(rt, alloc, &digits, length);
            check_length(rt, alloc, &trace, length);
        }
    }
}

// rule: TRACE-1, TRACE-3, TRACE-8
#[test]
fn lines_up_to_the_longest_are_read(rt: HostRuntime) {
    check_lengths(&rt, rt.alloc());
}

/// This many comments of 9 bytes, and then a line with a fault.
fn check_comments(rt: &impl Abort, alloc: Global, count: usize, line: u64) {
    let mut trace = "# nothing\n".repeat(alloc, count).expect(rt, "memory");
    trace.push_str("x").expect(rt, "memory");
    let fault = read(alloc, trace.as_str().as_bytes()).err();
    assert!(rt; fault == Some(fault_at(line, TraceCause::Time)));
}

// rule: TRACE-6, TRACE-7, TRACE-12
#[test]
fn a_fault_after_a_million_bytes_of_comments_is_told_with_its_line(rt: HostRuntime) {
    check_comments(&rt, rt.alloc(), 100_000, 100_001);
}
