//! Bytes that are no digits, and odd numbers of digits: the fault is that of `hex`, at their line.
use crate::patterns::{digits, fault_at, octets, read};
use hex::FromHexError;
use hex_trace::{TraceCause, decode_digits};
use std::alloc::Global;
use std::process::Abort;

/// How many digits the lines have.
const COUNT: usize = 132;

/// Bytes that are no digits: the neighbours of those that are, and some others.
const BAD: [u8; 9] = *b"/:@G`g \x00\xff";

/// A trace whose third line has these digits. Its fourth has none.
fn trace_with(rt: &impl Abort, alloc: Global, digits: &[u8]) -> Vec<u8> {
    let mut trace = Vec::from_slice(alloc, b"# a comment\n0 00\n7 ").expect(rt, "memory");
    trace.extend_from_slice(digits).expect(rt, "memory");
    trace.extend_from_slice(b"\n8 zz\n").expect(rt, "memory");
    trace
}

/// The first fault of a trace whose third line has these digits is at `line`.
fn check_line(rt: &impl Abort, alloc: Global, digits: &[u8], line: u64) {
    let trace = trace_with(rt, alloc, digits);
    let fault = read(alloc, &trace).err();
    assert!(rt;
        fault == Some(fault_at(line, TraceCause::Hex)),
        "{digits:?}"
    );
}

/// These digits are refused so.
fn check_fault(rt: &impl Abort, alloc: Global, digits: &[u8], fault: FromHexError) {
    assert!(rt;
        decode_digits(alloc, digits).err() == Some(fault),
        "{digits:?}"
    );
}

/// These digits say these octets.
fn check_octets(rt: &impl Abort, alloc: Global, digits: &[u8], octets: &[u8]) {
    let decoded = decode_digits(alloc, digits).expect(rt, "octets");
    assert!(rt; decoded.as_slice() == octets, "{digits:?}");
}

/// With `bad` at `place` the line is refused, for this byte.
fn check_bad(rt: &impl Abort, alloc: Global, bad: u8, place: usize) {
    let mut line = digits(rt, alloc, COUNT);
    if let Some(digit) = line.get_mut(place) {
        *digit = bad;
    }
    let fault = FromHexError::InvalidHexCharacter {
        c: char::from(bad),
        index: place,
    };
    check_fault(rt, alloc, &line, fault);
    check_line(rt, alloc, &line, 3);
}

fn check_bad_everywhere(rt: &impl Abort, alloc: Global, bad: u8) {
    for place in 0..COUNT {
        check_bad(rt, alloc, bad, place);
    }
}

// rule: TRACE-3
#[test]
fn a_bad_byte_is_seen_at_each_place(rt: HostRuntime) {
    for bad in BAD {
        check_bad_everywhere(&rt, rt.alloc(), bad);
    }
}

/// A line of this many digits is refused for a bad one, wherever that stands.
fn check_bad_in(rt: &impl Abort, alloc: Global, count: usize) {
    for place in 0..count {
        let mut line = digits(rt, alloc, count);
        if let Some(digit) = line.get_mut(place) {
            *digit = b'g';
        }
        let fault = FromHexError::InvalidHexCharacter {
            c: 'g',
            index: place,
        };
        check_fault(rt, alloc, &line, fault);
    }
}

fn check_bad_in_each(rt: &impl Abort, alloc: Global) {
    for octets in 0..=40 {
        check_bad_in(rt, alloc, 2 * octets);
    }
}

/// Up to 40 octets, so that some come before, between and after those that are decoded at a time.
// rule: TRACE-3
#[test]
fn a_bad_digit_is_seen_in_lines_of_each_length(rt: HostRuntime) {
    check_bad_in_each(&rt, rt.alloc());
}

/// This many digits say their octets, or are odd.
fn check_count(rt: &impl Abort, alloc: Global, count: usize) {
    let line = digits(rt, alloc, count);
    if count % 2 == 0 {
        check_octets(rt, alloc, &line, &octets(rt, alloc, count / 2));
        check_line(rt, alloc, &line, 4);
    } else {
        check_fault(rt, alloc, &line, FromHexError::OddLength);
        check_line(rt, alloc, &line, 3);
    }
}

fn check_counts(rt: &impl Abort, alloc: Global) {
    for count in 0..=COUNT {
        check_count(rt, alloc, count);
    }
}

// rule: TRACE-3
#[test]
fn an_odd_number_of_digits_is_refused(rt: HostRuntime) {
    check_counts(&rt, rt.alloc());
}

/// The second line of a trace is refused for this.
fn check_second_line(rt: &impl Abort, alloc: Global, trace: &[u8], cause: TraceCause) {
    let fault = read(alloc, trace).err();
    assert!(rt; fault == Some(fault_at(2, cause)), "{trace:?}");
}

/// Each second line has a time below that of the first.
// rule: TRACE-5, TRACE-13
#[test]
fn bad_digits_come_before_a_time_that_falls(rt: HostRuntime) {
    check_second_line(&rt, rt.alloc(), b"10 00\n5 0g", TraceCause::Hex);
    check_second_line(&rt, rt.alloc(), b"10 00\n5 0", TraceCause::Hex);
    check_second_line(&rt, rt.alloc(), b"10 00\n5 00", TraceCause::Falls);
}

/// The first of two faults is the one that is told: the odd number, and then the first bad byte.
// rule: TRACE-3
#[test]
fn of_two_bad_bytes_the_first_is_told(rt: HostRuntime) {
    let bad = FromHexError::InvalidHexCharacter { c: 'g', index: 2 };
    check_fault(&rt, rt.alloc(), b"00g0h0", bad);
    check_fault(&rt, rt.alloc(), b"0g0", FromHexError::OddLength);
}

/// Each digit in each case.
const EVERY_DIGIT: &[u8] = b"0123456789abcdefABCDEFaAbBcCdDeEfF";

/// The octets of `EVERY_DIGIT`.
const EVERY_VALUE: [u8; 17] = [
    0x01, 0x23, 0x45, 0x67, 0x89, 0xab, 0xcd, 0xef, 0xab, 0xcd, 0xef, 0xaa, 0xbb, 0xcc, 0xdd, 0xee,
    0xff,
];

// rule: TRACE-3
#[test]
fn digits_of_both_cases_stand_in_one_line(rt: HostRuntime) {
    check_octets(&rt, rt.alloc(), EVERY_DIGIT, &EVERY_VALUE);
    check_line(&rt, rt.alloc(), EVERY_DIGIT, 4);
}
