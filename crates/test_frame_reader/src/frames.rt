//! Frames as they are read, and their faults.
use crate::fields::check_field;
use es_base::FrameFault;
use frame_reader::{Frame, read_frame};
use std::alloc::Global;
use std::process::Abort;
use test_inputs::{CONSTANT, IP, PAYLOAD, UDP, frame_of, longest, smallest};

/// The frame of these octets.
pub(crate) fn frame_from<'a>(rt: &impl Abort, octets: &'a [u8]) -> Frame<'a> {
    read_frame(CONSTANT, octets).expect(rt, "a frame")
}

/// These octets are refused for this fault.
fn check_fault(rt: &impl Abort, octets: &[u8], wanted: FrameFault) {
    let fault = read_frame(CONSTANT, octets).err();
    assert!(rt; fault == Some(wanted), "{octets:?}");
}

/// The octets of the smallest frame, with this sequence number.
pub(crate) fn smallest_octets(rt: &impl Abort, alloc: Global, sequence_number: u8) -> Vec<u8> {
    smallest(alloc, sequence_number).expect(rt, "octets")
}

/// The octets of a frame with these texts as its first 14 octets and its IPv4 header.
pub(crate) fn octets_of(rt: &impl Abort, alloc: Global, ethernet: &str, ip: &str) -> Vec<u8> {
    frame_of(alloc, &[ethernet, ip, UDP, PAYLOAD], 0).expect(rt, "octets")
}

fn check_beginnings(rt: &impl Abort, alloc: Global) {
    let frame = smallest_octets(rt, alloc, 0);
    assert!(rt; frame.len() == 60);
    for length in 0..60 {
        check_fault(rt, &frame[..length], FrameFault::TooShort);
    }
}

// rule: FRAME-2
#[test]
fn every_beginning_of_the_smallest_frame_is_too_short(rt: HostRuntime) {
    check_beginnings(&rt, rt.alloc());
}

fn check_longest(rt: &impl Abort, alloc: Global) {
    let mut frame = longest(alloc, 0).expect(rt, "octets");
    let whole = frame_from(rt, &frame).whole.len();
    assert!(rt; whole == 1514, "{whole}");
    frame.push(0).expect(rt, "memory");
    check_fault(rt, &frame, FrameFault::TooLong);
}

// rule: FRAME-3
#[test]
fn a_frame_longer_than_the_longest_is_too_long(rt: HostRuntime) {
    check_longest(&rt, rt.alloc());
}

// rule: FRAME-1
#[test]
fn the_length_is_tested_before_the_ethertype(rt: HostRuntime) {
    check_fault(&rt, &[0; 1515], FrameFault::TooLong);
}

/// The first 14 octets of a frame, and its fault.
type Beginning = (&'static str, FrameFault);

fn beginnings() -> [Beginning; 3] {
    [
        ("0300000000110200000001200806", FrameFault::NotIp),
        ("0300000100110200000001200800", FrameFault::ForeignConstant),
        // The EtherType is tested before the constant field.
        ("0300000100110200000001200806", FrameFault::NotIp),
    ]
}

fn check_beginning(rt: &impl Abort, alloc: Global, (ethernet, fault): Beginning) {
    check_fault(rt, &octets_of(rt, alloc, ethernet, IP), fault);
}

// rule: FRAME-1, FRAME-4, FRAME-5
#[test]
fn frames_are_refused_by_their_first_fault(rt: HostRuntime) {
    for row in beginnings() {
        check_beginning(&rt, rt.alloc(), row);
    }
}

fn check_smallest_frame(rt: &impl Abort, frame: &Frame<'_>) {
    check_field(rt, "link number", u64::from(frame.vl.0), 17);
    check_field(rt, "sequence number", u64::from(frame.sequence_number), 7);
    check_field(rt, "octets inside", frame.inner.len() as u64, 45);
    check_field(rt, "octets", frame.whole.len() as u64, 60);
}

// rule: WIRE-1, WIRE-2
#[test]
fn the_smallest_frame_is_read_field_by_field(rt: HostRuntime) {
    let octets = smallest_octets(&rt, rt.alloc(), 7);
    check_smallest_frame(&rt, &frame_from(&rt, &octets));
}
