//! Digits, the octets that they say, and what a trace is read as.
use hex_trace::{Device, Frames, TraceCause, TraceFault, read_trace};
use std::alloc::Global;
use std::process::Abort;

/// Digits of both cases.
const DIGITS: [u8; 22] = *b"0a1B2c3D4e5F6a7B8c9DeF";

/// The octets of `DIGITS`.
const OCTETS: [u8; 11] = [
    0x0a, 0x1b, 0x2c, 0x3d, 0x4e, 0x5f, 0x6a, 0x7b, 0x8c, 0x9d, 0xef,
];

/// This many digits: `DIGITS` again and again.
pub(crate) fn digits(rt: &impl Abort, alloc: Global, count: usize) -> Vec<u8> {
    let mut digits = Vec::new(alloc);
    for i in 0..count {
        digits.push(DIGITS[i % 22]).expect(rt, "memory");
    }
    digits
}

/// This many octets: `OCTETS` again and again.
pub(crate) fn octets(rt: &impl Abort, alloc: Global, count: usize) -> Vec<u8> {
    let mut octets = Vec::new(alloc);
    for i in 0..count {
        octets.push(OCTETS[i % 11]).expect(rt, "memory");
    }
    octets
}

/// Frames of a trace, or its fault.
pub(crate) fn read(alloc: Global, trace: &[u8]) -> Result<Frames, TraceFault> {
    read_trace(alloc, &mut Device::new(trace))
}

/// The fault of this line.
pub(crate) fn fault_at(line: u64, cause: TraceCause) -> TraceFault {
    TraceFault::Line { line, cause }
}
