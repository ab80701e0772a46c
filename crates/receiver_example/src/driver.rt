//! In the place of a driver: frames with their arrival times, in order of these.
use crate::refused;
use hex_trace::decode_digits;
use receiver::Net;
use std::alloc::Global;
use std::io;

/// A frame that came, without its check sequence.
#[derive(Drop)]
pub(crate) struct GivenFrame {
    pub net: Net,
    /// Arrival time, in microseconds.
    pub time: u64,
    pub octets: Vec<u8>,
}

/// The parts of the frames before their last octet, the sequence number: for `pos`, for `nav`, and of a link that isn't
/// configured.
const FOR_POS: &str =
    "03000000001102000000012008004500002d000100000111cdcc0a010101e0e0001113891388001900000102030405060708090a0b0c0d0e0f1011";

const FOR_NAV: &str =
    "03000000001102000000012008004500002d000100000111cdcc0a010101e0e000111389138a001900000102030405060708090a0b0c0d0e0f1011";

const UNKNOWN: &str =
    "03000000001302000000012008004500002d000100000111cdcb0a010101e0e0001213891388001900000102030405060708090a0b0c0d0e0f1011";

/// The frame with this sequence number, as it came.
fn frame_at(
    alloc: Global,
    net: Net,
    time: u64,
    digits: &str,
    number: u8,
) -> io::Result<GivenFrame> {
    match decode_digits(alloc, digits.as_bytes()) {
        Ok(mut octets) => {
            octets.push(number)?;
            Ok(GivenFrame { net, time, octets })
        }
        Err(_) => Err(refused()),
    }
}

/// A message for `pos` and its copy on the other network, two for `nav`, one for `pos` whose sequence number is too far
/// ahead, and a frame of a link that isn't configured.
pub(crate) fn frames(alloc: Global) -> io::Result<Vec<GivenFrame>> {
    let mut frames = Vec::new(alloc);
    for (net, time, digits, number) in [
        (Net::A, 1_000, FOR_POS, 0),
        (Net::B, 1_200, FOR_POS, 0),
        (Net::A, 2_000, FOR_NAV, 1),
        (Net::B, 2_100, FOR_NAV, 2),
        (Net::A, 4_000, FOR_POS, 9),
        (Net::B, 5_000, UNKNOWN, 0),
    ] {
        frames.push(frame_at(alloc, net, time, digits, number)?)?;
    }
    Ok(frames)
}
