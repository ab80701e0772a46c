//! Frames, by the hexadecimal texts of their parts.
use hex::FromHexError;
use std::alloc::{AllocError, Global};

/// The constant field of the network: the first four octets of each frame.
pub const CONSTANT: [u8; 4] = [3, 0, 0, 0];
/// The first 14 octets of a frame: constant field, link 17, a source address, the EtherType of IPv4.
pub const ETHERNET: &str = "0300000000110200000001200800";
/// The IPv4 header of the smallest frame: 45 octets from 10.1.1.1 to 224.224.0.17.
pub const IP: &str = "4500002d000100000111cdcc0a010101e0e00011";
/// The UDP header of the smallest frame: from port 5001 to port 5000 of `pos`, 25 octets with the header.
pub const UDP: &str = "1389138800190000";
/// The payload of the smallest frame, 17 octets.
pub const PAYLOAD: &str = "0102030405060708090a0b0c0d0e0f1011";
/// The IPv4 header of the longest frame: as that of the smallest, but of 1499 octets.
pub const LONGEST_IP: &str = "450005db000100000111c81e0a010101e0e00011";
/// The UDP header of the longest frame: as that of the smallest, but of 1479 octets.
pub const LONGEST_UDP: &str = "1389138805c70000";

/// The octets that these hexadecimal texts give, one text after another, and then the sequence number.
pub fn frame_of(
    alloc: Global,
    texts: &[&str],
    sequence_number: u8,
) -> Result<Vec<u8>, FromHexError> {
    let mut frame = Vec::new(alloc);
    for text in texts {
        let octets = hex::decode(alloc, *text)?;
        if frame.extend_from_slice(&octets).is_err() {
            return Err(FromHexError::OutOfMemory);
        }
    }
    if frame.push(sequence_number).is_err() {
        return Err(FromHexError::OutOfMemory);
    }
    Ok(frame)
}

/// The smallest frame, 60 octets, for `pos`, with this sequence number.
pub fn smallest(alloc: Global, sequence_number: u8) -> Result<Vec<u8>, FromHexError> {
    frame_of(alloc, &[ETHERNET, IP, UDP, PAYLOAD], sequence_number)
}

/// The sequence number of the frame at this place, of frames that follow one another: 0, then 1 to 255
/// again and again.
pub fn sequence_number_at(place: u32) -> u8 {
    if place == 0 {
        0
    } else {
        ((place - 1) % 255) as u8 + 1
    }
}

/// The longest frame, 1514 octets, for `pos`, with a payload of 1471 octets 5a.
pub fn longest(alloc: Global, sequence_number: u8) -> Result<Vec<u8>, FromHexError> {
    let Ok(payload) = fives(alloc, 1471) else {
        return Err(FromHexError::OutOfMemory);
    };
    let texts = [ETHERNET, LONGEST_IP, LONGEST_UDP, payload.as_str()];
    frame_of(alloc, &texts, sequence_number)
}

/// The hexadecimal text of this many octets 5a.
pub fn fives(alloc: Global, octets: usize) -> Result<String, AllocError> {
    "5a".repeat(alloc, octets)
}
