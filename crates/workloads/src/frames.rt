//! The octets of frames.
use crate::configs::link_number;
use crate::digest::mixed;
use std::alloc::Global;
use std::io;

/// The constant field, link number 0, a source, and the EtherType of IPv4.
const ETHERNET: [u8; 14] = [3, 0, 0, 0, 0, 0, 2, 0, 0, 0, 1, 0x20, 8, 0];

/// Octets of the headers before what a packet carries.
const HEADERS: usize = 34;

/// The offset of the IPv4 identification in a frame, and that of the header's checksum.
pub(crate) const IDENTIFICATION: usize = 18;

pub(crate) const CHECKSUM: usize = 24;

/// The bit that more fragments follow.
const MORE: u16 = 0x2000;

/// A frame as a sender sends it again and again, each time with another identification.
#[derive(Drop)]
pub(crate) struct Template {
    /// All octets, as they were sent last. The last one is its sequence number.
    pub octets: Vec<u8>,
    /// Offset of eight octets that are others each time. 0 if none are.
    pub stamp: usize,
    /// How many sequence numbers are left out before it.
    pub jump: u8,
    /// The place of its datagram among those that the sender sends in turn.
    pub datagram: u16,
}

/// Fields that a frame has anew each time that it is sent.
#[derive(Clone, Copy)]
pub(crate) struct Marks {
    pub identification: u16,
    /// Its eight octets.
    pub stamp: u64,
    pub sequence_number: u8,
}

/// A packet for the ports of a link.
#[derive(Clone, Copy)]
pub(crate) struct Packet<'a> {
    /// The place of the link.
    pub link: u8,
    /// The place of its datagram among those that the sender sends in turn.
    pub datagram: u16,
    /// The word with its flags and its offset.
    pub word: u16,
    pub octets: &'a [u8],
}

fn push_word(octets: &mut Vec<u8>, word: u16) -> io::Result<()> {
    octets.extend_from_slice(&word.to_be_bytes())?;
    Ok(())
}

/// The ones' complement checksum of words.
fn checksum(words: &[u16]) -> u16 {
    let mut sum = 0u32;
    for word in words {
        sum = sum.wrapping_add(u32::from(*word));
    }
    for _ in 0..2 {
        sum = (sum & 0xffff).wrapping_add(sum >> 16);
    }
    0xffff ^ ((sum & 0xffff) as u16)
}

/// The checksum of a header whose word `before` is replaced (RFC 1624, section 3).
fn checksum_after(checksum: u16, before: u16, word: u16) -> u16 {
    let sum = u32::from(0xffff ^ checksum)
        .wrapping_add(u32::from(0xffff ^ before))
        .wrapping_add(u32::from(word));
    let once = (sum & 0xffff).wrapping_add(sum >> 16);
    let twice = (once & 0xffff).wrapping_add(once >> 16);
    0xffff ^ ((twice & 0xffff) as u16)
}

/// Writes an identification into a frame, and the header's checksum, which follows it. A wrong checksum stays wrong.
fn identify(octets: &mut [u8], identification: u16) {
    if octets.len() < HEADERS {
        return;
    }
    let before = u16::from_be_bytes([octets[IDENTIFICATION], octets[IDENTIFICATION + 1]]);
    let checksum = u16::from_be_bytes([octets[CHECKSUM], octets[CHECKSUM + 1]]);
    let [high, low] = identification.to_be_bytes();
    octets[IDENTIFICATION] = high;
    octets[IDENTIFICATION + 1] = low;
    let [high, low] = checksum_after(checksum, before, identification).to_be_bytes();
    octets[CHECKSUM] = high;
    octets[CHECKSUM + 1] = low;
}

impl Template {
    /// Writes what the frame has anew.
    pub(crate) fn mark(&mut self, marks: Marks) {
        let at = self.stamp;
        let octets = self.octets.as_mut_slice();
        identify(octets, marks.identification);
        if at > 0 && at < octets.len() && octets.len() - at > 8 {
            octets[at..at + 8].copy_from_slice(&marks.stamp.to_be_bytes());
        }
        if let Some(last) = octets.last_mut() {
            *last = marks.sequence_number;
        }
    }
}

/// The IPv4 header of a packet, with the identification 0.
fn header(packet: Packet<'_>) -> [u16; 10] {
    let total = 20u16.wrapping_add((packet.octets.len() & 0x7ff) as u16);
    let address = (u16::from(packet.link) << 8) | 1;
    let mut words = [
        0x4500,
        total,
        0,
        packet.word,
        0x0111,
        0,
        0x0a01,
        0x0101,
        0xe0e0,
        address,
    ];
    words[5] = checksum(&words);
    words
}

/// The frame of a packet. Its last eight octets are others each time, if `stamped`.
pub(crate) fn frame(alloc: Global, packet: Packet<'_>, stamped: bool) -> io::Result<Template> {
    let room = packet.octets.len().saturating_add(HEADERS + 1);
    let mut octets = Vec::with_capacity(alloc, room.max(60))?;
    octets.extend_from_slice(&ETHERNET)?;
    let [high, low] = link_number(packet.link).to_be_bytes();
    octets[4] = high;
    octets[5] = low;
    for word in header(packet) {
        push_word(&mut octets, word)?;
    }
    octets.extend_from_slice(packet.octets)?;
    let stamp = octets.len().saturating_sub(8);
    for _ in octets.len()..59 {
        octets.push(0)?;
    }
    octets.push(0)?;
    Ok(Template {
        octets,
        stamp: if stamped && stamp >= HEADERS {
            stamp
        } else {
            0
        },
        jump: 0,
        datagram: packet.datagram,
    })
}

/// A datagram for a UDP port, with a payload of so many octets.
pub(crate) fn datagram(alloc: Global, udp: u16, len: u16, seed: u64) -> io::Result<Vec<u8>> {
    let mut octets = Vec::with_capacity(alloc, 8200)?;
    for word in [5001, udp, len.wrapping_add(8), 0] {
        push_word(&mut octets, word)?;
    }
    for place in 0..len / 8 {
        let eight = mixed(seed.wrapping_add(u64::from(place)));
        octets.extend_from_slice(&eight.to_le_bytes())?;
    }
    let last = mixed(seed ^ u64::from(len)).to_le_bytes();
    octets.extend_from_slice(&last[..usize::from(len % 8)])?;
    Ok(octets)
}

/// The frame of a datagram that comes whole.
pub(crate) fn whole(
    alloc: Global,
    link: u8,
    udp: u16,
    len: u16,
    seed: u64,
) -> io::Result<Template> {
    let octets = datagram(alloc, udp, len, seed)?;
    let packet = Packet {
        link,
        datagram: 0,
        word: 0,
        octets: &octets,
    };
    frame(alloc, packet, len >= 8)
}

/// The frames of a datagram in pieces of so many octets, a multiple of 8, in the order of their offsets.
pub(crate) fn pieces(
    alloc: Global,
    link: u8,
    datagram: u16,
    octets: &[u8],
    size: u16,
) -> io::Result<Vec<Template>> {
    let mut frames = Vec::new(alloc);
    let mut offset = 0u16;
    let units = size / 8;
    for piece in octets.chunks(usize::from(size.max(8))) {
        let more = if usize::from(offset)
            .wrapping_mul(8)
            .wrapping_add(piece.len())
            < octets.len()
        {
            MORE
        } else {
            0
        };
        let packet = Packet {
            link,
            datagram,
            word: more | (offset & 0x1fff),
            octets: piece,
        };
        frames.push(frame(alloc, packet, offset > 0)?)?;
        offset = offset.wrapping_add(units);
    }
    Ok(frames)
}
