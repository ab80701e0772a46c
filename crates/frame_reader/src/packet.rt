//! IPv4 headers (RFC 791 3.1).
ghost use Rattle.std.specs.Prelude.{◌≡◌, ◌≤◌, ◌==◌, length, slice_index, Bool};
ghost use Rattle.es_base.specs.Returns.{Gives};
ghost use Rattle.es_base.specs.Packet.{ones_sum, packet_of};
ghost use Rattle.frame_reader.specs.Parts.{packet_parts};

use crate::Frame;
use crate::field::{u16_at, u32_at};
use es_base::PacketFault;

/// Length of a header without options, in words of four octets.
const HEADER_WORDS: u8 = 5;

const HEADER: usize = 20;

/// Offsets of a header's fields, in octets.
const TOTAL_LENGTH: usize = 2;

const IDENTIFICATION: usize = 4;

const FLAGS_AND_OFFSET: usize = 6;

const PROTOCOL: usize = 9;

const SOURCE: usize = 12;

const DESTINATION: usize = 16;

const PROTOCOL_UDP: u8 = 17;

/// The more-fragments bit, above the thirteen bits of the offset.
const MORE_FRAGMENTS: u16 = 0x2000;

/// An IPv4 packet, which carries a datagram or a fragment of one.
#[derive(Clone, Copy)]
pub struct Packet<'a> {
    /// The source address, in network order.
    pub source: u32,
    /// The destination address, in network order.
    pub destination: u32,
    /// The identification, the same in all fragments of a datagram.
    pub ident: u16,
    /// Whether more fragments follow.
    pub more: bool,
    /// Byte offset of `octets` in the datagram, 0 to 65,528.
    pub offset: u32,
    /// The octets that follow the header.
    pub octets: &'a [u8],
}

/// Reads the IPv4 header of a frame. Type of service, time to live, the reserved flag and
/// don't-fragment aren't looked at (own).
pub fn read_packet<'a>(frame: &Frame<'a>) -> Result<Packet<'a>, PacketFault>
    ensures { Gives packet_parts result (packet_of frame.now.inner.now) }
{
    let inner = frame.inner;
    if inner[0] / 16 != 4 {
        return Err(PacketFault::Version);
    }
    if inner[0] % 16 != HEADER_WORDS {
        return Err(PacketFault::HeaderLength);
    }
    let total = u16_at(inner, TOTAL_LENGTH) as usize;
    if total < HEADER || inner.len() < total {
        return Err(PacketFault::TotalLength);
    }
    if !is_sum_right(inner) {
        return Err(PacketFault::Checksum);
    }
    if inner[PROTOCOL] != PROTOCOL_UDP {
        return Err(PacketFault::Protocol);
    }
    let fragment = u16_at(inner, FLAGS_AND_OFFSET);
    Ok(Packet {
        source: u32_at(inner, SOURCE),
        destination: u32_at(inner, DESTINATION),
        ident: u16_at(inner, IDENTIFICATION),
        more: fragment / MORE_FRAGMENTS % 2 == 1,
        offset: u32::from(fragment % MORE_FRAGMENTS) * 8,
        octets: &inner[HEADER..total],
    })
}

/// Whether the ones' complement sum of the header's ten words is 0xffff. The plain sum of its five words of four
/// octets differs from that by a multiple of 0xffff, and neither sum is 0, since the first octet isn't.
fn is_sum_right(header: &[u8]) -> bool
    requires long { 20 ≤ length header.now }
    requires some { 1 ≤ slice_index header.now 0 }
    ensures { result ≡ (ones_sum 10 header.now == 0xffff) }
{
    let mut sum = 0u64;
    for i in 0..5 {
        sum += u64::from(u32_at(header, 4 * i));
    }
    sum % 0xffff == 0
}
