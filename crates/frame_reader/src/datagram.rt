//! UDP datagrams (RFC 768).
ghost use Rattle.std.specs.Prelude.{◌≡◌, ℕ, List, length};
ghost use Rattle.es_base.specs.Returns.{Gives};
ghost use Rattle.es_base.specs.Udp.{udp_of, udp_head_of, head_of};
ghost use Rattle.frame_reader.specs.Parts.{udp_parts, udp_head_parts};

use crate::field::u16_at;
use es_base::UdpFault;

/// Length of a UDP header, in octets.
pub const UDP_HEADER: usize = 8;

/// Offsets of a header's fields, in octets.
const SOURCE_PORT: usize = 0;

const DESTINATION_PORT: usize = 2;

const LENGTH: usize = 4;

/// A UDP datagram.
#[derive(Clone, Copy)]
pub struct Datagram<'a> {
    pub source_port: u16,
    pub destination_port: u16,
    /// The payload: the octets after the header, up to the length field's end.
    pub payload: &'a [u8],
}

/// The fields of a UDP header.
#[derive(Clone, Copy, Debug, PartialEq, Eq)]
pub struct UdpHead {
    pub source_port: u16,
    pub destination_port: u16,
    /// Length of the payload, in octets.
    pub payload_octets: usize,
}

/// Reads a UDP datagram. Its checksum isn't looked at (own).
pub fn read_udp(octets: &[u8]) -> Result<Datagram<'_>, UdpFault>
    ensures { Gives udp_parts result (udp_of octets.now) }
{
    if octets.len() < UDP_HEADER {
        return Err(UdpFault::Short);
    }
    let length = u16_at(octets, LENGTH) as usize;
    if length < UDP_HEADER || octets.len() < length {
        return Err(UdpFault::Length);
    }
    Ok(Datagram {
        source_port: u16_at(octets, SOURCE_PORT),
        destination_port: u16_at(octets, DESTINATION_PORT),
        payload: &octets[UDP_HEADER..length],
    })
}

/// Reads the header of a UDP datagram of `len` octets from the first `UDP_HEADER` of them, with zeros past its end: the
/// header that `read_udp` reads of the whole datagram.
pub fn read_udp_head(head: &[u8; UDP_HEADER], len: usize) -> Result<UdpHead, UdpFault>
    ensures { (octets : List ℕ) → head.now ≡ head_of octets → length octets ≡ len →
        Gives udp_head_parts result (udp_head_of (length octets) octets) }
{
    udp_head_in(head, len)
}

/// The header in these octets, the first of `received`.
fn udp_head_in(octets: &[u8; UDP_HEADER], received: usize) -> Result<UdpHead, UdpFault>
    ensures { Gives udp_head_parts result (udp_head_of received octets.now) }
{
    if received < UDP_HEADER {
        return Err(UdpFault::Short);
    }
    let length = u16_at(octets, LENGTH) as usize;
    if length < UDP_HEADER || received < length {
        return Err(UdpFault::Length);
    }
    Ok(UdpHead {
        source_port: u16_at(octets, SOURCE_PORT),
        destination_port: u16_at(octets, DESTINATION_PORT),
        payload_octets: length - UDP_HEADER,
    })
}
