//! Whole datagrams and bad fragments, by their packet alone.
ghost use Rattle.std.specs.Prelude.{◌≡◌};
ghost use Rattle.link_rules.specs.Fragments.{is_whole, is_bad, has_bad_length, key_of};
ghost use Rattle.frame_reader.specs.Parts.{packet_parts};
ghost use Rattle.es_base.specs.Udp.{head_of};

use crate::buffer::LONGEST_JOINED;
use es_base::DatagramKey;
use frame_reader::{Packet, UDP_HEADER};

/// Whether a packet is a whole datagram (RFC 791 3.1).
pub(crate) fn is_whole(packet: &Packet<'_>) -> bool
    ensures { result ≡ is_whole (packet_parts packet.now) }
{
    packet.offset == 0 && !packet.more
}

/// Whether a fragment is no piece of a datagram: its length is bad, or it ends past octet 8200, the end
/// of the longest joined datagram (own).
pub(crate) fn is_bad(packet: &Packet<'_>) -> bool
    ensures { result ≡ is_bad (packet_parts packet.now) }
{
    let end = packet.offset as usize + packet.octets.len();
    has_bad_length(packet) || end > LONGEST_JOINED
}

/// Whether a fragment with more to follow is empty (own), or its length is no multiple of 8 octets, the
/// unit of offsets (RFC 791 3.1).
fn has_bad_length(packet: &Packet<'_>) -> bool
    ensures { result ≡ has_bad_length (packet_parts packet.now) }
{
    let len = packet.octets.len();
    packet.more && (len == 0 || len % 8 != 0)
}

/// Key of a fragment's datagram (RFC 791 3.2).
pub(crate) fn key_of(packet: &Packet<'_>) -> DatagramKey
    ensures { result ≡ key_of (packet_parts packet.now) }
{
    DatagramKey {
        source: packet.source,
        destination: packet.destination,
        ident: packet.ident,
    }
}

/// The first octets, as many as a UDP header has, with zeros if there are fewer.
pub(crate) fn head_of(octets: &[u8]) -> [u8; UDP_HEADER]
    ensures { result ≡ head_of octets.now }
{
    if let Some(first) = octets.first_chunk::<UDP_HEADER>() {
        return *first;
    }
    let mut head = [0; UDP_HEADER];
    let len = octets.len().min(UDP_HEADER);
    head[..len].copy_from_slice(&octets[..len]);
    head
}
