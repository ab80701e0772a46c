//! The packet of an event, offered to reassembly once more, and the message that comes of it.
ghost use Rattle.std.specs.Prelude.{◌≡◌, ℕ, List, IfOk, Ok, Some};
ghost use Rattle.es_base.specs.Udp.{UdpParts, udp_of};
ghost use Rattle.std.specs.Option.{option_map};
ghost use Rattle.es_base.specs.Frame.{IsFrame};
ghost use Rattle.link_rules.specs.Groups.{Group};
ghost use Rattle.link_rules.specs.Reassembly.{groups_by, offered};
ghost use Rattle.frame_reader.specs.Parts.{packet_parts};
ghost use Rattle.ip_reassembly.specs.Kept.{StandsFor};
ghost use Rattle.link_core.specs.Told.{tells_forwarded};
ghost use Rattle.link_receiver.specs.Walk.{IsMessageOf};

use es_base::{Event, Memory, Message, Octets};
use frame_reader::{Packet, frame_in, read_packet, read_udp};
use ip_reassembly::{Offered, Reassembly};
use link_core::tells_forwarded;
use std::alloc::Global;

/// The packet of an event that reassembly was offered: none if the frame wasn't forwarded, or its header
/// has a fault.
pub(crate) fn packet_of(event: &Event) -> Option<Packet<'_>>
    requires { IsFrame event.now.frame }
    ensures { option_map packet_parts result ≡ offered (tells_forwarded event.now.verdict) event.now.frame }
{
    if !tells_forwarded(event.verdict) {
        return None;
    }
    let frame = frame_in(event.frame.as_slice());
    read_packet(&frame).ok()
}

/// Offers a packet that came at `time`, in microseconds, to reassembly. Returns the message that it
/// delivers, if any.
pub(crate) fn offer(
    alloc: Global,
    reassembly: &mut Reassembly,
    packet: Option<Packet<'_>>,
    time: u64,
    delivers: bool,
) -> Result<Option<Message>, Memory>
    ensures stands { (limit : ℕ) (groups : List Group) → StandsFor reassembly.old limit groups →
        StandsFor reassembly.new limit (groups_by limit groups (option_map packet_parts packet.entry) time) }
    ensures message { IfOk result (λ message. (limit : ℕ) (groups : List Group) → StandsFor reassembly.old limit groups →
        IsMessageOf delivers limit groups (option_map packet_parts packet.entry) time message) }
{
    let Some(packet) = packet else {
        return Ok(None);
    };
    match reassembly.offer(&packet, time) {
        Offered::Whole { octets, joined: _ } => {
            if delivers {
                message_in(alloc, octets, time)
            } else {
                Ok(None)
            }
        }
        Offered::Bad | Offered::Held => Ok(None),
    }
}

/// The message of this time, in microseconds, that a datagram has (RFC 768). None if its UDP header
/// has a fault.
fn message_in(alloc: Global, datagram: &[u8], time: u64) -> Result<Option<Message>, Memory>
    ensures { IfOk result (λ message. (udp : UdpParts) → udp_of datagram.now ≡ Ok udp →
        message ≡ Some (record { time = time; octets = udp.payload })) }
{
    let Ok(udp) = read_udp(datagram) else {
        return Ok(None);
    };
    let octets = Octets::copy_of(alloc, udp.payload)?;
    Ok(Some(Message { time, octets }))
}
