//! The links and ports of a configuration, by their places.
ghost use Rattle.std.specs.Prelude.{◌≡◌, ◌<◌};
ghost use Rattle.receiver_slots.specs.Codes.{done};
ghost use Rattle.receiver_slots.specs.Naming.{TellsLinkIn, TellsPortIn, link_code_in, named, port_code_in};

use crate::codes::{DONE, NO_PLACE};
use crate::told::replies::{LinkReply, PortReply, link_reply_of, port_reply_of};
use es_base::{Config, PortName};

/// Tells the settings of the link at this place, and its number of ports. NO_PLACE.
pub(crate) fn tell_link(config: &Config, link: usize, reply: &mut LinkReply) -> u32
    ensures code { result ≡ link_code_in config.now link }
    ensures told { result ≡ done → TellsLinkIn config.now link reply.new }
    ensures same { 0 < result → reply.new ≡ reply.old }
{
    let Some(settings) = config.links().get(link) else {
        return NO_PLACE;
    };
    *reply = link_reply_of(settings);
    DONE
}

/// Tells the settings of a port, by the places of its link and of the port in it, and its name, at the beginning of
/// `name`. NO_PLACE.
pub(crate) fn tell_port(
    config: &Config,
    link: usize,
    port: usize,
    reply: &mut PortReply,
    name: &mut [u8; 16],
) -> u32
    ensures code { result ≡ port_code_in config.now link port }
    ensures told { result ≡ done → TellsPortIn config.now link port reply.new name.old name.new }
    ensures same { 0 < result → (reply.new ≡ reply.old) × (name.new ≡ name.old) }
{
    let Some(settings) = config.links().get(link) else {
        return NO_PLACE;
    };
    let Some(settings) = settings.ports().get(port) else {
        return NO_PLACE;
    };
    *reply = port_reply_of(settings);
    write_name(settings.name(), name);
    DONE
}

/// Writes a name, 1 to 16 octets, over the beginning of `out`.
fn write_name(name: &PortName, out: &mut [u8; 16])
    ensures { out.new ≡ named name.now out.old }
{
    let octets = name.as_str().as_bytes();
    let len = octets.len().min(16);
    out[..len].copy_from_slice(&octets[..len]);
}
