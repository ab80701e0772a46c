//! The ports whose ends are left to hand out, by name, for the slots of both kinds of receivers.
ghost use Rattle.std.specs.Prelude.{◌≡◌, IfErr, IfOk, None, Some, is_some, option_map, true};
ghost use Rattle.receiver.specs.Named.{port_named};
ghost use Rattle.vl_config.specs.Octets.{text_of};
ghost use Rattle.receiver_slots.specs.Codes.{no_name};
ghost use Rattle.receiver_slots.specs.Naming.{place_among, place_reply_of};

use crate::codes::NO_NAME;
use crate::told::replies::PlaceReply;
use receiver::{LinkEnds, PartitionEnd, port_named};
use vl_config::text_of;

/// The name of a port. NO_NAME if no port has it.
pub(crate) fn name_of<'a>(ends: &[LinkEnds<PartitionEnd>], name: &'a [u8]) -> Result<&'a str, u32>
    ensures ok { IfOk result (λ text. (text_of name.now ≡ Some text.now) × (is_some (port_named text.now ends.now) ≡ true)) }
    ensures none { IfErr result (λ code. (code ≡ no_name) × (place_among name.now ends.now ≡ None)) }
{
    let Some(text) = text_of(name) else {
        return Err(NO_NAME);
    };
    match port_named(ends, text) {
        Some(_) => Ok(text),
        None => Err(NO_NAME),
    }
}

/// Places of the link and of the port with this name.
pub(crate) fn place_of(ends: &[LinkEnds<PartitionEnd>], name: &[u8]) -> Option<PlaceReply>
    ensures { result ≡ option_map place_reply_of (place_among name.now ends.now) }
{
    let (link, port) = port_named(ends, text_of(name)?)?;
    Some(PlaceReply {
        link,
        port: port.0 as u32,
    })
}
