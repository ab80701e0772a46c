//! A configuration in octets, which may be no text.
ghost use Rattle.std.specs.Prelude.{◌≡◌, IfOk, option_map};
ghost use Rattle.vl_config.specs.Fault.{GivesOrMemory};
ghost use Rattle.vl_config.specs.Octets.{IsLineOf, config_of, line_of_fault_if, fault_place_in, text_of};
ghost use Rattle.vl_config.specs.Stray.{stray_in};

use crate::document::line::{line_in, line_of_octet, stray_line};
use crate::document::place::NOWHERE;
use crate::document::stray::stray_place_of;
use crate::{Config, ConfigFault, FaultPlace, Stray, place_of_fault, read_config};
use es_base::Memory;
use std::alloc::{AllocError, Global};

/// The text of these octets, if they are UTF-8.
pub fn text_of(octets: &[u8]) -> Option<&str>
    ensures { option_map (λ text. text.now) result ≡ text_of octets.now }
{
    match str::from_utf8(octets) {
        Ok(text) => Some(text),
        Err(_) => None,
    }
}

/// Reads a configuration from the octets of a TOML document, as [`read_config`] does. Octets that are no text have the
/// fault Text.
pub fn read_octets(alloc: Global, octets: &[u8]) -> Result<Config, ConfigFault>
    ensures { GivesOrMemory (λ config. config) result (config_of octets.now) }
{
    match text_of(octets) {
        Some(text) => read_config(alloc, text),
        None => Err(ConfigFault::Text),
    }
}

/// Place of the fault that [`read_octets`] returns of these octets. It reads them again.
pub fn place_in_octets(alloc: Global, octets: &[u8]) -> Result<FaultPlace, Memory>
    ensures { IfOk result (λ place. place ≡ fault_place_in octets.now) }
{
    match text_of(octets) {
        Some(text) => place_of_fault(alloc, text),
        None => Ok(NOWHERE),
    }
}

/// Line, from 1, of this fault that [`read_octets`] returned of these octets, at this place; 0 if none is found. Octets
/// that are no TOML document have their fault where `toml` refuses them, or at the first octet that is no UTF-8. Any
/// other fault is at its key, or else at the heading of its table; headings are known as `[[link]]` and `[[link.port]]`
/// alone.
pub fn line_in_octets(
    alloc: Global,
    octets: &[u8],
    fault: ConfigFault,
    place: FaultPlace,
) -> Result<u64, Memory>
    ensures { IfOk result (IsLineOf octets.now fault place) }
{
    match fault {
        ConfigFault::Text => Ok(line_of_octet(octets, refused_at(alloc, octets)?)),
        _ => Ok(line_if(text_of(octets), fault, place)),
    }
}

fn line_if(text: Option<&str>, fault: ConfigFault, place: FaultPlace) -> u64
    ensures { result ≡ line_of_fault_if (option_map (λ text. text.now) text.entry) fault place }
{
    match text {
        Some(text) => line_in(text, fault, place),
        None => 0,
    }
}

/// The first table with a key that isn't its own, of octets that [`read_octets`] takes; None if there is none. The tables
/// come in the order of a document: its own, then link by link that of the link and those of its ports. What
/// [`read_octets`] refuses is looked at as far as it has tables: octets that are no TOML document have none, nor has a
/// `link` or `port` that is no array of tables or has too many.
pub fn stray_in_octets(alloc: Global, octets: &[u8]) -> Result<Option<Stray>, Memory>
    ensures { IfOk result (λ stray. stray ≡ stray_in octets.now) }
{
    let Some(text) = text_of(octets) else {
        return Ok(None);
    };
    match stray_place_of(alloc, text)? {
        Some(place) => Ok(Some(Stray {
            place,
            line: stray_line(text, place),
        })),
        None => Ok(None),
    }
}

/// The place of the octet at which these octets are refused as a TOML document.
fn refused_at(alloc: Global, octets: &[u8]) -> Result<usize, Memory> {
    let text = match str::from_utf8(octets) {
        Ok(text) => text,
        Err(error) => return Ok(error.valid_up_to()),
    };
    match toml::table_from_str(alloc, text) {
        Ok(_) => Ok(0),
        Err(error) if error.is_memory() => Err(AllocError),
        Err(error) => Ok(error.span().map_or(0, |span| span.start)),
    }
}
