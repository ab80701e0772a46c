//! Request of an opening: a configuration, in a text or in a table, and the number of readers of each sampling port.
ghost use Rattle.std.specs.Prelude.{◌≡◌, ◌≢◌, ◌↔◌, ◌⊎◌, Err, IfErr, IfOk, Ok, [], false};
ghost use Rattle.mailbox_port.specs.Port.{is_reader_count};
ghost use Rattle.vl_config.specs.Octets.{config_of};
ghost use Rattle.vl_config.specs.Rows.{table_of};
ghost use Rattle.receiver_slots.specs.Codes.{faulty, no_memory, out_of_range};
ghost use Rattle.receiver_slots.specs.Receiving.{HasFault, HasTableFault};

use crate::codes::{FAULTY, NO_MEMORY, OUT_OF_RANGE};
use crate::opening::port_readers::PortReaders;
use crate::told::replies::{FaultReply, fault_reply_of};
use es_base::{Config, Memory};
use receiver::ReaderCount;
use std::alloc::Global;
use vl_config::{
    ConfigFault, LinkRow, PortRow, config_of_table, line_in_octets, place_in_octets, read_octets,
};

/// A configuration, and the number of readers of each of its sampling ports.
#[derive(Drop)]
pub struct Wanted<'a> {
    pub config: Config,
    pub readers: PortReaders<'a>,
}

/// Reply on this fault of the configuration in these octets.
pub(crate) fn told_of(
    alloc: Global,
    octets: &[u8],
    fault: ConfigFault,
) -> Result<FaultReply, Memory>
    ensures { config_of octets.now ≡ Err fault → IfOk result (HasFault octets.now) }
{
    let place = place_in_octets(alloc, octets)?;
    let line = line_in_octets(alloc, octets, fault, place)?;
    Ok(fault_reply_of(fault, place, line))
}

/// The configuration in these octets, a TOML document, with `readers` readers at each sampling port, 1 to 8, else
/// OUT_OF_RANGE. FAULTY, and its first fault with its key, link, port and line, if it has one.
pub(crate) fn wanted_in_text(
    alloc: Global,
    text: &[u8],
    readers: usize,
    fault: &mut FaultReply,
) -> Result<Wanted<'static>, u32>
    ensures ok { IfOk result (λ wanted. (config_of text.now ≡ Ok wanted.config) × (wanted.readers.others ≡ readers) × (wanted.readers.rows.now ≡ [])) }
    ensures fault { result ≡ Err faulty → HasFault text.now fault.new }
    ensures range { (result ≡ Err out_of_range) ↔ (is_reader_count readers ≡ false) }
    ensures others { result ≢ Err faulty → fault.new ≡ fault.old }
    ensures codes { IfErr result (λ code. (code ≡ faulty) ⊎ ((code ≡ no_memory) ⊎ (code ≡ out_of_range))) }
{
    let Some(others) = ReaderCount::new(readers) else {
        return Err(OUT_OF_RANGE);
    };
    let config = match read_octets(alloc, text) {
        Ok(config) => config,
        Err(ConfigFault::Memory) => return Err(NO_MEMORY),
        Err(found) => {
            let Ok(told) = told_of(alloc, text, found) else {
                return Err(NO_MEMORY);
            };
            *fault = told;
            return Err(FAULTY);
        }
    };
    let readers = PortReaders { rows: &[], others };
    Ok(Wanted { config, readers })
}

/// The configuration of a table: the constant field, the links, and their ports one after another; with as many readers
/// at each sampling port as its row says, 1 to 8, or `readers` for 0. `readers` is 1 to 8, else OUT_OF_RANGE. FAULTY, and
/// the fault of [`wanted_in_text`] of a text that says the same, but for its line; a row's number of readers above 8 is a
/// fault of its port.
pub(crate) fn wanted_in_table<'a>(
    alloc: Global,
    constant: &[u8; 4],
    links: &[LinkRow],
    ports: &'a [PortRow],
    readers: usize,
    fault: &mut FaultReply,
) -> Result<Wanted<'a>, u32>
    ensures ok { IfOk result (λ wanted. (table_of constant.now links.now ports.now ≡ Ok wanted.config) × (wanted.readers.others ≡ readers) × (wanted.readers.rows.now ≡ ports.now)) }
    ensures fault { result ≡ Err faulty → HasTableFault constant.now links.now ports.now fault.new }
    ensures range { (result ≡ Err out_of_range) ↔ (is_reader_count readers ≡ false) }
    ensures others { result ≢ Err faulty → fault.new ≡ fault.old }
    ensures codes { IfErr result (λ code. (code ≡ faulty) ⊎ ((code ≡ no_memory) ⊎ (code ≡ out_of_range))) }
{
    let Some(others) = ReaderCount::new(readers) else {
        return Err(OUT_OF_RANGE);
    };
    let config = match config_of_table(alloc, *constant, links, ports) {
        Ok(config) => config,
        Err(found) => {
            if found.fault == ConfigFault::Memory {
                return Err(NO_MEMORY);
            }
            *fault = fault_reply_of(found.fault, found.place, 0);
            return Err(FAULTY);
        }
    };
    let readers = PortReaders {
        rows: ports,
        others,
    };
    Ok(Wanted { config, readers })
}
