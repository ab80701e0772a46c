//! A port of the document.
ghost use Rattle.std.specs.Prelude.{◌≡◌, ◌++◌, List, true, false, IfOk};
ghost use Rattle.std.specs.List.{list_any};
ghost use Rattle.toml.specs.View.{table_view};
ghost use Rattle.es_base.specs.Port.{Port, accepts, is_kind_within_limits, largest_payload};
ghost use Rattle.vl_config.specs.Names.{is_among_names, AreNamesOf};
ghost use Rattle.vl_config.specs.Port.{port_from, name_at, service_at, address_at, address_from, largest_message, kind_from};

use crate::document::table::{integer_at, integer_or, text_at, u16_value_at};
use crate::names::Names;
use crate::{ConfigFault, Key};
use es_base::{
    DEEPEST_QUEUE, LONGEST_QUEUED, LONGEST_REFRESH, LONGEST_SAMPLE, PortKind, PortName,
    PortSettings, any_accepts,
};
use std::net::Ipv4Addr;
use toml::Table;

/// The two port services (ARINC 664 Part 7, port services).
#[derive(Clone, Copy, Debug)]
pub(crate) enum Service {
    Sampling,
    Queuing,
}

/// The port of this table. `names` are the names of all ports of the document that were read before it, `ports`
/// those ports of them that are of the same link.
pub(crate) fn port_from(
    table: &Table,
    names: &Names,
    ports: &[PortSettings],
) -> Result<PortSettings, ConfigFault>
    ensures value { (earlier : List Port) → AreNamesOf names.now (earlier ++ ports.now) → result ≡ port_from earlier ports.now (table_view table.now) }
    ensures name { IfOk result (λ port. is_among_names names.now port.name ≡ false) }
    ensures apart { IfOk result (λ port. list_any (accepts port.address port.udp) ports.now ≡ false) }
{
    let name = name_at(table)?;
    let service = service_at(table)?;
    let address = address_at(table)?;
    let udp = u16_value_at(table, Key::Udp)?;
    let largest = largest_message(service);
    let max = integer_or(table, Key::Max, largest, 0, largest)? as u16;
    let kind = kind_from(table, service)?;
    if names.has(&name) {
        return Err(ConfigFault::DoubleName);
    }
    if any_accepts(ports, address, udp) {
        return Err(ConfigFault::DoublePort);
    }
    Ok(PortSettings::new(name, address, udp, max, kind).unwrap())
}

fn name_at(table: &Table) -> Result<PortName, ConfigFault>
    ensures { result ≡ name_at (table_view table.now) }
{
    let text = text_at(table, Key::Name)?;
    PortName::new(text).ok_or(ConfigFault::Range(Key::Name))
}

fn service_at(table: &Table) -> Result<Service, ConfigFault>
    ensures { result ≡ service_at (table_view table.now) }
{
    match text_at(table, Key::Kind)? {
        "sampling" => Ok(Service::Sampling),
        "queuing" => Ok(Service::Queuing),
        _ => Err(ConfigFault::Range(Key::Kind)),
    }
}

/// The IPv4 destination address, in network order.
fn address_at(table: &Table) -> Result<u32, ConfigFault>
    ensures { result ≡ address_at (table_view table.now) }
{
    let text = text_at(table, Key::Address)?;
    address_from(text)
}

fn address_from(text: &str) -> Result<u32, ConfigFault>
    ensures { result ≡ address_from text.now }
{
    match text.parse::<Ipv4Addr>() {
        Ok(address) => Ok(address.to_bits()),
        Err(_) => Err(ConfigFault::Range(Key::Address)),
    }
}

/// Longest message of a port with this service, in octets.
pub(crate) fn largest_message(service: Service) -> u64
    ensures { result ≡ largest_message service }
{
    match service {
        Service::Sampling => u64::from(LONGEST_SAMPLE),
        Service::Queuing => u64::from(LONGEST_QUEUED),
    }
}

/// The kind of a port with this service: with its refresh period, 0 to 1,000,000,000 microseconds, or
/// with its depth, 1 to 64 messages.
fn kind_from(table: &Table, service: Service) -> Result<PortKind, ConfigFault>
    ensures value { result ≡ kind_from service (table_view table.now) }
    ensures limits { IfOk result (λ kind. (is_kind_within_limits kind ≡ true) × (largest_payload kind ≡ largest_message service)) }
{
    match service {
        Service::Sampling => {
            let refresh = integer_at(table, Key::RefreshUs, 0, LONGEST_REFRESH)?;
            Ok(PortKind::Sampling { refresh })
        }
        Service::Queuing => {
            let depth = integer_at(table, Key::Depth, 1, u64::from(DEEPEST_QUEUE))?;
            Ok(PortKind::Queuing { depth: depth as u8 })
        }
    }
}
