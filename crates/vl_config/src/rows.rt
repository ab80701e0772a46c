//! A configuration from a table of numbers, without a text.
ghost use Rattle.std.specs.Prelude.{◌≡◌, ◌≤◌, ◌++◌, List, [], drop, length, take, true, false, IfErr, IfOk};
ghost use Rattle.std.specs.List.{list_any, IsDistinct};
ghost use Rattle.es_base.specs.Config.{AreLinks, has_link_number, ports_in, same_name};
ghost use Rattle.es_base.specs.Limits.{longest_reassembly, longest_skew, most_links, most_ports, widest_window};
ghost use Rattle.es_base.specs.Port.{Port, accepts, are_apart, is_kind_within_limits, largest_payload};
ghost use Rattle.es_base.specs.Returns.{Gives};
ghost use Rattle.vl_config.specs.Place.{nowhere};
ghost use Rattle.vl_config.specs.Names.{AreNamesOf, is_among_names};
ghost use Rattle.vl_config.specs.Port.{largest_message};
ghost use Rattle.vl_config.specs.Rows.{GivesLink, GivesRow, GivesTable, bounded, has_row_name, head_of_row, if_none_left, kind_of_row, link_number_of_row, link_of_row, links_of_rows, name_of_row, port_of_row, ports_of_rows, readers_of_row, redundancy_of_row, rows_of_link, service_of_row, table_of};

use crate::document::link::has_link_number;
use crate::document::octets::text_of;
use crate::document::place::NOWHERE;
use crate::document::port::{Service, largest_message};
use crate::names::Names;
use crate::{Config, ConfigFault, FaultPlace, Key, MOST_LINKS};
use es_base::{
    DEEPEST_QUEUE, LONGEST_REASSEMBLY, LONGEST_REFRESH, LONGEST_SKEW, LinkNo, LinkSettings, Links,
    MOST_PORTS, MOST_READERS, PortKind, PortName, PortSettings, WIDEST_WINDOW, any_accepts,
};
use std::alloc::Global;

/// A link of a table. Its ports are the next of the table's ports.
#[repr(C)]
#[derive(Clone, Copy, Debug, Drop, PartialEq, Eq)]
pub struct LinkRow {
    /// Its link number.
    pub vl: u32,
    /// 1 if redundancy management is on, else 0.
    pub redundancy: u32,
    /// SkewMax in microseconds.
    pub skew_max: u64,
    /// The limit of reassembly in microseconds.
    pub reassembly: u64,
    /// The window of integrity checking.
    pub window: u32,
    /// Number of its ports.
    pub ports: usize,
}

/// A port of a table.
#[repr(C)]
#[derive(Clone, Copy, Debug, Drop, PartialEq, Eq)]
pub struct PortRow {
    /// 1: it samples. 2: it queues.
    pub service: u32,
    /// The IPv4 address of its datagrams, in network order.
    pub address: u32,
    /// Their UDP port.
    pub udp: u32,
    /// The longest message, in octets.
    pub max: u32,
    /// The refresh period in microseconds, or the depth of the queue.
    pub limit: u64,
    /// Length of its name, in octets.
    pub name_len: usize,
    /// Its name, at the beginning.
    pub name: [u8; 16],
    /// Number of its readers if it samples, 1 to 8; 0: as many as the opening is told. The configuration doesn't have
    /// it.
    pub readers: u32,
}

impl PortRow {
    /// Whether this is its name.
    pub fn has_name(&self, name: &str) -> bool
        ensures { result ≡ has_row_name name.now self.now }
    {
        match name_of_row(self) {
            Ok(own) => own.as_str() == name,
            Err(_) => false,
        }
    }
}

/// A number from `least` to `greatest`.
fn bounded(number: u64, key: Key, least: u64, greatest: u64) -> Result<u64, ConfigFault>
    ensures value { result ≡ bounded key least greatest number }
    ensures limits { IfOk result (λ number. (least ≤ number) × (number ≤ greatest)) }
{
    if least <= number && number <= greatest {
        Ok(number)
    } else {
        Err(ConfigFault::Range(key))
    }
}

fn name_of_row(row: &PortRow) -> Result<PortName, ConfigFault>
    ensures { result ≡ name_of_row row.now }
{
    if row.name_len > 16 {
        return Err(ConfigFault::Range(Key::Name));
    }
    let octets = &row.name[..row.name_len];
    match text_of(octets) {
        Some(text) => PortName::new(text).ok_or(ConfigFault::Range(Key::Name)),
        None => Err(ConfigFault::Range(Key::Name)),
    }
}

fn service_of_row(row: &PortRow) -> Result<Service, ConfigFault>
    ensures { result ≡ service_of_row row.now }
{
    match row.service {
        1 => Ok(Service::Sampling),
        2 => Ok(Service::Queuing),
        _ => Err(ConfigFault::Range(Key::Kind)),
    }
}

fn kind_of_row(row: &PortRow, service: Service) -> Result<PortKind, ConfigFault>
    ensures value { result ≡ kind_of_row service row.now }
    ensures limits { IfOk result (λ kind. (is_kind_within_limits kind ≡ true) × (largest_payload kind ≡ largest_message service)) }
{
    match service {
        Service::Sampling => {
            let refresh = bounded(row.limit, Key::RefreshUs, 0, LONGEST_REFRESH)?;
            Ok(PortKind::Sampling { refresh })
        }
        Service::Queuing => {
            let depth = bounded(row.limit, Key::Depth, 1, u64::from(DEEPEST_QUEUE))?;
            Ok(PortKind::Queuing { depth: depth as u8 })
        }
    }
}

/// Number of readers of the row of a port that samples, 0 to 8; 0 for another, whose number says nothing.
fn readers_of_row(row: &PortRow, service: Service) -> Result<u64, ConfigFault>
    ensures { result ≡ readers_of_row service row.now }
{
    match service {
        Service::Sampling => bounded(u64::from(row.readers), Key::Readers, 0, MOST_READERS as u64),
        Service::Queuing => Ok(0),
    }
}

/// The port of this row. `names` are the names of all ports of the table that were read before it, `ports` those ports
/// of them that are of the same link.
fn port_of_row(
    row: &PortRow,
    names: &Names,
    ports: &[PortSettings],
) -> Result<PortSettings, ConfigFault>
    ensures value { (earlier : List Port) → AreNamesOf names.now (earlier ++ ports.now) → result ≡ port_of_row earlier ports.now row.now }
    ensures name { IfOk result (λ port. is_among_names names.now port.name ≡ false) }
    ensures apart { IfOk result (λ port. list_any (accepts port.address port.udp) ports.now ≡ false) }
{
    let name = name_of_row(row)?;
    let service = service_of_row(row)?;
    let address = row.address;
    let udp = bounded(u64::from(row.udp), Key::Udp, 0, u64::from(u16::MAX))? as u16;
    let largest = largest_message(service);
    let max = bounded(u64::from(row.max), Key::Max, 0, largest)? as u16;
    let kind = kind_of_row(row, service)?;
    readers_of_row(row, service)?;
    if names.has(&name) {
        return Err(ConfigFault::DoubleName);
    }
    if any_accepts(ports, address, udp) {
        return Err(ConfigFault::DoublePort);
    }
    Ok(PortSettings::new(name, address, udp, max, kind).unwrap())
}

/// The ports of these rows, or the first fault with the place of its port. `names` are the names of the ports of
/// earlier links, to which those of these ports are added.
fn ports_of_rows(
    alloc: Global,
    rows: &[PortRow],
    names: &mut Names,
) -> Result<Vec<PortSettings>, (ConfigFault, usize)>
    ensures value { (earlier : List Port) → AreNamesOf names.old earlier → GivesRow (λ ports. ports.items) result (ports_of_rows earlier rows.now) }
    ensures apart { IfOk result (λ ports. are_apart ports.items ≡ true) }
    ensures few { IfOk result (λ ports. length ports.items ≡ length rows.now) }
    ensures distinct { IfOk result (λ ports. (earlier : List Port) → AreNamesOf names.old earlier → IsDistinct same_name earlier
        → IsDistinct same_name (earlier ++ ports.items)) }
    ensures names { IfOk result (λ ports. (earlier : List Port) → AreNamesOf names.old earlier → AreNamesOf names.new (earlier ++ ports.items)) }
{
    let Ok(mut ports) = Vec::with_capacity(alloc, rows.len()) else {
        return Err((ConfigFault::Memory, 0));
    };
    for row in rows {
        let port = match port_of_row(row, names, &ports) {
            Ok(port) => port,
            Err(fault) => return Err((fault, ports.len())),
        };
        let Ok(()) = names.add(&port) else {
            return Err((ConfigFault::Memory, 0));
        };
        let Ok(()) = ports.push(port) else {
            return Err((ConfigFault::Memory, 0));
        };
    }
    Ok(ports)
}

/// A fault of a table, and where it stands.
#[derive(Clone, Copy, Debug, Drop, PartialEq, Eq)]
pub struct TableFault {
    pub fault: ConfigFault,
    pub place: FaultPlace,
}

/// Head of a link, from its row, and the rows of its ports.
#[derive(Drop)]
struct RowHead<'a> {
    vl: LinkNo,
    skew_max: u64,
    redundancy: bool,
    reassembly: u64,
    window: u8,
    rows: &'a [PortRow],
}

fn redundancy_of_row(row: &LinkRow) -> Result<bool, ConfigFault>
    ensures { result ≡ redundancy_of_row row.now }
{
    match row.redundancy {
        0 => Ok(false),
        1 => Ok(true),
        _ => Err(ConfigFault::Range(Key::Redundancy)),
    }
}

/// The link number, 0 to 65,535, which no earlier link has.
fn link_number_of_row(row: &LinkRow, links: &[LinkSettings]) -> Result<LinkNo, ConfigFault>
    ensures value { Gives (λ vl. vl.0) result (link_number_of_row links.now row.now) }
    ensures fresh { IfOk result (λ vl. list_any (has_link_number vl.0) links.now ≡ false) }
{
    let vl = bounded(u64::from(row.vl), Key::Vl, 0, u64::from(u16::MAX))? as u16;
    if has_link_number(links, vl) {
        Err(ConfigFault::DoubleLink)
    } else {
        Ok(LinkNo(vl))
    }
}

/// The rows of a link's ports: the first of those that are left.
fn rows_of_link<'a>(row: &LinkRow, rest: &'a [PortRow]) -> Result<&'a [PortRow], ConfigFault>
    ensures value { Gives (λ rows. rows.now) result (rows_of_link rest.now row.now) }
    ensures limits { IfOk result (λ rows. (length rows.now ≤ most_ports) × (row.now.ports ≤ length rest.now)) }
{
    if row.ports > MOST_PORTS {
        Err(ConfigFault::TooMany)
    } else if row.ports > rest.len() {
        Err(ConfigFault::Missing(Key::Port))
    } else {
        Ok(&rest[..row.ports])
    }
}

fn head_of_row<'a>(
    row: &LinkRow,
    rest: &'a [PortRow],
    links: &[LinkSettings],
) -> Result<RowHead<'a>, ConfigFault>
    ensures value { Gives (λ head. record {
      vl = head.vl.0;
      skew_max = head.skew_max;
      redundancy = head.redundancy;
      reassembly = head.reassembly;
      window = head.window;
      rows = head.rows.now;
    }) result (head_of_row links.now rest.now row.now) }
    ensures fresh { IfOk result (λ head. list_any (has_link_number head.vl.0) links.now ≡ false) }
    ensures times { IfOk result (λ head. (head.skew_max ≤ longest_skew) × (head.reassembly ≤ longest_reassembly)) }
    ensures window { IfOk result (λ head. (1 ≤ head.window) × (head.window ≤ widest_window)) }
    ensures ports { IfOk result (λ head. (length head.rows.now ≤ most_ports) × (row.now.ports ≤ length rest.now)) }
{
    let vl = link_number_of_row(row, links)?;
    let skew_max = bounded(row.skew_max, Key::SkewMaxUs, 0, LONGEST_SKEW)?;
    let redundancy = redundancy_of_row(row)?;
    let reassembly = bounded(row.reassembly, Key::ReassemblyUs, 0, LONGEST_REASSEMBLY)?;
    let window = bounded(
        u64::from(row.window),
        Key::Window,
        1,
        u64::from(WIDEST_WINDOW),
    )? as u8;
    let rows = rows_of_link(row, rest)?;
    Ok(RowHead {
        vl,
        skew_max,
        redundancy,
        reassembly,
        window,
        rows,
    })
}

/// The link of this row. `links` are the links of the table that were read before it, `rest` the rows of the ports of
/// this one and of those after it, `names` the names of the ports of earlier links, to which those of this link's are
/// added.
fn link_of_row(
    alloc: Global,
    row: &LinkRow,
    rest: &[PortRow],
    links: &[LinkSettings],
    names: &mut Names,
) -> Result<LinkSettings, (ConfigFault, Option<usize>)>
    requires distinct { IsDistinct same_name (ports_in links.now) }
    requires names { AreNamesOf names.old (ports_in links.now) }
    ensures value { GivesLink result (link_of_row links.now rest.now row.now) }
    ensures rows { IfOk result (λ link. row.now.ports ≤ length rest.now) }
    ensures fresh { IfOk result (λ link. list_any (has_link_number link.vl.0) links.now ≡ false) }
    ensures distinct { IfOk result (λ link. IsDistinct same_name (ports_in links.now ++ link.ports)) }
    ensures names { IfOk result (λ link. AreNamesOf names.new (ports_in links.now ++ link.ports)) }
{
    let head = match head_of_row(row, rest, links) {
        Ok(head) => head,
        Err(fault) => return Err((fault, None)),
    };
    match ports_of_rows(alloc, head.rows, names) {
        Ok(ports) => Ok(LinkSettings::new(
            head.vl,
            head.skew_max,
            head.redundancy,
            head.reassembly,
            head.window,
            ports,
        )
        .unwrap()),
        Err((fault, at)) => Err((fault, Some(at))),
    }
}

/// The links of these rows, whose ports are these rows one after another.
fn links_of_rows(alloc: Global, rows: &[LinkRow], ports: &[PortRow]) -> Result<Links, TableFault>
    requires some { 1 ≤ length rows.now }
    requires few { length rows.now ≤ most_links }
    ensures value { GivesTable (λ links. links) result (links_of_rows [] ports.now rows.now) }
    ensures limits { IfOk result (λ links. AreLinks links) }
{
    let mut links = Links::new(alloc);
    let mut names = Names::new(alloc);
    let mut rest = ports;
    for row in rows {
        let link = match link_of_row(alloc, row, rest, links.as_slice(), &mut names) {
            Ok(link) => link,
            Err((fault, port)) => {
                let link = Some(links.as_slice().len());
                return Err(TableFault {
                    fault,
                    place: FaultPlace { link, port },
                });
            }
        };
        let Ok(()) = links.push(link) else {
            return Err(nowhere(ConfigFault::Memory));
        };
        rest = rows_after(rest, row.ports);
    }
    all_of(links, rest)
}

/// These links, if no row of a port is left.
fn all_of(links: Links, rest: &[PortRow]) -> Result<Links, TableFault>
    ensures value { GivesTable (λ links. links) result (if_none_left rest.now links) }
    ensures same { IfOk result (λ all. all ≡ links) }
{
    if rest.is_empty() {
        Ok(links)
    } else {
        Err(nowhere(ConfigFault::TooMany))
    }
}

/// The rows after these first ones.
fn rows_after(rows: &[PortRow], first: usize) -> &[PortRow]
    requires { first ≤ length rows.now }
    ensures { result.now ≡ drop first rows.now }
{
    &rows[first..]
}

/// A fault that is about no link.
fn nowhere(fault: ConfigFault) -> TableFault
    ensures { (result.fault ≡ fault) × (result.place ≡ nowhere) }
{
    TableFault {
        fault,
        place: NOWHERE,
    }
}

/// The configuration of a table: the constant field, the links, and their ports one after another. The first fault is
/// returned, in the order of [`read_config`](crate::read_config), with its place; ports that belong to no link are too
/// many.
pub fn config_of_table(
    alloc: Global,
    constant: [u8; 4],
    links: &[LinkRow],
    ports: &[PortRow],
) -> Result<Config, TableFault>
    ensures { GivesTable (λ config. config) result (table_of constant links.now ports.now) }
{
    if links.is_empty() {
        return Err(nowhere(ConfigFault::Missing(Key::Link)));
    }
    if links.len() > MOST_LINKS {
        return Err(nowhere(ConfigFault::TooMany));
    }
    let links = links_of_rows(alloc, links, ports)?;
    Ok(Config::new(constant, links))
}
