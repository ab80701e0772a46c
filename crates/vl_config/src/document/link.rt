//! A link of the document.
ghost use Rattle.std.specs.Prelude.{◌≡◌, ◌≤◌, ◌++◌, List, map, length, true, false, IfOk};
ghost use Rattle.std.specs.List.{list_any, IsDistinct};
ghost use Rattle.toml.specs.View.{table_view};
ghost use Rattle.es_base.specs.Returns.{Gives};
ghost use Rattle.es_base.specs.Limits.{longest_reassembly, longest_skew, most_ports, widest_window};
ghost use Rattle.es_base.specs.Port.{Port, are_apart};
ghost use Rattle.es_base.specs.Config.{has_link_number, same_name, ports_in};
ghost use Rattle.vl_config.specs.Fault.{GivesOrMemory};
ghost use Rattle.vl_config.specs.Names.{AreNamesOf};
ghost use Rattle.vl_config.specs.Link.{head_from, link_from, link_number_from, window_from, port_tables, ports_from};

use crate::document::port::port_from;
use crate::document::table::{
    flag_or, integer_at, integer_or, tables_from, u16_value_at, value_at,
};
use crate::names::Names;
use crate::{ConfigFault, Key};
use es_base::{
    LONGEST_REASSEMBLY, LONGEST_SKEW, LinkNo, LinkSettings, MOST_PORTS, PortSettings, WIDEST_WINDOW,
};
use std::alloc::Global;
use toml::Table;

/// Default window of integrity checking, in sequence numbers (own).
const DEFAULT_WINDOW: u64 = 2;

/// The link of this table. `links` are the links of the document that were read before it, `names` the names of
/// their ports, to which those of this link's ports are added.
pub(crate) fn link_from(
    alloc: Global,
    table: &Table,
    links: &[LinkSettings],
    names: &mut Names,
) -> Result<LinkSettings, ConfigFault>
    requires distinct { IsDistinct same_name (ports_in links.now) }
    requires names { AreNamesOf names.old (ports_in links.now) }
    ensures value { GivesOrMemory (λ link. link) result (link_from links.now (table_view table.now)) }
    ensures fresh { IfOk result (λ link. list_any (has_link_number link.vl.0) links.now ≡ false) }
    ensures distinct { IfOk result (λ link. IsDistinct same_name (ports_in links.now ++ link.ports)) }
    ensures names { IfOk result (λ link. AreNamesOf names.new (ports_in links.now ++ link.ports)) }
{
    let head = head_from(alloc, table, links)?;
    let ports = ports_from(alloc, &head.tables, names)?;
    Ok(LinkSettings::new(
        head.vl,
        head.skew_max,
        head.redundancy,
        head.reassembly,
        head.window,
        ports,
    )
    .unwrap())
}

/// Head of a link's table, the part before its ports, and the tables of these.
#[derive(Drop)]
pub(crate) struct Head<'a> {
    pub(crate) vl: LinkNo,
    pub(crate) skew_max: u64,
    pub(crate) redundancy: bool,
    pub(crate) reassembly: u64,
    pub(crate) window: u8,
    pub(crate) tables: Vec<&'a Table>,
}

/// The head of this table, the part before its ports. `links` are the links of the document that were read before it.
pub(crate) fn head_from<'a>(
    alloc: Global,
    table: &'a Table,
    links: &[LinkSettings],
) -> Result<Head<'a>, ConfigFault>
    ensures value { GivesOrMemory (λ head. record {
      vl = head.vl.0;
      skew_max = head.skew_max;
      redundancy = head.redundancy;
      reassembly = head.reassembly;
      window = head.window;
      tables = map (λ table. table_view table.now) head.tables.items;
    }) result (head_from links.now (table_view table.now)) }
    ensures fresh { IfOk result (λ head. list_any (has_link_number head.vl.0) links.now ≡ false) }
    ensures times { IfOk result (λ head. (head.skew_max ≤ longest_skew) × (head.reassembly ≤ longest_reassembly)) }
    ensures window { IfOk result (λ head. (1 ≤ head.window) × (head.window ≤ widest_window)) }
    ensures ports { IfOk result (λ head. length head.tables.items ≤ most_ports) }
{
    let vl = link_number_from(table, links)?;
    let skew_max = integer_at(table, Key::SkewMaxUs, 0, LONGEST_SKEW)?;
    let redundancy = flag_or(table, Key::Redundancy, true)?;
    let reassembly = integer_at(table, Key::ReassemblyUs, 0, LONGEST_REASSEMBLY)?;
    let window = window_from(table)?;
    let tables = port_tables(alloc, table)?;
    Ok(Head {
        vl,
        skew_max,
        redundancy,
        reassembly,
        window,
        tables,
    })
}

/// The window of integrity checking, 1 to 4 sequence numbers.
fn window_from(table: &Table) -> Result<u8, ConfigFault>
    ensures value { result ≡ window_from (table_view table.now) }
    ensures limits { IfOk result (λ window. (1 ≤ window) × (window ≤ widest_window)) }
{
    let widest = u64::from(WIDEST_WINDOW);
    let window = integer_or(table, Key::Window, DEFAULT_WINDOW, 1, widest)?;
    Ok(window as u8)
}

/// The link number, 0 to 65,535, which no earlier link has.
fn link_number_from(table: &Table, links: &[LinkSettings]) -> Result<LinkNo, ConfigFault>
    ensures value { Gives (λ vl. vl.0) result (link_number_from links.now (table_view table.now)) }
    ensures fresh { IfOk result (λ vl. list_any (has_link_number vl.0) links.now ≡ false) }
{
    let vl = u16_value_at(table, Key::Vl)?;
    if has_link_number(links, vl) {
        Err(ConfigFault::DoubleLink)
    } else {
        Ok(LinkNo(vl))
    }
}

pub(crate) fn has_link_number(links: &[LinkSettings], vl: u16) -> bool
    ensures { result ≡ list_any (has_link_number vl) links.now }
{
    links.iter().any(|link| link.vl().0 == vl)
}

/// The tables of the link's ports: 0 to 32.
pub(crate) fn port_tables<'a>(
    alloc: Global,
    table: &'a Table,
) -> Result<Vec<&'a Table>, ConfigFault>
    ensures value { GivesOrMemory (λ tables. map (λ table. table_view table.now) tables.items) result
        (port_tables (table_view table.now)) }
    ensures limit { IfOk result (λ tables. length tables.items ≤ most_ports) }
{
    match value_at(table, Key::Port) {
        None => Ok(Vec::new(alloc)),
        Some(value) => tables_from(alloc, value, Key::Port, MOST_PORTS),
    }
}

/// The ports of these tables. `names` are the names of the ports of earlier links, to which those of these ports
/// are added.
fn ports_from(
    alloc: Global,
    tables: &[&Table],
    names: &mut Names,
) -> Result<Vec<PortSettings>, ConfigFault>
    ensures value { (earlier : List Port) → AreNamesOf names.old earlier → GivesOrMemory (λ ports. ports.items) result
        (ports_from earlier (map (λ table. table_view table.now) tables.now)) }
    ensures few { IfOk result (λ ports. length ports.items ≡ length tables.now) }
    ensures apart { IfOk result (λ ports. are_apart ports.items ≡ true) }
    ensures distinct { IfOk result (λ ports. (earlier : List Port) → AreNamesOf names.old earlier → IsDistinct same_name earlier
        → IsDistinct same_name (earlier ++ ports.items)) }
    ensures names { IfOk result (λ ports. (earlier : List Port) → AreNamesOf names.old earlier → AreNamesOf names.new (earlier ++ ports.items)) }
{
    let mut ports = Vec::with_capacity(alloc, tables.len())?;
    for table in tables {
        let port = port_from(table, names, &ports)?;
        names.add(&port)?;
        ports.push(port)?;
    }
    Ok(ports)
}
