//! The first table of a document with a key that isn't its own.
ghost use Rattle.std.specs.Prelude.{◌≡◌, List, Result, map, IfOk};
ghost use Rattle.toml.specs.Data.{Members};
ghost use Rattle.toml.specs.View.{table_view};
ghost use Rattle.vl_config.specs.declared.fault.ConfigFault.{ConfigFault};
ghost use Rattle.vl_config.specs.Fault.{GivesOrMemory};
ghost use Rattle.vl_config.specs.Stray.{first_stray, has_stray, or_none, placed_link, placed_links, placed_ports, placed_tables, stray_place_of};

use crate::document::keys::{Level, is_own};
use crate::document::link::port_tables;
use crate::document::link_tables;
use crate::document::place::NOWHERE;
use crate::{ConfigFault, FaultPlace};
use es_base::Memory;
use std::alloc::{AllocError, Global};
use toml::Table;

/// The first table of a document with a key that isn't its own.
#[derive(Clone, Copy, Debug, Drop, PartialEq, Eq)]
pub struct Stray {
    /// Place of the table: the document's own is at no link, that of a link at no port.
    pub place: FaultPlace,
    /// Line, from 1, of the first such key in the table, or of the table's heading; 0 if none is found.
    pub line: u64,
}

/// Place of the first table of this text with a key that isn't its own. None if the text is no TOML document.
#[tactic(auto, unfolding(crate::specs::Stray::stray_place_of))]
pub(crate) fn stray_place_of(alloc: Global, text: &str) -> Result<Option<FaultPlace>, Memory>
    ensures { IfOk result (λ place. place ≡ stray_place_of text.now) }
{
    match toml::table_from_str(alloc, text) {
        Ok(document) => stray_place_in(alloc, &document),
        Err(error) if error.is_memory() => Err(AllocError),
        Err(_) => Ok(None),
    }
}

fn stray_place_in(alloc: Global, document: &Table) -> Result<Option<FaultPlace>, Memory>
    ensures { IfOk result (λ place. place ≡ first_stray (placed_tables (table_view document.now))) }
{
    if has_stray(Level::Document, document) {
        return Ok(Some(NOWHERE));
    }
    let tables = or_none(alloc, link_tables(alloc, document))?;
    stray_at_links(alloc, &tables)
}

fn stray_at_links(alloc: Global, tables: &[&Table]) -> Result<Option<FaultPlace>, Memory>
    ensures { IfOk result (λ place. place ≡ first_stray (placed_links 0 (map (λ table. table_view table.now) tables.now))) }
{
    for (link, table) in tables.iter().enumerate() {
        if let Some(place) = stray_at_link(alloc, link, table)? {
            return Ok(Some(place));
        }
    }
    Ok(None)
}

/// In the table of the link at this place, or in one of its ports.
fn stray_at_link(alloc: Global, link: usize, table: &Table) -> Result<Option<FaultPlace>, Memory>
    ensures { IfOk result (λ place. place ≡ first_stray (placed_link link (table_view table.now))) }
{
    if has_stray(Level::Link, table) {
        return Ok(Some(FaultPlace {
            link: Some(link),
            port: None,
        }));
    }
    let tables = or_none(alloc, port_tables(alloc, table))?;
    Ok(stray_at_ports(link, &tables))
}

/// At one of these ports of the link at this place.
fn stray_at_ports(link: usize, tables: &[&Table]) -> Option<FaultPlace>
    ensures { result ≡ first_stray (placed_ports link 0 (map (λ table. table_view table.now) tables.now)) }
{
    for (port, table) in tables.iter().enumerate() {
        if has_stray(Level::Port, table) {
            return Some(FaultPlace {
                link: Some(link),
                port: Some(port),
            });
        }
    }
    None
}

/// These tables, or none where there was a fault.
fn or_none<'a>(
    alloc: Global,
    tables: Result<Vec<&'a Table>, ConfigFault>,
) -> Result<Vec<&'a Table>, Memory>
    ensures { (wanted : Result (List Members) ConfigFault)
        → GivesOrMemory (λ tables. map (λ table. table_view table.now) tables.items) tables.entry wanted
        → IfOk result (λ tables. map (λ table. table_view table.now) tables.items ≡ or_none wanted) }
{
    match tables {
        Ok(tables) => Ok(tables),
        Err(ConfigFault::Memory) => Err(AllocError),
        Err(_) => Ok(Vec::new(alloc)),
    }
}

/// Whether a key of this table isn't its own.
fn has_stray(level: Level, table: &Table) -> bool
    ensures { result ≡ has_stray level (table_view table.now) }
{
    table
        .keys()
        .any(|key| !is_own(level, key.as_str().as_bytes()))
}
