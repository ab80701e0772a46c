//! Place of a document's first fault.
ghost use Rattle.std.specs.Prelude.{◌≡◌, ◌≤◌, ◌++◌, List, [], map, length, IfOk};
ghost use Rattle.std.specs.List.{IsDistinct};
ghost use Rattle.toml.specs.View.{table_view};
ghost use Rattle.es_base.specs.Config.{ports_in, same_name};
ghost use Rattle.es_base.specs.Port.{Port};
ghost use Rattle.vl_config.specs.Names.{AreNamesOf};
ghost use Rattle.vl_config.specs.Link.{head_from};
ghost use Rattle.vl_config.specs.Place.{link_place, fault_place_of, port_place, port_place_if};

use crate::document::link::{head_from, link_from};
use crate::document::port::port_from;
use crate::document::table::value_at;
use crate::document::{constant_if, link_tables};
use crate::names::{Names, names_of};
use crate::{ConfigFault, Key};
use es_base::{LinkSettings, Links, Memory, PortSettings};
use std::alloc::{AllocError, Global};
use toml::Table;

/// Link and port of a fault, by their places in the document, from 0. None: it is about no link, or about no port.
#[derive(Clone, Copy, Debug, Drop, PartialEq, Eq)]
pub struct FaultPlace {
    pub link: Option<usize>,
    pub port: Option<usize>,
}

/// At no link.
pub(crate) const NOWHERE: FaultPlace = FaultPlace {
    link: None,
    port: None,
};

/// Place of the fault that [`read_config`](crate::read_config) returns of this text. It reads the text again.
#[tactic(auto, unfolding(crate::specs::Place::fault_place_of), using(crate::proofs::Links::none_distinct))]
pub fn place_of_fault(alloc: Global, text: &str) -> Result<FaultPlace, Memory>
    ensures { IfOk result (λ place. place ≡ fault_place_of text.now) }
{
    let document = match toml::table_from_str(alloc, text) {
        Ok(document) => document,
        Err(error) => return if error.is_memory() {
            Err(AllocError)
        } else {
            Ok(NOWHERE)
        },
    };
    if constant_if(value_at(&document, Key::Constant)).is_err() {
        return Ok(NOWHERE);
    }
    match link_tables(alloc, &document) {
        Ok(tables) => link_place(alloc, &tables, Links::new(alloc), Names::new(alloc)),
        Err(ConfigFault::Memory) => Err(AllocError),
        Err(_) => Ok(NOWHERE),
    }
}

/// The place of the first link with a fault among these tables, after these links, whose ports have these names.
fn link_place(
    alloc: Global,
    tables: &[&Table],
    links: Links,
    names: Names,
) -> Result<FaultPlace, Memory>
    requires distinct { IsDistinct same_name (ports_in links) }
    requires names { AreNamesOf names (ports_in links) }
    ensures { IfOk result (λ place. place ≡ link_place links (map (λ table. table_view table.now) tables.now)) }
{
    let mut links = links;
    let mut names = names;
    for table in tables {
        match link_from(alloc, table, links.as_slice(), &mut names) {
            Ok(link) => links.push(link)?,
            Err(ConfigFault::Memory) => return Err(AllocError),
            Err(_) => {
                return Ok(FaultPlace {
                    link: Some(links.as_slice().len()),
                    port: port_place_in(alloc, table, links.as_slice())?,
                });
            }
        }
    }
    Ok(NOWHERE)
}

/// The place of the first port with a fault at the link of this table. None if the fault is about none of them. The
/// names of the earlier links are collected anew, since those that were kept up to the fault may have some of this
/// link.
fn port_place_in(
    alloc: Global,
    table: &Table,
    links: &[LinkSettings],
) -> Result<Option<usize>, Memory>
    ensures { IfOk result (λ place. place ≡ port_place_if (ports_in links.now) (head_from links.now (table_view table.now))) }
{
    match head_from(alloc, table, links) {
        Ok(head) => port_place(
            alloc,
            &head.tables,
            names_of(alloc, links)?,
            Vec::new(alloc),
        ),
        Err(ConfigFault::Memory) => Err(AllocError),
        Err(_) => Ok(None),
    }
}

/// The place of the first port with a fault among these tables, after these ports of its link. `names` are the names
/// of all ports of the document before it.
fn port_place(
    alloc: Global,
    tables: &[&Table],
    names: Names,
    ports: Vec<PortSettings>,
) -> Result<Option<usize>, Memory>
    ensures { (earlier : List Port) → AreNamesOf names (earlier ++ ports.items)
        → IfOk result (λ place. place ≡ port_place earlier ports.items (map (λ table. table_view table.now) tables.now)) }
{
    let mut names = names;
    let mut ports = ports;
    for table in tables {
        let Ok(port) = port_from(table, &names, &ports) else {
            return Ok(Some(ports.len()));
        };
        names.add(&port)?;
        ports.push(port)?;
    }
    Ok(None)
}
