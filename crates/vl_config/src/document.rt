//! A whole document.
ghost use Rattle.std.specs.Prelude.{◌≡◌, ◌≤◌, map, option_map, length, IfOk};
ghost use Rattle.toml.specs.View.{view, table_view};
ghost use Rattle.es_base.specs.Config.{AreLinks};
ghost use Rattle.es_base.specs.Limits.{most_links};
ghost use Rattle.toml.specs.Errors.{IsMemory};
ghost use Rattle.vl_config.specs.declared.fault.ConfigFault.TheVariants.{Memory, Text};
ghost use Rattle.vl_config.specs.Fault.{GivesOrMemory};
ghost use Rattle.vl_config.specs.Document.{config_in, config_from, constant_if, constant_from, link_tables};
ghost use Rattle.vl_config.specs.Link.{links_from};

pub(crate) mod keys;
pub(crate) mod line;
pub(crate) mod link;
pub(crate) mod octets;
pub(crate) mod place;
pub(crate) mod port;
pub(crate) mod stray;
pub(crate) mod table;

use crate::document::link::link_from;
use crate::document::table::{required, tables_from, text_from, value_at};
use crate::names::Names;
use crate::{Config, ConfigFault, Key, MOST_LINKS};
use es_base::Links;
use hex::FromHex;
use std::alloc::Global;
use toml::de::Error;
use toml::{Table, Value};

/// The constant field of frames if the document has none (own).
const DEFAULT_CONSTANT: [u8; 4] = [3, 0, 0, 0];

/// Reads a configuration from the text of a TOML document. The first fault is returned, in the order
/// of the keys: `constant`, then `link`; then link by link `vl`, `skew_max_us`, `redundancy`,
/// `reassembly_us`, `window` and `port`; port by port `name`, `kind`, `address`, `udp`, `max` and
/// `refresh_us` or `depth`. Keys that have no meaning are ignored. The fault is Text if the text is no
/// TOML document. The keys, their ranges and their order are this profile's own.
#[tactic(auto, unfolding(crate::specs::Document::config_in))]
pub fn read_config(alloc: Global, text: &str) -> Result<Config, ConfigFault>
    ensures { GivesOrMemory (λ config. config) result (config_in text.now) }
{
    let document = toml::table_from_str(alloc, text).map_err(document_fault)?;
    config_from(alloc, &document)
}

/// The fault of a text that `toml` refuses.
fn document_fault(error: Error) -> ConfigFault
    ensures memory { IsMemory error → result ≡ Memory }
    ensures text { ¬ IsMemory error → result ≡ Text }
{
    if error.is_memory() {
        ConfigFault::Memory
    } else {
        ConfigFault::Text
    }
}

fn config_from(alloc: Global, document: &Table) -> Result<Config, ConfigFault>
    ensures { GivesOrMemory (λ config. config) result (config_from (table_view document.now)) }
{
    let constant = constant_if(value_at(document, Key::Constant))?;
    let tables = link_tables(alloc, document)?;
    let links = links_from(alloc, &tables)?;
    Ok(Config::new(constant, links))
}

/// The constant field by the value at its key.
pub(crate) fn constant_if(value: Option<&Value>) -> Result<[u8; 4], ConfigFault>
    ensures { result ≡ constant_if (option_map (λ value. view value.now) value.entry) }
{
    match value {
        None => Ok(DEFAULT_CONSTANT),
        Some(value) => octets_from(text_from(value, Key::Constant)?),
    }
}

/// The 4 octets of this text: 8 hexadecimal digits of either case.
fn octets_from(text: &str) -> Result<[u8; 4], ConfigFault>
    ensures { result ≡ constant_from text.now }
{
    match <[u8; 4] as FromHex>::from_hex(text) {
        Ok(octets) => Ok(octets),
        Err(_) => Err(ConfigFault::Range(Key::Constant)),
    }
}

/// The tables of the links: 1 to 64.
pub(crate) fn link_tables<'a>(
    alloc: Global,
    document: &'a Table,
) -> Result<Vec<&'a Table>, ConfigFault>
    ensures value { GivesOrMemory (λ tables. map (λ table. table_view table.now) tables.items) result
        (link_tables (table_view document.now)) }
    ensures limits { IfOk result (λ tables. (1 ≤ length tables.items) × (length tables.items ≤ most_links)) }
{
    let value = required(document, Key::Link)?;
    let tables = tables_from(alloc, value, Key::Link, MOST_LINKS)?;
    if tables.is_empty() {
        Err(ConfigFault::Missing(Key::Link))
    } else {
        Ok(tables)
    }
}

/// The links of these tables. No two links have one link number, and no two of their ports one name.
fn links_from(alloc: Global, tables: &[&Table]) -> Result<Links, ConfigFault>
    requires some { 1 ≤ length tables.now }
    requires few { length tables.now ≤ most_links }
    ensures value { GivesOrMemory (λ links. links) result
        (links_from (map (λ table. table_view table.now) tables.now)) }
    ensures limits { IfOk result (λ links. AreLinks links) }
{
    let mut links = Links::new(alloc);
    let mut names = Names::new(alloc);
    for table in tables {
        let link = link_from(alloc, table, links.as_slice(), &mut names)?;
        links.push(link)?;
    }
    Ok(links)
}
