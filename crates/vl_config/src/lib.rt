//! The configuration of a receiver: a TOML document, read into settings within their limits. `read_config` returns the
//! document's settings, or its first fault in the stated order, with its key. No two links have one link number, no two
//! ports one name. `stray_in_octets` tells the first table with a key that isn't its own, which is ignored else.
#![tactic(auto)]

mod built_in;
mod document;
mod fault;
pub mod laws;
mod names;
mod rows;

pub use built_in::BUILT_IN;
pub use document::octets::{
    line_in_octets, place_in_octets, read_octets, stray_in_octets, text_of,
};
pub use document::place::{FaultPlace, place_of_fault};
pub use document::read_config;
pub use document::stray::Stray;
pub use es_base::{Config, MOST_LINKS};
pub use fault::{ConfigFault, Key};
pub use rows::{LinkRow, PortRow, TableFault, config_of_table};
