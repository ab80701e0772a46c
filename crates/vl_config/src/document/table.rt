//! The value at one key of a table.
ghost use Rattle.std.specs.Prelude.{◌≡◌, ◌≤◌, map, length, option_map, IfOk};
ghost use Rattle.toml.specs.View.{view, table_view, items_view};
ghost use Rattle.es_base.specs.Returns.{Gives};
ghost use Rattle.vl_config.specs.Fault.{GivesOrMemory};
ghost use Rattle.vl_config.specs.Table.{value_at, required, text_at, text_from, flag_or, items_from, table_from, at_most, tables_from, tables_in};
ghost use Rattle.vl_config.specs.Table.{integer_at, integer_or, integer_from, within, u16_value_at};

use crate::{ConfigFault, Key};
use std::alloc::Global;
use toml::{Table, Value};

/// The value at this key.
pub(crate) fn value_at<'a>(table: &'a Table, key: Key) -> Option<&'a Value>
    ensures { option_map (λ v. view v.now) result ≡ value_at key (table_view table.now) }
{
    table.get(key.name())
}

/// The value at this key, which has no default.
pub(crate) fn required<'a>(table: &'a Table, key: Key) -> Result<&'a Value, ConfigFault>
    ensures { Gives (λ value. view value.now) result (required key (table_view table.now)) }
{
    value_at(table, key).ok_or(ConfigFault::Missing(key))
}

/// The integer at this key, from `least` to `greatest`.
pub(crate) fn integer_at(
    table: &Table,
    key: Key,
    least: u64,
    greatest: u64,
) -> Result<u64, ConfigFault>
    ensures value { result ≡ integer_at key least greatest (table_view table.now) }
    ensures limits { IfOk result (λ integer. (least ≤ integer) × (integer ≤ greatest)) }
{
    integer_from(required(table, key)?, key, least, greatest)
}

/// The integer at this key, from `least` to `greatest`, or the default if there is no such key.
pub(crate) fn integer_or(
    table: &Table,
    key: Key,
    default: u64,
    least: u64,
    greatest: u64,
) -> Result<u64, ConfigFault>
    requires { (least ≤ default) × (default ≤ greatest) }
    ensures value { result ≡ integer_or key least greatest default (table_view table.now) }
    ensures limits { IfOk result (λ integer. (least ≤ integer) × (integer ≤ greatest)) }
{
    match value_at(table, key) {
        None => Ok(default),
        Some(value) => integer_from(value, key, least, greatest),
    }
}

/// The integer of 16 bits at this key: a link number or a UDP port, 0 to 65,535.
pub(crate) fn u16_value_at(table: &Table, key: Key) -> Result<u16, ConfigFault>
    ensures { result ≡ u16_value_at key (table_view table.now) }
{
    let integer = integer_at(table, key, 0, u64::from(u16::MAX))?;
    Ok(integer as u16)
}

fn integer_from(value: &Value, key: Key, least: u64, greatest: u64) -> Result<u64, ConfigFault>
    ensures value { result ≡ integer_from key least greatest (view value.now) }
    ensures limits { IfOk result (λ integer. (least ≤ integer) × (integer ≤ greatest)) }
{
    match value.as_integer() {
        None => Err(ConfigFault::Kind(key)),
        Some(integer) => within(integer, key, least, greatest),
    }
}

fn within(integer: i64, key: Key, least: u64, greatest: u64) -> Result<u64, ConfigFault>
    ensures value { result ≡ within key least greatest integer }
    ensures limits { IfOk result (λ integer. (least ≤ integer) × (integer ≤ greatest)) }
{
    match u64::try_from(integer) {
        Ok(integer) if least <= integer && integer <= greatest => Ok(integer),
        _ => Err(ConfigFault::Range(key)),
    }
}

/// The text at this key.
pub(crate) fn text_at<'a>(table: &'a Table, key: Key) -> Result<&'a str, ConfigFault>
    ensures { Gives (λ text. text.now) result (text_at key (table_view table.now)) }
{
    text_from(required(table, key)?, key)
}

/// The text of this value.
pub(crate) fn text_from<'a>(value: &'a Value, key: Key) -> Result<&'a str, ConfigFault>
    ensures { Gives (λ text. text.now) result (text_from key (view value.now)) }
{
    value.as_str().ok_or(ConfigFault::Kind(key))
}

/// The truth value at this key, or the default if there is no such key.
pub(crate) fn flag_or(table: &Table, key: Key, default: bool) -> Result<bool, ConfigFault>
    ensures { result ≡ flag_or key default (table_view table.now) }
{
    match value_at(table, key) {
        None => Ok(default),
        Some(value) => value.as_bool().ok_or(ConfigFault::Kind(key)),
    }
}

/// The tables of an array of up to `most` tables.
pub(crate) fn tables_from<'a>(
    alloc: Global,
    value: &'a Value,
    key: Key,
    most: usize,
) -> Result<Vec<&'a Table>, ConfigFault>
    ensures value { GivesOrMemory (λ tables. map (λ table. table_view table.now) tables.items) result
        (tables_from key most (view value.now)) }
    ensures limit { IfOk result (λ tables. length tables.items ≤ most) }
{
    let tables = tables_in(alloc, items_from(value, key)?, key)?;
    at_most(tables, most)
}

/// The values of this array.
fn items_from(value: &Value, key: Key) -> Result<&[Value], ConfigFault>
    ensures { Gives (λ items. items_view items.now) result (items_from key (view value.now)) }
{
    match value.as_array() {
        Some(items) => Ok(items),
        None => Err(ConfigFault::Kind(key)),
    }
}

/// The table that this value is.
fn table_from(value: &Value, key: Key) -> Result<&Table, ConfigFault>
    ensures { Gives (λ table. table_view table.now) result (table_from key (view value.now)) }
{
    value.as_table().ok_or(ConfigFault::Kind(key))
}

/// These tables, if there are up to `most`.
fn at_most(tables: Vec<&Table>, most: usize) -> Result<Vec<&Table>, ConfigFault>
    ensures value { Gives (λ tables. map (λ table. table_view table.now) tables.items) result
        (at_most most (map (λ table. table_view table.now) tables.entry.items)) }
    ensures limit { IfOk result (λ tables. length tables.items ≤ most) }
{
    if tables.len() <= most {
        Ok(tables)
    } else {
        Err(ConfigFault::TooMany)
    }
}

fn tables_in<'a>(alloc: Global, items: &'a [Value], key: Key) -> Result<Vec<&'a Table>, ConfigFault>
    ensures { GivesOrMemory (λ tables. map (λ table. table_view table.now) tables.items) result
        (tables_in key (items_view items.now)) }
{
    let mut tables = Vec::with_capacity(alloc, items.len())?;
    for item in items {
        tables.push(table_from(item, key)?)?;
    }
    Ok(tables)
}
