//! Numbers of readers of a table's ports.
ghost use Rattle.std.specs.Prelude.{◌≡◌};
ghost use Rattle.std.specs.List.{find};
ghost use Rattle.std.specs.Option.{option_copied};
ghost use Rattle.vl_config.specs.Rows.{has_row_name};
ghost use Rattle.receiver_slots.specs.Readers.{count_or};

use es_base::PortSettings;
use receiver::{ReaderCount, Readers};
use vl_config::PortRow;

/// Numbers of readers by the ports' rows; `others` for a row of 0, and without rows.
#[derive(Clone, Copy, Drop)]
pub struct PortReaders<'a> {
    pub rows: &'a [PortRow],
    pub others: ReaderCount,
}

impl Readers for PortReaders<'_> {
    ghost use Rattle.receiver_slots.specs.Readers.{readers_in};

    ghost count = { λ r. readers_in r.others r.rows.now };

    fn of(&self, port: &PortSettings) -> ReaderCount {
        count_or(self.others, row_named(self.rows, port.name().as_str()))
    }
}

/// The row of the port with this name.
fn row_named<'a>(rows: &'a [PortRow], name: &str) -> Option<&'a PortRow>
    ensures { option_copied result ≡ find (has_row_name name.now) rows.now }
{
    rows.iter().find(|row| row.has_name(name))
}

/// This row's number of readers; `others` without a row, and for 0.
fn count_or(others: ReaderCount, row: Option<&PortRow>) -> ReaderCount
    ensures { result ≡ count_or others (option_copied row.entry) }
{
    match row {
        Some(row) => ReaderCount::new(row.readers as usize).unwrap_or(others),
        None => others,
    }
}
