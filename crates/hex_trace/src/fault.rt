//! Faults of traces.
ghost use Rattle.std.specs.Prelude.{◌≡◌, Some};
ghost use Rattle.hex_trace.specs.Word.{cause_word};
ghost use Rattle.hex_trace.specs.declared.fault.TraceFault.TheVariants as faults;

use es_base::Memory;
use std::fmt;

/// Fault of a line of a trace, the first that applies (order: own).
#[derive(Clone, Copy, Debug, Drop, PartialEq, Eq)]
pub enum TraceCause {
    /// The line has more than `LONGEST_LINE` bytes; a skipped line too.
    LongLine,
    /// The line doesn't begin with a digit, or its time doesn't fit 64 bits.
    Time,
    /// No space follows the time.
    Space,
    /// The rest has a byte that is no hexadecimal digit, or an odd number of digits.
    Hex,
    /// The time is below that of the frame before.
    Falls,
}

/// Fault of a trace.
#[derive(Clone, Copy, Debug, Drop, PartialEq, Eq)]
pub enum TraceFault {
    /// The first faulty line, by its line number, from 1, and its fault.
    Line { line: u64, cause: TraceCause },
    /// A read of the source failed.
    Read,
    /// Memory ran out.
    Memory,
}

impl From<Memory> for TraceFault {
    ghost from_gives = { λ _ fault. fault ≡ faults.Memory };

    fn from(_memory: Memory) -> TraceFault {
        TraceFault::Memory
    }
}

impl fmt::Display for TraceCause {
    ghost output = { λ cause. Some (cause_word cause) };

    fn fmt<W: fmt::Write>(&self, f: &mut fmt::Formatter<W>) -> fmt::Result {
        f.write_str(match self {
            TraceCause::LongLine => "long line",
            TraceCause::Time => "time",
            TraceCause::Space => "space",
            TraceCause::Hex => "hex",
            TraceCause::Falls => "time falls",
        })
    }
}
