//! The rule of a port's table, and the knowledge of each seat at it. No value of these types is made.
use atomic_table::{Seat, Table, TableRule};
use slot_core::{ReaderView, WriterView};
use std::alloc::Global;
use std::collections::LinkedList;

/// Knowledge of the writer's seat: its view in the core, and its number of steps.
pub struct WriterLog {
    pub view: WriterView,
    pub steps: u64,
}

/// Knowledge of a reader's seat: its view in the core, its looks, true for each that ended with a hold,
/// and its number of steps.
pub struct ReaderLog {
    pub view: ReaderView,
    pub looks: LinkedList<bool>,
    pub steps: u64,
}

/// Knowledge of a seat.
pub enum SeatView {
    /// The seat that opens the port, from which this many readers were parted.
    Opens(u64),
    /// Knowledge of the writer.
    Writes(WriterLog),
    /// Knowledge of the reader at this place.
    Reads(u64, ReaderLog),
    /// Knowledge of the writer and of the reader at this place, joined.
    Meets(WriterLog, u64, ReaderLog),
    /// A seat that was joined to another.
    Spent,
}

/// The words and what the seats know are those of a lawful port of the slot core.
pub struct LawfulPort<const READERS: usize>;

impl<const READERS: usize> TableRule<(), SeatView, ()> for LawfulPort<READERS> {
    ghost use Rattle.sampling_port.specs.Rule.{KeptTable, slots_for};
    ghost use Rattle.sampling_port.specs.declared.rule.SeatView.TheVariants.{Opens};

    ghost holds = { λ _. KeptTable READERS (slots_for READERS) };

    ghost first = { λ _. Opens 0 };
}

/// The words that the writer and the readers share.
pub(crate) type PortTable<const READERS: usize> = Table<
    (),
    SeatView,
    (),
    LawfulPort<READERS>,
    Global,
>;

/// A right to make steps at the table, with what it knows. It has no octets.
pub(crate) type Right = Seat<(), SeatView>;
