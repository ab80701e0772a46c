//! The opening of a port.
ghost use Rattle.std.specs.Prelude.{◌≡◌, ℕ, ◌+◌, ◌<◌, ◌≤◌, [], ◌∷◌, IfOk};
ghost use Rattle.sampling_port.specs.Rule.{new_writer_log, first_reader, slots_for};
ghost use Rattle.sampling_port.specs.Plays.{less_one, next_one};
ghost use Rattle.sampling_port.specs.Seats.{new_seats};
ghost use Rattle.sampling_port.specs.Ends.{new_readers, new_writer};
ghost use Rattle.sampling_port.specs.declared.rule.SeatView.TheVariants.{Writes, Spent};

use crate::reader::Reader;
use crate::reader_seat::ReaderSeat;
use crate::rule::{PortTable, SeatView};
use crate::writer::Writer;
use crate::writer_seat::WriterSeat;
use atomic_table::Split;
use es_base::Memory;
use slot_core::WORDS;
use std::alloc::Global;
use std::sync::Arc;

/// Parts the next reader's right from the one that opens the port.
struct NextReader;

impl Split<SeatView> for NextReader {
    ghost left = { less_one };

    ghost right = { next_one };
}

/// Parts the writer's right, at last.
struct LastWriter;

impl Split<SeatView> for LastWriter {
    ghost left = { λ _. Spent };

    ghost right = { λ _. Writes new_writer_log };
}

/// Opens a port with this many readers, at most 14, and returns the seats of its writer and of its
/// readers, in order of their places. It has two slots more than readers, and 16 at most, since a word
/// names a slot in four bits.
pub fn open_seats<const READERS: usize>(
    alloc: Global,
) -> Result<(WriterSeat<READERS>, [ReaderSeat<READERS>; READERS]), Memory>
    requires { READERS ≤ 14 }
    ensures writer { IfOk result (λ seats. seats.0.knows ≡ new_writer_log) }
    ensures readers { IfOk result (λ seats. seats.1 ≡ new_seats seats.0.port READERS) }
{
    let words = vec![in alloc; 0u64; 1 + READERS + WORDS * (READERS + 2)]?;
    let (table, mut right) = PortTable::<READERS>::of_words(alloc, &words, &())?;
    let table = Arc::new(alloc, table)?;
    let mut readers = Vec::with_capacity(alloc, READERS)?;
    for place in 0..READERS {
        let part = table.shared.split_seat::<NextReader>(&mut right);
        let seat = ReaderSeat::at(Arc::try_clone(&table)?, place, part);
        readers.push(seat)?;
    }
    let last = table.shared.split_seat::<LastWriter>(&mut right);
    let Ok(readers) = readers.try_into() else {
        unreachable!()
    };
    Ok((WriterSeat::at(table, last), readers))
}

/// Opens a port with this many readers, at most 14, and returns its writer, and its readers in order of
/// their places. All memory of the port is taken here.
pub fn open_port<const READERS: usize>(
    alloc: Global,
) -> Result<(Writer<READERS>, [Reader<READERS>; READERS]), Memory>
    requires { READERS ≤ 14 }
    ensures writer { IfOk result (λ ends. ends.0 ≡ new_writer ends.0.port) }
    ensures readers { IfOk result (λ ends. ends.1 ≡ new_readers ends.0.port READERS) }
{
    let (writer, seats) = open_seats::<READERS>(alloc)?;
    let mut readers = Vec::with_capacity(alloc, READERS)?;
    for seat in seats {
        readers.push(Reader::from_seat(seat))?;
    }
    let Ok(readers) = readers.try_into() else {
        unreachable!()
    };
    Ok((Writer::from_seat(writer), readers))
}
