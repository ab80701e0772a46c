//! The writer's steps.
ghost use Rattle.std.specs.Prelude.{◌≡◌, ℕ, ◌+◌, ◌*◌, ◌^◌, ◌<◌, ◌≤◌, List, [], length};
ghost use Rattle.slot_core.specs.Words.{table_words};
ghost use Rattle.sampling_port.specs.Rule.{slots_for};
ghost use Rattle.sampling_port.specs.Plays.{scanned, stored, published, writer_of, writes};
ghost use Rattle.sampling_port.specs.Seats.{writer_with};

use crate::rule::{PortTable, Right, SeatView};
use atomic_table::Play;
use slot_core::WORDS;
use std::alloc::Global;
use std::marker::Model;
use std::sync::Arc;

/// The writer's seat at a port. Contracts see which port it is at, and its knowledge: its view in the
/// slot core, and its number of steps.
#[derive(Drop)]
pub struct WriterSeat<const READERS: usize> {
    table: Arc<PortTable<READERS>, Global>,
    pub(crate) right: Right,
}

impl<const READERS: usize> Model for WriterSeat<READERS> {
    ghost use Rattle.std.specs.Prelude.{◌≡◌, ℕ, ◌≤◌, []};
    ghost use Rattle.sampling_port.specs.Seats.{WriterSeated};

    ghost Value = { WriterSeated };

    ghost use Rattle.std.specs.Arc.{arc_value};
    ghost use Rattle.slot_core.specs.Words.{table_words};
    ghost use Rattle.sampling_port.specs.Rule.{slots_for};
    ghost use Rattle.sampling_port.specs.Plays.{writer_of};
    ghost use Rattle.sampling_port.specs.declared.rule.SeatView.TheVariants.{Writes};

    ghost view = { λ s. record { port = s.right.table_id; knows = writer_of s.right.me.0 } };

    ghost invariant = { λ s. ((arc_value s.table).shared.table_id.words ≡ table_words READERS (slots_for READERS)) ×
        (s.right.table_id ≡ (arc_value s.table).shared.table_id) ×
        (s.right.me.0 ≡ Writes (writer_of s.right.me.0)) × (READERS ≤ 14) };
}

struct Scanned;

impl Play<(), SeatView> for Scanned {
    ghost then = { scanned };
}

struct Stored<const READERS: usize>;

impl<const READERS: usize> Play<(), SeatView> for Stored<READERS> {
    ghost then = { stored READERS };
}

struct Published;

impl Play<(), SeatView> for Published {
    ghost then = { published };
}

impl<const READERS: usize> WriterSeat<READERS> {
    ghost use Rattle.std.specs.Arc.{arc_value};
    ghost use Rattle.sampling_port.specs.declared.rule.SeatView.TheVariants.{Writes};
    ghost use Rattle.slot_core.specs.Steps.{scans, stores, publishes, word_to_show};
    ghost use Rattle.slot_core.specs.Allowed.{MayScan, MayStore, MayPublish};

    pub(crate) fn at(table: Arc<PortTable<READERS>, Global>, right: Right) -> WriterSeat<READERS>
        requires table { ((arc_value table).shared.table_id.words ≡ table_words READERS (slots_for READERS)) ×
            (right.table_id ≡ (arc_value table).shared.table_id) }
        requires view { (right.me.0 ≡ Writes (writer_of right.me.0)) × (READERS ≤ 14) }
        ensures { result ≡ record { port = right.table_id; knows = writer_of right.me.0 } }
    {
        WriterSeat { table, right }
    }

    /// Scan: loads the announcement of the reader at this place, the next that isn't scanned.
    pub fn scan(&mut self, reader: usize) -> u64
        requires turn { MayScan READERS self.old.knows.view reader }
        ensures { self.new ≡ writer_with self.old (writes self.old.knows (scans self.old.knows.view result)) }
    {
        self.table
            .shared
            .load::<Scanned>(&mut self.right, 1 + reader)
    }

    /// StoreWord: stores the next word of the message, which has this index, in this slot.
    pub fn store_word(&mut self, slot: usize, index: usize, word: u64)
        requires turn { MayStore READERS (slots_for READERS) self.old.knows.view slot index word }
        ensures { self.new ≡ writer_with self.old (writes self.old.knows (stores self.old.knows.view slot word)) }
    {
        self.table.shared.store::<Stored<READERS>>(
            &mut self.right,
            1 + READERS + (WORDS * slot + index),
            word,
        );
    }

    /// StoreLatest: stores the word that shows the message in `latest`, so that it is published.
    pub fn store_latest(&mut self, word: u64)
        requires turn { MayPublish self.old.knows.view }
        requires word { word ≡ word_to_show self.old.knows.view }
        ensures { self.new ≡ writer_with self.old (writes self.old.knows (publishes self.old.knows.view)) }
    {
        self.table
            .shared
            .store::<Published>(&mut self.right, 0, word);
    }
}
