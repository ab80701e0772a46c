//! The readers' steps.
ghost use Rattle.std.specs.Prelude.{◌≡◌, ℕ, ◌≢◌, ◌<◌, ◌≤◌, List, [], length, slice_index};
ghost use Rattle.slot_core.specs.Limits.{most_slots, slot_words};
ghost use Rattle.slot_core.specs.Words.{slot_of, table_words};
ghost use Rattle.slot_core.specs.State.{last_of, word_of};
ghost use Rattle.sampling_port.specs.Rule.{slots_for};
ghost use Rattle.sampling_port.specs.Plays.{first, second, announced, got, cleared, reader_of, reads};
ghost use Rattle.sampling_port.specs.Seats.{LooksAgain, LooksFirst, reader_with};

use crate::rule::{PortTable, Right, SeatView};
use atomic_table::Play;
use slot_core::{MOST_SLOTS, WORDS};
use std::alloc::Global;
use std::marker::Model;
use std::sync::Arc;

/// A reader's seat at a port. Contracts see which port it is at, the reader's place, and its knowledge:
/// its view in the slot core, its looks, and its number of steps.
#[derive(Drop)]
pub struct ReaderSeat<const READERS: usize> {
    pub(crate) table: Arc<PortTable<READERS>, Global>,
    place: usize,
    pub(crate) right: Right,
}

impl<const READERS: usize> Model for ReaderSeat<READERS> {
    ghost use Rattle.std.specs.Prelude.{◌≡◌, ℕ, ◌<◌, ◌≤◌, []};
    ghost use Rattle.sampling_port.specs.Seats.{ReaderSeated};

    ghost Value = { ReaderSeated };

    ghost use Rattle.std.specs.Arc.{arc_value};
    ghost use Rattle.slot_core.specs.Words.{table_words};
    ghost use Rattle.sampling_port.specs.Rule.{slots_for};
    ghost use Rattle.sampling_port.specs.Plays.{reader_of};
    ghost use Rattle.sampling_port.specs.declared.rule.SeatView.TheVariants.{Reads};

    ghost view = { λ s. record { port = s.right.table_id; place = s.place; knows = reader_of s.right.me.0 } };

    ghost invariant = { λ s. ((arc_value s.table).shared.table_id.words ≡ table_words READERS (slots_for READERS)) ×
        (s.right.table_id ≡ (arc_value s.table).shared.table_id) ×
        (s.right.me.0 ≡ Reads s.place (reader_of s.right.me.0)) × (s.place < READERS) ×
        (READERS ≤ 14) };
}

struct First<const READERS: usize>;

impl<const READERS: usize> Play<(), SeatView> for First<READERS> {
    ghost use Rattle.sampling_port.specs.Rule.{slots_for};

    ghost then = { first (slots_for READERS) };
}

struct Second<const READERS: usize>;

impl<const READERS: usize> Play<(), SeatView> for Second<READERS> {
    ghost use Rattle.sampling_port.specs.Rule.{slots_for};

    ghost then = { second (slots_for READERS) };
}

struct Announced;

impl Play<(), SeatView> for Announced {
    ghost then = { announced };
}

struct Got<const READERS: usize>;

impl<const READERS: usize> Play<(), SeatView> for Got<READERS> {
    ghost then = { got READERS };
}

struct Cleared;

impl Play<(), SeatView> for Cleared {
    ghost then = { cleared };
}

impl<const READERS: usize> ReaderSeat<READERS> {
    ghost use Rattle.std.specs.Arc.{arc_value};
    ghost use Rattle.slot_core.specs.declared.view.Phase.TheVariants.{Idle, Loaded, Announced, Holding};
    ghost use Rattle.slot_core.specs.Steps.{announces, clears};
    ghost use Rattle.slot_core.specs.Allowed.{MayBegin, MayAnnounce, MayLookAgain, MayLoadWord, MayClear};
    ghost use Rattle.sampling_port.specs.declared.rule.SeatView.TheVariants.{Reads};

    pub(crate) fn at(
        table: Arc<PortTable<READERS>, Global>,
        place: usize,
        right: Right,
    ) -> ReaderSeat<READERS>
        requires table { ((arc_value table).shared.table_id.words ≡ table_words READERS (slots_for READERS)) ×
            (right.table_id ≡ (arc_value table).shared.table_id) }
        requires view { (place < READERS) × (right.me.0 ≡ Reads place (reader_of right.me.0)) ×
            (READERS ≤ 14) }
        ensures { result ≡ record { port = right.table_id; place = place; knows = reader_of right.me.0 } }
    {
        ReaderSeat {
            table,
            place,
            right,
        }
    }

    /// LoadFirst: loads `latest`.
    pub fn load_first(&mut self) -> u64
        requires { MayBegin self.old.knows.view }
        ensures { LooksFirst (slots_for READERS) self.old self.new result }
    {
        self.table.shared.load::<First<READERS>>(&mut self.right, 0)
    }

    /// Announce: stores the word that was loaded last as its announcement.
    pub fn announce(&mut self, word: u64)
        requires turn { MayAnnounce self.old.knows.view }
        requires word { word ≡ word_of self.old.knows.view.phase }
        ensures { self.new ≡ reader_with self.old (reads self.old.knows (announces self.old.knows.view)) }
    {
        self.table
            .shared
            .store::<Announced>(&mut self.right, 1 + self.place, word);
    }

    /// LoadSecond: loads `latest` again. The reader holds if the word is the one that it announced.
    pub fn load_second(&mut self) -> u64
        requires { MayLookAgain self.old.knows.view }
        ensures { LooksAgain (slots_for READERS) self.old self.new result }
    {
        self.table
            .shared
            .load::<Second<READERS>>(&mut self.right, 0)
    }

    /// LoadWord: loads the word at this index of the held message, which `word` shows.
    pub fn load_word(&mut self, word: u64, index: usize) -> u64
        requires turn { MayLoadWord self.old.knows.view index }
        requires word { word ≡ word_of self.old.knows.view.phase }
        requires inside { (slot_of word < slots_for READERS) × (index < slot_words) }
        ensures value { result ≡ slice_index (last_of self.old.knows.view.seen) index }
        ensures same { self.new ≡ reader_with self.old (reads self.old.knows self.old.knows.view) }
    {
        self.table.shared.load::<Got<READERS>>(
            &mut self.right,
            1 + READERS + (WORDS * (word % MOST_SLOTS) as usize + index),
        )
    }

    /// Clear: stores 0 as its announcement.
    pub fn clear(&mut self)
        requires { MayClear self.old.knows.view }
        ensures { self.new ≡ reader_with self.old (reads self.old.knows (clears self.old.knows.view)) }
    {
        self.table
            .shared
            .store::<Cleared>(&mut self.right, 1 + self.place, 0);
    }
}
