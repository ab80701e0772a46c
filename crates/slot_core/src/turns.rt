//! Turns of the writer and the readers, and refusals of steps.
ghost use Rattle.std.specs.Prelude.{◌≡◌, ◌≤◌, ◌<◌, ◌==◌, Some, length, slice_index};
ghost use Rattle.slot_core.specs.Limits.{longest_message, port_readers, port_slots};
ghost use Rattle.slot_core.specs.Message.{words_for};
ghost use Rattle.slot_core.specs.State.{last_of, view_at};
ghost use Rattle.slot_core.specs.Refusal.{first_refusal, is_announced, is_found, is_latest, may_begin, may_clear, may_continue, may_load_word, may_publish, may_scan, may_store, refusal_of, refusal_to_store, turn_of};
ghost use Rattle.slot_core.specs.Stored.{view_of};

use crate::message::{is_padded, words_for};
use crate::reader::Reader;
use crate::view::MOST_SLOTS;
use crate::{Core, CoreEvent, LONGEST_MESSAGE, MOST_MESSAGES, READERS, SLOTS, StepRefusal, WORDS};

impl Core {
    /// Refusal of the step, if any: the first of place, turn, latest and announced.
    pub(crate) fn refusal_of(&self, event: &CoreEvent) -> Option<StepRefusal>
        ensures { result ≡ refusal_of port_readers port_slots self.now event.now }
    {
        match *event {
            CoreEvent::Scan { reader } => turn_of(reader < READERS, self.may_scan(reader)),
            CoreEvent::StoreWord { slot, index, word } => self.refusal_to_store(slot, index, word),
            CoreEvent::StoreLatest => turn_of(true, self.may_publish()),
            CoreEvent::LoadFirst { reader } => turn_of(reader < READERS, self.may_begin(reader)),
            CoreEvent::Announce { reader } => {
                turn_of(reader < READERS, self.reader(reader).has_loaded())
            }
            CoreEvent::LoadSecond { reader } => {
                turn_of(reader < READERS, self.reader(reader).has_announced())
            }
            CoreEvent::LoadWord { reader, index } => turn_of(
                reader < READERS && index < WORDS,
                self.may_load_word(reader, index),
            ),
            CoreEvent::Clear { reader } => turn_of(reader < READERS, self.may_clear(reader)),
        }
    }

    fn refusal_to_store(&self, slot: usize, index: usize, word: u64) -> Option<StepRefusal>
        ensures { result ≡ refusal_to_store port_readers port_slots self.now.writer slot index word }
    {
        first_refusal(
            slot < SLOTS && index < WORDS,
            self.may_store(slot, index, word),
            index == 0 && self.is_latest(slot),
            index == 0 && self.is_announced(slot),
        )
    }

    // ---- the writer

    fn may_scan(&self, reader: usize) -> bool
        ensures { result ≡ may_scan self.now.writer reader }
    {
        self.stored.is_empty() && reader == self.scanned.len()
    }

    fn may_store(&self, slot: usize, index: usize, word: u64) -> bool
        ensures { result ≡ may_store port_readers self.now.writer slot index word }
    {
        let next = self.scanned.len() == READERS && index == self.stored.len();
        if index == 0 {
            next && word <= LONGEST_MESSAGE
        } else {
            next && self.may_continue(slot, word)
        }
    }

    fn may_continue(&self, slot: usize, word: u64) -> bool
        ensures { result ≡ may_continue self.now.writer slot word }
    {
        let octets = self.octets();
        let index = self.stored.len();
        slot as u64 == self.chosen && index < words_for(octets) && is_padded(octets, index, word)
    }

    fn may_publish(&self) -> bool
        ensures { result ≡ may_publish self.now.writer }
    {
        !self.stored.is_empty()
            && self.stored.len() == words_for(self.octets())
            && (self.published.len() as u64) < MOST_MESSAGES
    }

    /// Length of the message that is being written, in octets. 0 if none is.
    fn octets(&self) -> u64
        ensures value { result ≡ slice_index self.now.writer.stored 0 }
        ensures short { result ≤ longest_message }
    {
        match self.stored.as_slice().first() {
            Some(octets) => *octets,
            None => 0,
        }
    }

    fn is_latest(&self, slot: usize) -> bool
        ensures { result ≡ is_latest self.now.writer slot }
    {
        self.words[0] != 0 && slot as u64 == self.words[0] % MOST_SLOTS
    }

    fn is_announced(&self, slot: usize) -> bool
        ensures { result ≡ is_announced self.now.writer slot }
    {
        self.scanned
            .as_slice()
            .iter()
            .any(|found| is_found(slot as u64, *found))
    }

    // ---- the readers

    /// A reader, or one that has loaded nothing if there is no such reader.
    pub(crate) fn reader(&self, reader: usize) -> Reader
        ensures view { view_of self.now.writer.published result ≡ view_at self.now.views reader }
        ensures seen { result.seen ≤ length self.now.writer.published }
    {
        match self.readers.get(reader) {
            Some(reader) => *reader,
            None => Reader::newcomer(),
        }
    }

    fn may_begin(&self, reader: usize) -> bool
        ensures { result ≡ may_begin (view_at self.now.views reader) }
    {
        let reader = self.reader(reader);
        reader.is_free() && reader.own == 0
    }

    fn may_clear(&self, reader: usize) -> bool
        ensures { result ≡ may_clear (view_at self.now.views reader) }
    {
        self.reader(reader).own != 0
    }

    fn may_load_word(&self, reader: usize, index: usize) -> bool
        ensures { result ≡ may_load_word (view_at self.now.views reader) index }
    {
        let reader = self.reader(reader);
        reader.is_holding() && index < self.words_seen_last(&reader)
    }

    /// Number of words of the message that this reader has seen last.
    fn words_seen_last(&self, reader: &Reader) -> usize
        requires { reader.now.seen ≤ length self.now.writer.published }
        ensures { result ≡ length (last_of (view_of self.now.writer.published reader.now).seen) }
    {
        if reader.seen == 0 {
            0
        } else {
            self.published[reader.seen - 1].len()
        }
    }
}

/// The refusal of a step that chooses no slot.
fn turn_of(exists: bool, turn: bool) -> Option<StepRefusal>
    ensures { result ≡ turn_of exists turn }
{
    first_refusal(exists, turn, false, false)
}

fn first_refusal(exists: bool, turn: bool, latest: bool, announced: bool) -> Option<StepRefusal>
    ensures { result ≡ first_refusal exists turn latest announced }
{
    if !exists {
        Some(StepRefusal::NoSuchPlace)
    } else if !turn {
        Some(StepRefusal::NotItsTurn)
    } else if latest {
        Some(StepRefusal::SlotLatest)
    } else if announced {
        Some(StepRefusal::SlotAnnounced)
    } else {
        None
    }
}

/// Whether this slot was found announced by a reader.
fn is_found(slot: u64, found: Option<u64>) -> bool
    ensures { result ≡ is_found slot found }
{
    match found {
        Some(found) => found == slot,
        None => false,
    }
}
