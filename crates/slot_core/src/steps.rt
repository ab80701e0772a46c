//! Effects of allowed steps.
ghost use Rattle.std.specs.Prelude.{◌≡◌, ◌<◌, ◌≤◌, [], IfOk, OnErr};
ghost use Rattle.slot_core.specs.Limits.{most_messages, most_slots, port_readers, port_slots, slot_words};
ghost use Rattle.slot_core.specs.Words.{place_of_slot_word, slot_shown, table_words, word_for};
ghost use Rattle.slot_core.specs.Steps.{after_announce, after_clear, after_load_first, after_load_second, after_scan, after_store_latest, after_store_word};
ghost use Rattle.slot_core.specs.Allowed.{MayPublish, MayScan, MayStore};

use crate::view::MOST_SLOTS;
use crate::{Core, MessageWords, READERS, WORDS};
use arrayvec::ArrayVec;
use std::alloc::{AllocError, Global};

impl Core {
    pub(crate) fn scan(&mut self, reader: usize)
        requires { MayScan port_readers self.old.writer reader }
        ensures { self.new ≡ after_scan self.old reader }
    {
        self.scanned.push(slot_shown(self.words[1 + reader]));
    }

    pub(crate) fn store_word(&mut self, slot: usize, index: usize, word: u64)
        requires { MayStore port_readers port_slots self.old.writer slot index word }
        ensures { self.new ≡ after_store_word port_readers self.old slot index word }
    {
        self.words[place_of(slot, index)] = word;
        self.chosen = slot as u64;
        self.stored.push(word);
    }

    pub(crate) fn store_latest(&mut self, alloc: Global) -> Result<(), AllocError>
        requires { MayPublish self.old.writer }
        ensures ok { IfOk result (λ _. self.new ≡ after_store_latest self.old) }
        ensures err { OnErr result (self.new ≡ self.old) }
    {
        let message = MessageWords::copy_of(alloc, self.stored.as_slice())?;
        self.published.push(message)?;
        self.words[0] = word_for(self.published.len() as u64, self.chosen);
        begin_anew(&mut self.scanned, &mut self.stored);
        Ok(())
    }

    pub(crate) fn load_first(&mut self, reader: usize)
        requires { reader < port_readers }
        ensures { self.new ≡ after_load_first self.old reader }
    {
        let before = self.readers[reader];
        let now = before.begins(self.words[0], self.published.len());
        self.readers[reader] = now;
    }

    pub(crate) fn announce(&mut self, reader: usize)
        requires { reader < port_readers }
        ensures { self.new ≡ after_announce self.old reader }
    {
        let now = self.readers[reader].announces();
        self.words[1 + reader] = now.own;
        self.readers[reader] = now;
    }

    pub(crate) fn load_second(&mut self, reader: usize)
        requires { reader < port_readers }
        ensures { self.new ≡ after_load_second self.old reader }
    {
        let before = self.readers[reader];
        let now = before.looks_again(self.words[0], self.published.len());
        self.readers[reader] = now;
    }

    pub(crate) fn clear(&mut self, reader: usize)
        requires { reader < port_readers }
        ensures { self.new ≡ after_clear self.old reader }
    {
        let now = self.readers[reader].clears();
        self.words[1 + reader] = now.own;
        self.readers[reader] = now;
    }
}

/// Index in the table of a word of a slot.
pub(crate) fn place_of(slot: usize, index: usize) -> usize
    requires slot { slot < port_slots }
    requires index { index < slot_words }
    ensures value { result ≡ place_of_slot_word port_readers slot index }
    ensures bound { result < table_words port_readers port_slots }
{
    1 + READERS + (WORDS * slot + index)
}

/// The word of a message number and a slot.
fn word_for(message_number: u64, slot: u64) -> u64
    requires number { message_number ≤ most_messages }
    requires slot { slot < most_slots }
    ensures { result ≡ word_for message_number slot }
{
    MOST_SLOTS * message_number + slot
}

/// The slot that a word of `latest` or of an announcement shows.
fn slot_shown(word: u64) -> Option<u64>
    ensures { result ≡ slot_shown word }
{
    if word == 0 {
        None
    } else {
        Some(word % MOST_SLOTS)
    }
}

/// After a publication no reader is scanned and no word stored.
fn begin_anew(scanned: &mut ArrayVec<Option<u64>, READERS>, stored: &mut ArrayVec<u64, WORDS>)
    ensures scanned { scanned.new.items ≡ [] }
    ensures stored { stored.new.items ≡ [] }
{
    scanned.clear();
    stored.clear();
}
