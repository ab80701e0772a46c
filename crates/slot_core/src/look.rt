//! Look-ups of a core's state.
ghost use Rattle.std.specs.Prelude.{◌≡◌, ◌<◌, length, slice_index};
ghost use Rattle.slot_core.specs.Limits.{port_readers, port_slots, slot_words};
ghost use Rattle.slot_core.specs.Words.{announcement, latest_number, place_of_slot_word};
ghost use Rattle.slot_core.specs.State.{view_at};
ghost use Rattle.slot_core.specs.Look.{IsWriterPhase};

use crate::steps::place_of;
use crate::{Core, MessageWords, Phase, READERS, SLOTS, WORDS};

/// Phase of the writer. For each reader scanned so far there is the slot that it announced, or None.
#[derive(Clone, Copy, Debug)]
pub enum WriterPhase<'a> {
    /// It scans the readers, or has scanned all.
    Scanning {
        scanned: &'a [Option<u64>],
    },
    /// It stores the words of a message in a slot.
    Writing {
        scanned: &'a [Option<u64>],
        slot: u64,
        stored: &'a [u64],
    },
}

impl Core {
    /// The word `latest`: 0 if nothing was published; else the message number times `MOST_SLOTS`, plus
    /// the slot.
    pub fn latest(&self) -> u64
        ensures { result ≡ latest_number self.now.words }
    {
        self.words[0]
    }

    /// The announcement of a reader: 0, or a value that `latest` had.
    pub fn announcement(&self, reader: usize) -> u64
        requires { reader < port_readers }
        ensures { result ≡ announcement self.now.words reader }
    {
        self.words[1 + reader]
    }

    /// A word of a slot.
    pub fn word(&self, slot: usize, index: usize) -> u64
        requires slot { slot < port_slots }
        requires index { index < slot_words }
        ensures { result ≡ slice_index self.now.words (place_of_slot_word port_readers slot index) }
    {
        self.words[place_of(slot, index)]
    }

    /// The words of each message published, in order.
    pub fn published(&self) -> &[MessageWords]
        ensures { result.now ≡ self.now.writer.published }
    {
        self.published.as_slice()
    }

    /// Number of messages published when the reader last loaded `latest`: it has seen that many of
    /// `published`, from the first on.
    pub fn seen(&self, reader: usize) -> u64
        requires { reader < port_readers }
        ensures { result ≡ length (view_at self.now.views reader).seen }
    {
        self.reader(reader).seen as u64
    }

    /// Phase of the writer.
    pub fn writer_phase(&self) -> WriterPhase<'_>
        ensures { IsWriterPhase result self.now.writer }
    {
        let scanned = self.scanned.as_slice();
        if self.stored.is_empty() {
            WriterPhase::Scanning { scanned }
        } else {
            WriterPhase::Writing {
                scanned,
                slot: self.chosen,
                stored: self.stored.as_slice(),
            }
        }
    }

    /// Phase of a reader.
    pub fn reader_phase(&self, reader: usize) -> Phase
        requires { reader < port_readers }
        ensures { result ≡ (view_at self.now.views reader).phase }
    {
        self.reader(reader).phase
    }
}
