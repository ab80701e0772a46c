//! Steps of the writer and the readers of a sampling port, and their refusals.

/// One step: one load or one store of one word of the port's table. The first three are the writer's,
/// the others are those of the reader that they name. Readers, slots and indices count from 0.
#[derive(Clone, Copy, Debug, PartialEq, Eq)]
pub enum CoreEvent {
    /// Loads the announcement of a reader. All readers are scanned, in order, before a message.
    Scan {
        reader: usize,
    },
    /// Stores a word of a message. The first one chooses the slot.
    StoreWord {
        slot: usize,
        index: usize,
        word: u64,
    },
    /// Stores `latest`, and so publishes the message.
    StoreLatest,
    /// Loads `latest` for the first time.
    LoadFirst {
        reader: usize,
    },
    /// Stores the loaded word as the reader's announcement.
    Announce {
        reader: usize,
    },
    /// Loads `latest` again: the reader holds the message if it finds the announced word.
    LoadSecond {
        reader: usize,
    },
    /// Loads a word of the held message.
    LoadWord {
        reader: usize,
        index: usize,
    },
    /// Stores 0 as the reader's announcement, which ends its hold.
    Clear {
        reader: usize,
    },
}

/// Refusal of a step, tested in the order place, turn, latest, announced, memory (order: own).
#[derive(Clone, Copy, Debug, PartialEq, Eq)]
pub enum StepRefusal {
    /// There is no such reader, slot or word of a slot.
    NoSuchPlace,
    /// The writer or the reader is at another step; or the word is none of a message: a length above
    /// `LONGEST_MESSAGE`, or a word with an octet other than 0 after the message's end.
    NotItsTurn,
    /// `latest` shows the slot.
    SlotLatest,
    /// The slot was found announced.
    SlotAnnounced,
    /// Memory ran out.
    Memory,
}
