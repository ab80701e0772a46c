//! The looks of a read.
ghost use Rattle.std.specs.Prelude.{◌≡◌, ◌<◌, ◌≤◌};
ghost use Rattle.slot_core.specs.Allowed.{MayAnnounce};
ghost use Rattle.slot_core.specs.State.{word_of};
ghost use Rattle.slot_core.specs.Steps.{announces};
ghost use Rattle.sampling_port.specs.Plays.{reads};
ghost use Rattle.sampling_port.specs.Rule.{slots_for};
ghost use Rattle.sampling_port.specs.Reads.{IsIdle};
ghost use Rattle.sampling_port.specs.Seeks.{SeekAnswer};
ghost use Rattle.sampling_port.specs.Seats.{LooksAgain, reader_with};

use crate::reader_seat::ReaderSeat;
use slot_core::MOST_SLOTS;

/// Result of a read's looks.
#[derive(Clone, Copy, Debug, PartialEq, Eq)]
pub(crate) enum Sought {
    /// Nothing was published.
    Empty,
    /// Each try found a newer message; the newest that was seen has this number.
    Busy(u64),
    /// The message of this word is held.
    Found(u64),
}

/// Announces the word that was loaded, and looks again.
fn try_to_hold<const READERS: usize>(reader: &mut ReaderSeat<READERS>, word: u64) -> u64
    requires turn { MayAnnounce reader.old.knows.view }
    requires word { word ≡ word_of reader.old.knows.view.phase }
    ensures { LooksAgain (slots_for READERS)
        (reader_with reader.old (reads reader.old.knows (announces reader.old.knows.view))) reader.new result }
{
    reader.announce(word);
    reader.load_second()
}

/// Looks for the newest message, and tries to hold it.
pub(crate) fn seek<const READERS: usize>(reader: &mut ReaderSeat<READERS>, tries: u8) -> Sought
    requires idle { IsIdle reader.old.knows.view }
    requires tries { 0 < tries }
    ensures place { (reader.new.port ≡ reader.old.port) × (reader.new.place ≡ reader.old.place) }
    ensures answer { SeekAnswer (slots_for READERS) reader.old reader.new tries result }
{
    let mut word = reader.load_first();
    if word == 0 {
        return Sought::Empty;
    }
    for i in 0..tries {
        let found = try_to_hold(reader, word);
        if found == word {
            return Sought::Found(word);
        }
        word = found;
    }
    reader.clear();
    Sought::Busy(word / MOST_SLOTS)
}
