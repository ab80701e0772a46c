//! Words and octets of a held message.
ghost use Rattle.std.specs.Prelude.{◌≡◌, ℕ, ◌+◌, ◌-◌, ◌*◌, ◌/◌, ◌%◌, ◌^◌, ◌<◌, ◌≤◌, length, slice_index};
ghost use Rattle.slot_core.specs.Limits.{longest_message};
ghost use Rattle.slot_core.specs.State.{last_of};
ghost use Rattle.sampling_port.specs.Ends.{IsCopy};
ghost use Rattle.sampling_port.specs.Rule.{slots_for};
ghost use Rattle.sampling_port.specs.Reads.{IsHeld};

use crate::reader_seat::ReaderSeat;

/// Writes the first `count` octets of a word, the first one most significant, over those of `out` from
/// `first` on.
fn write_octets(out: &mut [u8; 1471], first: usize, word: u64, count: usize)
    requires { (count ≤ 8) × (first + count ≤ longest_message) }
    ensures within { (i : ℕ) → i < count → slice_index out.new (first + i) ≡ word / 256 ^ (7 - i) % 256 }
    ensures before { (k : ℕ) → k < first → slice_index out.new k ≡ slice_index out.old k }
    ensures after { (k : ℕ) → first + count ≤ k → slice_index out.new k ≡ slice_index out.old k }
{
    out[first..first + count].copy_from_slice(&word.to_be_bytes()[..count]);
}

/// Length and time of the held message: its first two words, each loaded once.
pub(crate) fn head<const READERS: usize>(
    reader: &mut ReaderSeat<READERS>,
    word: u64,
) -> (usize, u64)
    requires { IsHeld (slots_for READERS) reader.old.knows.view word }
    ensures place { (reader.new.port ≡ reader.old.port) × (reader.new.place ≡ reader.old.place) }
    ensures view { (reader.new.knows.view ≡ reader.old.knows.view) × (reader.new.knows.looks ≡ reader.old.knows.looks) }
    ensures steps { reader.new.knows.steps ≡ reader.old.knows.steps + 2 }
    ensures len { result.0 ≡ slice_index (last_of reader.old.knows.view.seen) 0 }
    ensures time { result.1 ≡ slice_index (last_of reader.old.knows.view.seen) 1 }
{
    let len = reader.load_word(word, 0);
    let time = reader.load_word(word, 1);
    (len as usize, time)
}

/// Copies the octets of the held message to the beginning of `out`. Each of its words is loaded once.
pub(crate) fn copy_octets<const READERS: usize>(
    reader: &mut ReaderSeat<READERS>,
    word: u64,
    len: usize,
    out: &mut [u8; 1471],
)
    requires held { IsHeld (slots_for READERS) reader.old.knows.view word }
    requires len { len ≡ slice_index (last_of reader.old.knows.view.seen) 0 }
    ensures place { (reader.new.port ≡ reader.old.port) × (reader.new.place ≡ reader.old.place) }
    ensures view { (reader.new.knows.view ≡ reader.old.knows.view) × (reader.new.knows.looks ≡ reader.old.knows.looks) }
    ensures steps { reader.new.knows.steps ≡ reader.old.knows.steps + (len + 7) / 8 }
    ensures copy { IsCopy (last_of reader.old.knows.view.seen) out.old out.new len }
{
    for place in 0..len / 8 {
        let eight = reader.load_word(word, 2 + place);
        write_octets(out, 8 * place, eight, 8);
    }
    if len % 8 > 0 {
        let rest = reader.load_word(word, 2 + len / 8);
        write_octets(out, len / 8 * 8, rest, len % 8);
    }
}
