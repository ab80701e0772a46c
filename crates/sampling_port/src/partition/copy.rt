//! Octets of the held message, by words.
ghost use Rattle.std.specs.Prelude.{◌≡◌, ℕ, ◌+◌, ◌-◌, ◌*◌, ◌/◌, ◌%◌, ◌^◌, ◌<◌, ◌≤◌, length, slice_index};
ghost use Rattle.slot_core.specs.Octets.{octet_of_words};
ghost use Rattle.slot_core.specs.State.{last_of};
ghost use Rattle.sampling_port.specs.Ends.{IsSameEnd};
ghost use Rattle.sampling_port.specs.Partition.{PlainAnswer, words_of_range};

use crate::reader::{Held, MOST_TRIES, NotHeld, Read, Reader};
use slot_core::READERS;

/// Writes `count` octets of a word, from its octet `from` on, over those of `out` from `first` on. The first octet of
/// a word is its most significant one.
fn write_part(out: &mut [u8], first: usize, word: u64, from: usize, count: usize)
    requires { (from + count ≤ 8) × (first + count ≤ length out.old) }
    ensures within { (i : ℕ) → i < count → slice_index out.new (first + i) ≡ word / 256 ^ (7 - (from + i)) % 256 }
    ensures before { (k : ℕ) → k < first → slice_index out.new k ≡ slice_index out.old k }
    ensures after { (k : ℕ) → first + count ≤ k → slice_index out.new k ≡ slice_index out.old k }
{
    out[first..first + count].copy_from_slice(&word.to_be_bytes()[from..from + count]);
}

/// Writes all eight octets of a word over those of `out` from `first` on: a single store, since their number is known
/// to the compiler.
fn write_word(out: &mut [u8], first: usize, word: u64)
    requires { first + 8 ≤ length out.old }
    ensures within { (i : ℕ) → i < 8 → slice_index out.new (first + i) ≡ word / 256 ^ (7 - i) % 256 }
    ensures before { (k : ℕ) → k < first → slice_index out.new k ≡ slice_index out.old k }
    ensures after { (k : ℕ) → first + 8 ≤ k → slice_index out.new k ≡ slice_index out.old k }
{
    out[first..first + 8].copy_from_slice(&word.to_be_bytes());
}

/// Writes `count` octets of a word as `write_part` does; nearly always all eight.
fn write_octets(out: &mut [u8], first: usize, word: u64, from: usize, count: usize)
    requires { (from + count ≤ 8) × (first + count ≤ length out.old) }
    ensures within { (i : ℕ) → i < count → slice_index out.new (first + i) ≡ word / 256 ^ (7 - (from + i)) % 256 }
    ensures before { (k : ℕ) → k < first → slice_index out.new k ≡ slice_index out.old k }
    ensures after { (k : ℕ) → first + count ≤ k → slice_index out.new k ≡ slice_index out.old k }
{
    if count == 8 {
        write_word(out, first, word);
    } else {
        write_part(out, first, word, from, count);
    }
}

/// Fills `out` with the octets of the message from `first` on. Each word that has some of them is loaded once.
pub(crate) fn copy_octets(held: &mut Held<READERS>, first: usize, out: &mut [u8])
    requires { first + length out.old ≤ slice_index (last_of held.old.seen) 0 }
    ensures octets { (k : ℕ) → k < length out.new → slice_index out.new k ≡ octet_of_words (last_of held.old.seen) (first + k) }
    ensures steps { held.new ≡ record held.old { steps = held.old.steps + words_of_range first (length out.new) } }
{
    // Called only for its contract: at most 1471 octets, so no sum here wraps.
    let _len = held.len();
    let end = first + out.len();
    for place in first / 8..(end + 7) / 8 {
        let word = held.word(place);
        let from = first.max(8 * place);
        let to = end.min(8 * place + 8);
        write_octets(out, from - first, word, from - 8 * place, to - from);
    }
}

/// Reads the newest message into `out`, as much of it as fits. The reader comes by value, since it is held. The slice
/// is returned, so that its borrower knows its octets.
pub(crate) fn read_moved<'a>(
    reader: Reader<READERS>,
    out: &'a mut [u8],
) -> (Reader<READERS>, (&'a mut [u8], Read))
    ensures same_reference { result.1.0.ghost_name ≡ out.entry.ghost_name }
    ensures size { length result.1.0.now ≡ length out.old }
    ensures end { IsSameEnd reader result.0 }
    ensures answer { PlainAnswer reader result.0 out.old result.1.0.now result.1.1 }
{
    match reader.hold(MOST_TRIES) {
        Ok(mut held) => {
            let (number, time, len) = (held.number(), held.time(), held.len());
            let count = len.min(out.len());
            copy_octets(&mut held, 0, &mut out[..count]);
            (held.release(), (out, Read::Message { number, time, len }))
        }
        Err((reader, fault)) => {
            let answer = match fault {
                NotHeld::Empty => Read::Empty,
                NotHeld::Busy { number } => Read::Busy { number },
            };
            (reader, (out, answer))
        }
    }
}
