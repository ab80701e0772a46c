//! A publication.
ghost use Rattle.std.specs.Prelude.{◌≡◌, ◌≢◌, ℕ, ◌+◌, ◌*◌, ◌/◌, ◌<◌, ◌≤◌, List, length, slice_index};
ghost use Rattle.slot_core.specs.Limits.{longest_message, most_messages, most_slots};
ghost use Rattle.slot_core.specs.Message.{words_for};
ghost use Rattle.slot_core.specs.Octets.{word_at, words_of};
ghost use Rattle.sampling_port.specs.Rule.{slots_for};
ghost use Rattle.sampling_port.specs.Writes.{IsAtRest, Publishes};

use crate::writer_seat::WriterSeat;
use byteorder::{BigEndian, ByteOrder};
use slot_core::MOST_SLOTS;

/// Slot number of no slot.
const NO_SLOT: u64 = MOST_SLOTS;

/// The first slot that is neither the newest message's nor among those taken.
fn free_slot(taken: &[u64], newest: u64) -> u64
    requires { length taken.now + 2 ≤ most_slots }
    ensures below { result < length taken.now + 2 }
    ensures free { (k : ℕ) → k < length taken.now → slice_index taken.now k ≢ result }
    ensures apart { newest ≢ result }
{
    for slot in 0..taken.len() as u64 + 2 {
        if slot != newest && !taken.contains(&slot) {
            return slot;
        }
    }
    unreachable!()
}

/// Word of the eight octets from `8 * place` on, with zeros after the end.
fn eight_octets(octets: &[u8], place: usize) -> u64
    requires { 8 * place < length octets.now }
    ensures { result ≡ word_at octets.now place }
{
    let rest = &octets[8 * place..];
    if rest.len() >= 8 {
        return BigEndian::read_u64(rest);
    }
    BigEndian::read_u64(&with_zeros(rest))
}

/// These octets, with zeros after the end.
fn with_zeros(octets: &[u8]) -> [u8; 8]
    requires { length octets.now < 8 }
    ensures { (i : ℕ) → slice_index result i ≡ slice_index octets.now i }
{
    let mut eight = [0; 8];
    eight[..octets.len()].copy_from_slice(octets);
    eight
}

/// Word at this index of the message with this time and these octets.
fn word_of(time: u64, octets: &[u8], index: usize) -> u64
    requires short { length octets.now ≤ longest_message }
    requires within { index < words_for (length octets.now) }
    ensures { result ≡ slice_index (words_of octets.now time) index }
{
    if index == 0 {
        octets.len() as u64
    } else if index == 1 {
        time
    } else {
        eight_octets(octets, index - 2)
    }
}

/// Publishes a message, at a port that has published `count` and whose `latest` is `last`. Returns the
/// new word of `latest`.
pub(crate) fn publish_message<const READERS: usize>(
    seat: &mut WriterSeat<READERS>,
    count: u64,
    last: u64,
    time: u64,
    octets: &[u8],
) -> u64
    requires readers { READERS ≤ 14 }
    requires rest { IsAtRest seat.old.knows.view }
    requires known { (count ≡ length seat.old.knows.view.published) × (last ≡ seat.old.knows.view.last) }
    requires room { count < most_messages }
    requires short { length octets.now ≤ longest_message }
    ensures port { seat.new.port ≡ seat.old.port }
    ensures published { Publishes READERS seat.old.knows seat.new.knows octets.now time }
    ensures shown { result ≡ seat.new.knows.view.last }
{
    let newest = if last == 0 {
        NO_SLOT
    } else {
        last % MOST_SLOTS
    };
    let mut taken = [NO_SLOT; READERS];
    for reader in 0..READERS {
        let word = seat.scan(reader);
        if word != 0 {
            taken[reader] = word % MOST_SLOTS;
        }
    }
    let slot = free_slot(&taken, newest);
    for index in 0..2 + (octets.len() + 7) / 8 {
        seat.store_word(slot as usize, index, word_of(time, octets, index));
    }
    let shown = MOST_SLOTS * (count + 1) + slot;
    seat.store_latest(shown);
    shown
}
