//! The words of a message: its length in octets, its time in microseconds, and its octets, eight to a
//! word, most significant first, with zeros after the end (own).
ghost use Rattle.std.specs.Prelude.{◌≡◌, ◌==◌, ◌≤◌, ◌<◌, ◌^◌, IfOk, length};
ghost use Rattle.slot_core.specs.Limits.{longest_message};
ghost use Rattle.slot_core.specs.Message.{octets_after_end, words_for};
ghost use Rattle.slot_core.specs.Refusal.{is_padded};

use std::alloc::{AllocError, Global};
use std::marker::Model;

/// The words of a published message, which contracts see as a list.
#[derive(Debug, Drop)]
pub struct MessageWords {
    words: Vec<u64>,
}

impl Model for MessageWords {
    ghost use Rattle.std.specs.Prelude.{List, ℕ};

    ghost Value = { List ℕ };

    ghost view = { λ m. m.words.items };
}

impl MessageWords {
    /// A copy of `words`.
    pub(crate) fn copy_of(alloc: Global, words: &[u64]) -> Result<MessageWords, AllocError>
        ensures { IfOk result (λ copy. copy ≡ words.now) }
    {
        Ok(MessageWords {
            words: Vec::from_slice(alloc, words)?,
        })
    }

    pub fn as_slice(&self) -> &[u64]
        ensures { result.now ≡ self.now }
    {
        self.words.as_slice()
    }

    /// Number of words: 2 to `WORDS`.
    pub fn len(&self) -> usize
        ensures { result ≡ length self.now }
    {
        self.words.len()
    }

    pub fn is_empty(&self) -> bool
        ensures { result ≡ (length self.now == 0) }
    {
        self.words.is_empty()
    }
}

/// Number of words of a message of this many octets.
pub(crate) fn words_for(octets: u64) -> usize
    requires { octets ≤ longest_message }
    ensures { result ≡ words_for octets }
{
    2 + (octets as usize + 7) / 8
}

/// Whether the word at this index has zeros after the end of a message of this many octets.
pub(crate) fn is_padded(octets: u64, index: usize, word: u64) -> bool
    requires short { octets ≤ longest_message }
    requires within { index < words_for octets }
    ensures { result ≡ is_padded octets index word }
{
    let after_end = (8 * index.saturating_sub(1)).saturating_sub(octets as usize);
    word % power_of_256(after_end) == 0
}

fn power_of_256(exponent: usize) -> u64
    requires { exponent < 8 }
    ensures value { result ≡ 256 ^ exponent }
    ensures positive { 0 < result }
{
    256u64.pow(exponent as u32)
}
