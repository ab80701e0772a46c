//! A line that is put together from its end.
ghost use Rattle.std.specs.Prelude.{◌≡◌, ◌+◌, ◌≤◌, ◌∷◌, ◌++◌, [], length};
ghost use Rattle.std.specs.Fmt.{decimal};

use itoa::write_digits;
use std::marker::Model;

/// Longest line, in bytes, with its end.
const ROOM: usize = 128;

/// The last part of a line, with its end. What comes before it is put to its front, so that digits and
/// words are written in their place.
#[derive(Drop)]
pub(crate) struct LineEnd {
    bytes: [u8; ROOM],
    start: usize,
}

impl Model for LineEnd {
    ghost use Rattle.std.specs.Prelude.{◌≤◌, List, ℕ, drop};

    ghost Value = { List ℕ };

    ghost view = { λ line. drop line.start line.bytes };

    ghost invariant = { λ line. line.start ≤ 128 };
}

impl LineEnd {
    /// The end of a line.
    #[inline(always)]
    pub(crate) fn new() -> LineEnd
        ensures { result ≡ 10 ∷ [] }
    {
        let mut bytes = [0; ROOM];
        bytes[ROOM - 1] = b'\n';
        LineEnd {
            bytes,
            start: ROOM - 1,
        }
    }

    /// Puts a number, in decimal, before it.
    #[inline(always)]
    pub(crate) fn put_number(&mut self, number: u64)
        requires room { length self.old + 20 ≤ 128 }
        ensures text { self.new ≡ decimal number ++ self.old }
        ensures len { length self.new ≤ length self.old + 20 }
    {
        self.start = write_digits(number, &mut self.bytes, self.start);
    }

    /// Puts a word before it.
    #[inline(always)]
    pub(crate) fn put_word(&mut self, word: &str)
        requires room { length self.old + length word.now ≤ 128 }
        ensures text { self.new ≡ word.now ++ self.old }
        ensures len { length self.new ≡ length self.old + length word.now }
    {
        let start = self.start - word.len();
        self.bytes[start..self.start].copy_from_slice(word.as_bytes());
        self.start = start;
    }

    /// The line so far.
    #[inline(always)]
    pub(crate) fn as_slice(&self) -> &[u8]
        ensures { result.now ≡ self.now }
    {
        &self.bytes[self.start..]
    }
}
