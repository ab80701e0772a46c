//! Integrity checking of one link on one network: which frames pass, by their sequence numbers (ARINC
//! 664 Part 7, integrity checking; the window is own). A `Sequence` keeps the window and the latest
//! sequence number; it answers as the definition does of the whole list of numbers that it was told. No
//! memory is taken.
#![tactic(auto)]

ghost use Rattle.std.specs.Prelude.{◌≡◌, ℕ, List, [], ◌∷◌};
ghost use Rattle.link_rules.specs.Integrity.{is_among_next, latest, may_follow};
ghost use Rattle.integrity_check.specs.Kept.{StandsFor};

use std::marker::Model;

/// The sequence numbers of one link's frames on one network, passed or not, by the window and the latest
/// of them.
#[derive(Debug, Drop)]
pub struct Sequence {
    window: u8,
    last: Option<u8>,
}

impl Model for Sequence {
    ghost use Rattle.integrity_check.specs.Kept.{Kept};

    ghost Value = { Kept };

    ghost view = { λ s. record { window = s.window; last = s.last } };
}

impl Sequence {
    /// The state before the first frame. `window` is the number of sequence numbers after the latest
    /// that pass.
    pub fn opening(window: u8) -> Sequence
        ensures { StandsFor result window [] }
    {
        Sequence { window, last: None }
    }

    /// Whether a frame with this sequence number, 0 to 255, passes: it is the first, a reset (0), or
    /// within the window after the latest.
    pub fn check(&self, sequence_number: u8) -> bool
        ensures { (window : ℕ) (sequence_numbers : List ℕ) → StandsFor self.now window sequence_numbers →
            result ≡ may_follow window (latest sequence_numbers) sequence_number }
    {
        match self.last {
            None => true,
            Some(last) => {
                sequence_number == 0 || is_among_next(self.window, last, sequence_number)
            }
        }
    }

    /// Notes a frame, passed or not.
    pub fn note(&mut self, sequence_number: u8)
        ensures { (window : ℕ) (sequence_numbers : List ℕ) → StandsFor self.old window sequence_numbers →
            StandsFor self.new window (sequence_number ∷ sequence_numbers) }
    {
        self.last = Some(sequence_number);
    }

    /// A copy, of the same sequence numbers.
    pub fn copy(&self) -> Sequence
        ensures { result ≡ self.now }
    {
        Sequence {
            window: self.window,
            last: self.last,
        }
    }
}

/// Whether a sequence number is among the first `window` that follow `before`.
fn is_among_next(window: u8, before: u8, sequence_number: u8) -> bool
    ensures { result ≡ is_among_next window before sequence_number }
{
    if window == 0 {
        return false;
    }
    // 1 after 255, since 0 means a sender's reset.
    let next = if before == 255 { 1 } else { before + 1 };
    sequence_number == next || is_among_next(window - 1, next, sequence_number)
}
