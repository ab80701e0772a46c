//! Redundancy management of one link: the first copy of each frame is forwarded, and the others are redundant (ARINC
//! 664 Part 7, redundancy management; order and table own). A `Redundancy` keeps two numbers of the forwarded frames;
//! it answers as the definition does of the whole list of them. No memory is taken.
#![tactic(auto)]

ghost use Rattle.std.specs.Prelude.{◌≡◌, ℕ, List, [], ◌∷◌};
ghost use Rattle.link_rules.specs.Redundancy.{Forwarded, is_ahead, is_first_copy};
ghost use Rattle.redundancy_manager.specs.Kept.{StandsFor};

use std::marker::Model;

/// The forwarded frames of one link, by their summary.
#[derive(Debug, Drop)]
pub struct Redundancy {
    skew_max: u64,
    /// None before the first forwarded frame.
    summary: Option<Summary>,
}

/// Summary of the forwarded frames, with which the next frame is compared.
#[derive(Clone, Copy, Debug)]
struct Summary {
    /// Sequence number of the latest.
    latest_number: u8,
    /// Greatest arrival time of all, in microseconds.
    greatest_time: u64,
}

impl Model for Redundancy {
    ghost use Rattle.redundancy_manager.specs.Kept.{Kept};

    ghost Value = { Kept };

    ghost use Rattle.redundancy_manager.specs.View.{summary_seen};

    ghost view = { λ r. record { skew_max = r.skew_max; summary = summary_seen r.summary } };
}

impl Redundancy {
    /// The state before the first forwarded frame. `skew_max` is SkewMax, in microseconds.
    pub fn opening(skew_max: u64) -> Redundancy
        ensures { StandsFor result skew_max [] }
    {
        Redundancy {
            skew_max,
            summary: None,
        }
    }

    /// Whether a frame with this sequence number that passed integrity checking is forwarded at `now`, in microseconds:
    /// it is the first; or the greatest time of the forwarded ones is more than SkewMax ago; or its number is ahead of
    /// the latest's.
    pub fn would_forward(&self, sequence_number: u8, now: u64) -> bool
        ensures { (skew_max : ℕ) (frames : List Forwarded) → StandsFor self.now skew_max frames →
            result ≡ is_first_copy skew_max frames sequence_number now }
    {
        match self.summary {
            None => true,
            Some(before) => {
                now.saturating_sub(before.greatest_time) > self.skew_max
                    || is_ahead(before.latest_number, sequence_number)
            }
        }
    }

    /// Notes a forwarded frame with this sequence number, at `now`, in microseconds.
    pub fn note_forwarded(&mut self, sequence_number: u8, now: u64)
        ensures { (skew_max : ℕ) (frames : List Forwarded) → StandsFor self.old skew_max frames →
            StandsFor self.new skew_max (record { sequence_number = sequence_number; time = now } ∷ frames) }
    {
        let greatest_time = match self.summary {
            None => now,
            Some(before) => now.max(before.greatest_time),
        };
        self.summary = Some(Summary {
            latest_number: sequence_number,
            greatest_time,
        });
    }

    /// A copy, of the same frames.
    pub fn copy(&self) -> Redundancy
        ensures { result ≡ self.now }
    {
        Redundancy {
            skew_max: self.skew_max,
            summary: self.summary,
        }
    }
}

/// Whether sequence number `sequence_number` is ahead of `latest`: one of the 127 numbers after it on the
/// circle of 1 to 255, where 0 lies between the upper and the lower half.
fn is_ahead(latest: u8, sequence_number: u8) -> bool
    ensures { result ≡ is_ahead latest sequence_number }
{
    if latest == 0 {
        1 <= sequence_number && sequence_number <= 127
    } else if sequence_number == 0 {
        128 <= latest
    } else {
        let distance = (u16::from(sequence_number) + 255 - u16::from(latest)) % 255;
        1 <= distance && distance <= 127
    }
}
