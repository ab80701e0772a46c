//! What one network alone keeps of a link.
ghost use Rattle.std.specs.Prelude.{◌≡◌, ℕ, List, [], ◌∷◌, None, Some};
ghost use Rattle.link_rules.specs.Integrity.{latest, may_follow};
ghost use Rattle.integrity_check.specs.Kept.{StandsFor};

use integrity_check::Sequence;

/// The state of integrity checking on one network, and when its latest frame came. It needs nothing of the other
/// network, so that it can stand with a thread that receives from this one alone.
#[derive(Drop)]
pub struct NetChecks {
    pub(crate) sequence: Sequence,
    /// Arrival time of the latest frame, in microseconds, whatever its verdict.
    pub(crate) latest: Option<u64>,
}

impl NetChecks {
    /// The state before the first frame. `window` is the number of sequence numbers after the latest that pass.
    pub fn new(window: u8) -> NetChecks
        ensures sequence { StandsFor result.sequence window [] }
        ensures latest { result.latest ≡ None }
    {
        NetChecks {
            sequence: Sequence::opening(window),
            latest: None,
        }
    }

    /// Whether a frame with this sequence number passes integrity checking.
    pub fn check(&self, sequence_number: u8) -> bool
        ensures { (window : ℕ) (sequence_numbers : List ℕ) → StandsFor self.now.sequence window sequence_numbers →
            result ≡ may_follow window (latest sequence_numbers) sequence_number }
    {
        self.sequence.check(sequence_number)
    }

    /// Notes a frame that came at `now`, in microseconds, whether it passed or not.
    pub fn note(&mut self, sequence_number: u8, now: u64)
        ensures sequence { (window : ℕ) (sequence_numbers : List ℕ) → StandsFor self.old.sequence window sequence_numbers →
            StandsFor self.new.sequence window (sequence_number ∷ sequence_numbers) }
        ensures latest { self.new.latest ≡ Some now }
    {
        self.sequence.note(sequence_number);
        self.latest = Some(now);
    }

    /// Arrival time of the latest frame, in microseconds. None if none came.
    pub fn latest(&self) -> Option<u64>
        ensures { result ≡ self.now.latest }
    {
        self.latest
    }
}
