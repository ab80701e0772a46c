//! State of a reader in a core.
ghost use Rattle.std.specs.Prelude.{◌≡◌, ℕ, List, length};
ghost use Rattle.slot_core.specs.State.{word_of};
ghost use Rattle.slot_core.specs.Steps.{announces, begins, clears, first_phase, looks_again, second_phase};
ghost use Rattle.slot_core.specs.Refusal.{has_announced, has_loaded, is_free, is_holding};
ghost use Rattle.slot_core.specs.Stored.{view_of};

use crate::Phase;

#[derive(Clone, Copy, Debug)]
pub(crate) struct Reader {
    pub phase: Phase,
    /// Its announcement.
    pub own: u64,
    /// Number of messages published when it last loaded `latest`.
    pub seen: usize,
}

impl Reader {
    /// A reader that has loaded nothing.
    pub(crate) const fn newcomer() -> Reader
        ensures { result ≡ record { phase = Phase.Idle; own = 0; seen = 0 } }
    {
        Reader {
            phase: Phase::Idle,
            own: 0,
            seen: 0,
        }
    }

    /// The word that it loaded, or 0.
    pub(crate) fn word(&self) -> u64
        ensures { result ≡ word_of self.now.phase }
    {
        match self.phase {
            Phase::Idle => 0,
            Phase::Loaded(word) | Phase::Announced(word) | Phase::Holding(word) => word,
        }
    }

    pub(crate) fn is_free(&self) -> bool
        ensures { result ≡ is_free self.now.phase }
    {
        matches!(self.phase, Phase::Idle | Phase::Loaded(_))
    }

    pub(crate) fn has_loaded(&self) -> bool
        ensures { result ≡ has_loaded self.now.phase }
    {
        matches!(self.phase, Phase::Loaded(_))
    }

    pub(crate) fn has_announced(&self) -> bool
        ensures { result ≡ has_announced self.now.phase }
    {
        matches!(self.phase, Phase::Announced(_))
    }

    pub(crate) fn is_holding(&self) -> bool
        ensures { result ≡ is_holding self.now.phase }
    {
        matches!(self.phase, Phase::Holding(_))
    }

    // ---- what each step makes of it, if this many messages are published

    /// It loaded `latest`, and found this word.
    pub(crate) fn begins(&self, found: u64, published: usize) -> Reader
        ensures view { (all : List (List ℕ)) → length all ≡ published →
            view_of all result ≡ begins (view_of all self.now) found all }
        ensures seen { result.seen ≡ published }
    {
        Reader {
            phase: first_phase(found),
            own: self.own,
            seen: published,
        }
    }

    /// It announced its word.
    pub(crate) fn announces(&self) -> Reader
        ensures view { (all : List (List ℕ)) → view_of all result ≡ announces (view_of all self.now) }
        ensures seen { result.seen ≡ self.now.seen }
    {
        let word = self.word();
        Reader {
            phase: Phase::Announced(word),
            own: word,
            seen: self.seen,
        }
    }

    /// It loaded `latest` again, and found this word.
    pub(crate) fn looks_again(&self, found: u64, published: usize) -> Reader
        ensures view { (all : List (List ℕ)) → length all ≡ published →
            view_of all result ≡ looks_again (view_of all self.now) found all }
        ensures seen { result.seen ≡ published }
    {
        Reader {
            phase: second_phase(self.word(), found),
            own: self.own,
            seen: published,
        }
    }

    /// It cleared its announcement.
    pub(crate) fn clears(&self) -> Reader
        ensures view { (all : List (List ℕ)) → view_of all result ≡ clears (view_of all self.now) }
        ensures seen { result.seen ≡ self.now.seen }
    {
        Reader {
            phase: Phase::Idle,
            own: 0,
            seen: self.seen,
        }
    }
}

/// Phase of a reader after its first load of `latest`.
fn first_phase(found: u64) -> Phase
    ensures { result ≡ first_phase found }
{
    if found == 0 {
        Phase::Idle
    } else {
        Phase::Loaded(found)
    }
}

/// Phase of a reader that announced this word, after it loaded `latest` again.
fn second_phase(word: u64, found: u64) -> Phase
    ensures { result ≡ second_phase word found }
{
    if found == word {
        Phase::Holding(word)
    } else {
        Phase::Loaded(found)
    }
}
