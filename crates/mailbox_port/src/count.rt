//! Number of readers of a port.
ghost use Rattle.std.specs.Prelude.{◌≡◌, ◌<◌, ◌≤◌, IfSome, is_some};
ghost use Rattle.mailbox_port.specs.Port.{is_reader_count, most_readers};

use es_base::MOST_READERS;
use std::marker::Model;

/// Number of readers of a port, 1 to 8.
#[derive(Clone, Copy)]
pub struct ReaderCount {
    count: usize,
}

impl Model for ReaderCount {
    ghost use Rattle.std.specs.Prelude.{ℕ, ◌<◌, ◌≤◌};
    ghost use Rattle.mailbox_port.specs.Port.{most_readers};

    ghost Value = { ℕ };

    ghost view = { λ c. c.count };

    ghost inverse = { λ n. record { count = n } };

    ghost invariant = { λ c. (0 < c.count) × (c.count ≤ most_readers) };
}

impl ReaderCount {
    /// This number of readers; None for 0, and for 9 and more.
    pub fn new(count: usize) -> Option<ReaderCount>
        ensures valid { is_some result ≡ is_reader_count count }
        ensures value { IfSome result (λ made. made ≡ count) }
    {
        if count == 0 || MOST_READERS < count {
            None
        } else {
            Some(ReaderCount { count })
        }
    }

    /// The greatest number, 8.
    pub fn most() -> ReaderCount
        ensures { result ≡ most_readers }
    {
        ReaderCount {
            count: MOST_READERS,
        }
    }

    /// The number, 1 to 8.
    pub fn get(self) -> usize
        ensures value { result ≡ self }
        ensures some { 0 < result }
        ensures most { result ≤ most_readers }
    {
        self.count
    }
}
