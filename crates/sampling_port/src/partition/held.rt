//! A message that a partition holds.
ghost use Rattle.std.specs.Prelude.{◌≡◌, ℕ, ◌+◌, ◌<◌, ◌≤◌, length, slice_index};
ghost use Rattle.slot_core.specs.Limits.{longest_message};
ghost use Rattle.slot_core.specs.Octets.{octet_of_words};
ghost use Rattle.slot_core.specs.State.{last_of};
ghost use Rattle.es_base.specs.Age.{freshness as freshness_at};
ghost use Rattle.sampling_port.specs.Partition.{after_steps, words_of_range};

use crate::partition::PartitionReader;
use crate::partition::copy::copy_octets;
use crate::reader::Held;
use es_base::{Freshness, freshness};
use slot_core::READERS;
use std::marker::Model;

/// A partition's reader that holds a message: nobody writes its slot, whatever is published meanwhile. It isn't `Drop`,
/// so a partition that neither releases it nor hands it on doesn't compile.
pub struct HeldMessage {
    held: Held<READERS>,
    refresh: u64,
    max: usize,
}

impl Model for HeldMessage {
    ghost use Rattle.std.specs.Prelude.{◌≤◌};
    ghost use Rattle.slot_core.specs.Limits.{longest_message};
    ghost use Rattle.sampling_port.specs.Partition.{PartitionView};

    ghost Value = { PartitionView };

    ghost view = { λ h. record { end = h.held; refresh = h.refresh; max = h.max } };

    ghost invariant = { λ h. h.max ≤ longest_message };
}

impl HeldMessage {
    /// The held message of a port with this refresh period and longest message.
    pub(crate) fn of(held: Held<READERS>, refresh: u64, max: usize) -> HeldMessage
        requires { max ≤ longest_message }
        ensures { result ≡ record { end = held; refresh = refresh; max = max } }
    {
        HeldMessage { held, refresh, max }
    }

    /// Number of the message.
    pub fn number(&self) -> u64
        ensures { result ≡ length self.now.end.seen }
    {
        self.held.number()
    }

    /// Arrival time, in microseconds.
    pub fn time(&self) -> u64
        ensures { result ≡ slice_index (last_of self.now.end.seen) 1 }
    {
        self.held.time()
    }

    /// Length, in octets.
    pub fn len(&self) -> usize
        ensures value { result ≡ slice_index (last_of self.now.end.seen) 0 }
        ensures short { result ≤ longest_message }
    {
        self.held.len()
    }

    /// Whether it is fresh at `now` microseconds, by the refresh period of its port. `now` is of the clock of the
    /// arrival times.
    pub fn validity(&self, now: u64) -> Freshness
        ensures { result ≡ freshness_at now (slice_index (last_of self.now.end.seen) 1) self.now.refresh }
    {
        freshness(now, self.held.time(), self.refresh)
    }

    /// Fills `out` with octets of the message, from `first` on. Each word that has some of them is loaded once.
    ///
    /// ```rust
    /// let mut whole = [0; 17];
    /// assert!(rt; held.len() == 17);
    /// held.copy_range(0, &mut whole);
    /// assert!(rt; whole == seventeen());
    /// ```
    pub fn copy_range(&mut self, first: usize, out: &mut [u8])
        requires { first + length out.old ≤ slice_index (last_of self.old.end.seen) 0 }
        ensures octets { (k : ℕ) → k < length out.new → slice_index out.new k ≡ octet_of_words (last_of self.old.end.seen) (first + k) }
        ensures same { self.new ≡ after_steps self.old (words_of_range first (length out.new)) }
    {
        copy_octets(&mut self.held, first, out);
    }

    /// Releases the message.
    pub fn release(self) -> PartitionReader
        ensures { result ≡ after_steps self 1 }
    {
        let Self { held, refresh, max } = self;
        PartitionReader::new(held.release(), refresh, max)
    }
}
