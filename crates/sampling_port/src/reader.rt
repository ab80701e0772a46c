//! The reading end.
ghost use Rattle.std.specs.Prelude.{◌≡◌, ℕ, ◌+◌, ◌*◌, ◌<◌, ◌≤◌, length, slice_index, IfErr, IfOk};
ghost use Rattle.slot_core.specs.Limits.{longest_message};
ghost use Rattle.slot_core.specs.State.{last_of};
ghost use Rattle.sampling_port.specs.Ends.{IsHeldAfter, IsNotHeld, IsSameEnd, ReadAnswer, AreTries, end_of_reader};
ghost use Rattle.sampling_port.specs.Reads.{IsIdle};

use crate::copy::{copy_octets, head};
use crate::reader_seat::ReaderSeat;
use crate::seek::{Sought, seek};
use slot_core::MOST_SLOTS;
use std::marker::Model;

/// Most tries of a read (own).
pub const MOST_TRIES: u8 = 8;

/// Result of a read.
#[derive(Clone, Copy, Debug, PartialEq, Eq)]
pub enum Read {
    /// The message of this number, which came at `time` microseconds. The first `len` octets of `out` are
    /// its octets.
    Message { number: u64, time: u64, len: usize },
    /// Nothing was published.
    Empty,
    /// Each try found a newer message than the one before; the newest that was seen has this number.
    Busy { number: u64 },
}

/// Fault of a hold.
#[derive(Clone, Copy, Debug, PartialEq, Eq)]
pub enum NotHeld {
    /// Nothing was published.
    Empty,
    /// Each try found a newer message than the one before; the newest that was seen has this number.
    Busy { number: u64 },
}

/// Reading end of a port, which announces nothing. Contracts see the messages published when it last
/// looked or met the writer, its looks, true for each that ended with a hold, and its number of steps.
#[derive(Drop)]
pub struct Reader<const READERS: usize> {
    pub(crate) seat: ReaderSeat<READERS>,
}

impl<const READERS: usize> Model for Reader<READERS> {
    ghost use Rattle.sampling_port.specs.Ends.{ReaderEnd};

    ghost Value = { ReaderEnd };

    ghost use Rattle.sampling_port.specs.Ends.{end_of_reader};
    ghost use Rattle.sampling_port.specs.Reads.{IsIdle};

    ghost view = { λ r. end_of_reader r.seat };

    ghost invariant = { λ r. IsIdle r.seat.knows.view };
}

/// A reader that holds a message: nobody writes its slot, whatever is published meanwhile. A `Held` that
/// is dropped keeps the slot out of use for good; the writer goes on with the others.
#[derive(Drop)]
pub struct Held<const READERS: usize> {
    seat: ReaderSeat<READERS>,
    /// The word of `latest` that shows the message.
    word: u64,
    len: usize,
    time: u64,
}

impl<const READERS: usize> Model for Held<READERS> {
    ghost use Rattle.std.specs.Prelude.{◌≡◌, slice_index};
    ghost use Rattle.sampling_port.specs.Ends.{ReaderEnd};

    ghost Value = { ReaderEnd };

    ghost use Rattle.slot_core.specs.State.{last_of};
    ghost use Rattle.sampling_port.specs.Ends.{end_of_reader};
    ghost use Rattle.sampling_port.specs.Rule.{slots_for};
    ghost use Rattle.sampling_port.specs.Reads.{IsHeld};

    ghost view = { λ h. end_of_reader h.seat };

    ghost invariant = { λ h. IsHeld (slots_for READERS) h.seat.knows.view h.word ×
        (h.len ≡ slice_index (last_of h.seat.knows.view.seen) 0) ×
        (h.time ≡ slice_index (last_of h.seat.knows.view.seen) 1) };
}

impl<const READERS: usize> Reader<READERS> {
    /// A reader of a seat that is idle.
    pub fn from_seat(seat: ReaderSeat<READERS>) -> Reader<READERS>
        requires { IsIdle seat.knows.view }
        ensures { result ≡ end_of_reader seat.entry }
    {
        Reader { seat }
    }

    /// Its seat, which is idle.
    pub fn into_seat(self) -> ReaderSeat<READERS>
        ensures end { end_of_reader result ≡ self.entry }
        ensures idle { IsIdle result.knows.view }
    {
        self.seat
    }

    /// Reads the newest message. It looks again up to `tries` times, 1 to 8, and waits for nobody.
    /// Octets of `out` past the message are unchanged; without a message, all of `out` is.
    ///
    /// ```rust
    /// let mut out = [99; 1471];
    /// check_read(rt, reader, &mut out, Read::Empty);
    /// check_octets(rt, &out, [99, 99, 99, 99]);
    /// publish(rt, writer, 1000, &[7, 8, 9], 1);
    /// check_read(rt, reader, &mut out, message(1, 1000, 3));
    /// check_octets(rt, &out, [7, 8, 9, 99]);
    /// ```
    pub fn read(&mut self, tries: u8, out: &mut [u8; 1471]) -> Read
        requires { AreTries tries }
        ensures end { IsSameEnd self.old self.new }
        ensures answer { ReadAnswer self.old self.new tries out.old out.new result }
    {
        match seek(&mut self.seat, tries) {
            Sought::Empty => Read::Empty,
            Sought::Busy(number) => Read::Busy { number },
            Sought::Found(word) => {
                let (len, time) = head(&mut self.seat, word);
                copy_octets(&mut self.seat, word, len, out);
                self.seat.clear();
                Read::Message {
                    number: word / MOST_SLOTS,
                    time,
                    len,
                }
            }
        }
    }

    /// Holds the newest message, without copying it. It looks again up to `tries` times, 1 to 8, and waits
    /// for nobody. If nothing is held it hands the reader back.
    ///
    /// ```rust
    /// let mut held = hold(rt, reader, 1);
    /// assert_eq!(rt; (held.time(), held.len()), (1000, 17));
    /// check_words(rt, &mut held, &words_of_seventeen());
    /// let mut reader = held.release();
    /// ```
    pub fn hold(self, tries: u8) -> Result<Held<READERS>, (Reader<READERS>, NotHeld)>
        requires { AreTries tries }
        ensures held { IfOk result (λ held. IsSameEnd self.entry held × IsHeldAfter self.entry held tries 2) }
        ensures not { IfErr result (λ not. IsSameEnd self.entry not.0 × IsNotHeld self.entry not.0 tries not.1) }
    {
        let Self { mut seat } = self;
        match seek(&mut seat, tries) {
            Sought::Empty => Err((Reader { seat }, NotHeld::Empty)),
            Sought::Busy(number) => Err((Reader { seat }, NotHeld::Busy { number })),
            Sought::Found(word) => {
                let (len, time) = head(&mut seat, word);
                Ok(Held {
                    seat,
                    word,
                    len,
                    time,
                })
            }
        }
    }
}

impl<const READERS: usize> Held<READERS> {
    /// Number of the message.
    pub fn number(&self) -> u64
        ensures { result ≡ length self.now.seen }
    {
        self.word / MOST_SLOTS
    }

    /// Arrival time, in microseconds.
    pub fn time(&self) -> u64
        ensures { result ≡ slice_index (last_of self.now.seen) 1 }
    {
        self.time
    }

    /// Length, in octets.
    pub fn len(&self) -> usize
        ensures value { result ≡ slice_index (last_of self.now.seen) 0 }
        ensures short { result ≤ longest_message }
    {
        self.len
    }

    /// Eight of its octets, from `8 * place` on, the first one most significant, with zeros after the end
    /// of the message.
    pub fn word(&mut self, place: usize) -> u64
        requires { 8 * place < slice_index (last_of self.old.seen) 0 }
        ensures value { result ≡ slice_index (last_of self.old.seen) (2 + place) }
        ensures step { self.new ≡ record self.old { steps = self.old.steps + 1 } }
    {
        self.seat.load_word(self.word, 2 + place)
    }

    /// Releases the message.
    pub fn release(self) -> Reader<READERS>
        ensures { result ≡ record self.entry { steps = self.entry.steps + 1 } }
    {
        let Self {
            mut seat,
            word: _,
            len: _,
            time: _,
        } = self;
        seat.clear();
        Reader { seat }
    }
}
