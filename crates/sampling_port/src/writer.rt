//! The publishing end.
ghost use Rattle.std.specs.Prelude.{◌≡◌, ◌+◌, ◌≤◌, None, Some, length, IfErr, IfOk};
ghost use Rattle.slot_core.specs.Limits.{most_messages};
ghost use Rattle.sampling_port.specs.Ends.{IsPublished, new_writer, publish_fault};
ghost use Rattle.sampling_port.specs.Rule.{new_writer_log, slots_for};

use crate::publish::publish_message;
use crate::writer_seat::WriterSeat;
use slot_core::{LONGEST_MESSAGE, MOST_MESSAGES};
use std::marker::Model;

/// Fault of a publication.
#[derive(Clone, Copy, Debug, PartialEq, Eq)]
pub enum PublishFault {
    /// It has more than `LONGEST_MESSAGE` octets, 1471.
    TooLong,
    /// The port has numbered `MOST_MESSAGES` messages, 2^60 - 1.
    Exhausted,
}

/// Publishing end of a port. Contracts see the words of each message that it published, in order, and
/// its number of steps.
#[derive(Drop)]
pub struct Writer<const READERS: usize> {
    pub(crate) seat: WriterSeat<READERS>,
    /// The word in `latest`.
    last: u64,
    /// Number of published messages.
    count: u64,
}

impl<const READERS: usize> Model for Writer<READERS> {
    ghost use Rattle.std.specs.Prelude.{◌≡◌, ◌≤◌, length};
    ghost use Rattle.sampling_port.specs.Ends.{WriterEnd};

    ghost Value = { WriterEnd };

    ghost use Rattle.slot_core.specs.Limits.{most_messages};
    ghost use Rattle.sampling_port.specs.Rule.{slots_for};
    ghost use Rattle.sampling_port.specs.Writes.{IsAtRest};

    ghost view = { λ w. record {
      port = w.seat.port;
      published = w.seat.knows.view.published;
      steps = w.seat.knows.steps;
    } };

    ghost invariant = { λ w. IsAtRest w.seat.knows.view × (w.last ≡ w.seat.knows.view.last) ×
        (w.count ≡ length w.seat.knows.view.published) × (w.count ≤ most_messages) × (READERS ≤ 14) };
}

impl<const READERS: usize> Writer<READERS> {
    /// A writer of a seat that has made no step.
    pub fn from_seat(seat: WriterSeat<READERS>) -> Writer<READERS>
        requires new { seat.knows ≡ new_writer_log }
        requires slots { READERS ≤ 14 }
        ensures { result ≡ new_writer seat.entry.port }
    {
        Writer {
            seat,
            last: 0,
            count: 0,
        }
    }

    /// Number of published messages: at most 2^60 - 1.
    pub fn published(&self) -> u64
        ensures value { result ≡ length self.now.published }
        ensures few { result ≤ most_messages }
    {
        self.count
    }

    /// Publishes a message of these octets that came at `time` microseconds, and returns its number: 1, 2,
    /// 3 and so on. It waits for nobody, takes no memory, and nothing that a reader does can refuse it. It
    /// makes a step for each reader, one for each word, and one more.
    ///
    /// ```rust
    /// publish(rt, writer, 1000, &[1, 2, 3], 1);
    /// publish(rt, writer, 2000, &[], 2);
    /// assert_eq!(rt;
    ///     writer.publish(3000, &[0; 1472]),
    ///     Err(PublishFault::TooLong)
    /// );
    /// ```
    // rule: SAMP-21
    pub fn publish(&mut self, time: u64, octets: &[u8]) -> Result<u64, PublishFault>
        ensures fault { IfErr result (λ fault. publish_fault (length self.old.published) (length octets.now) ≡ Some fault) }
        ensures unchanged { IfErr result (λ _. self.new ≡ self.old) }
        ensures none { IfOk result (λ _. publish_fault (length self.old.published) (length octets.now) ≡ None) }
        ensures number { IfOk result (λ number. number ≡ length self.old.published + 1) }
        ensures published { IfOk result (λ _. IsPublished READERS self.old self.new octets.now time) }
    {
        if octets.len() as u64 > LONGEST_MESSAGE {
            return Err(PublishFault::TooLong);
        }
        if self.count == MOST_MESSAGES {
            return Err(PublishFault::Exhausted);
        }
        self.last = publish_message(&mut self.seat, self.count, self.last, time, octets);
        self.count += 1;
        Ok(self.count)
    }
}
