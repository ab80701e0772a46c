//! What a partition gets that only reads a sampling port (ARINC 664 Part 7, sampling service): a reader that knows its
//! port's refresh period. A read says whether its message is fresh at the time of the read, as READ_SAMPLING_MESSAGE of
//! ARINC 653 does. A held message stays in place until it is released; it can't be dropped. Arrival times and the `now`
//! of a call are of one clock.
ghost use Rattle.std.specs.Prelude.{◌≡◌, ℕ, ◌+◌, ◌/◌, ◌≤◌, min, length, IfErr, IfOk};
ghost use Rattle.slot_core.specs.Limits.{longest_message};
ghost use Rattle.slot_core.specs.State.{StartsWithSeen, last_of};
ghost use Rattle.es_base.specs.Age.{freshness as freshness_at};
ghost use Rattle.sampling_port.specs.Ends.{IsCopy, IsHeadOf, IsHeldAfter, IsNotHeld, IsNothing, IsReadOvertaken};
ghost use Rattle.sampling_port.specs.Partition.{IfBusy, IfReadEmpty, IfReadMessage, IsCopyThatFits, IsSamePort, most_tries, partition_told};

mod copy;
mod held;
mod reading;

use crate::meeting::meet;
use crate::reader::{MOST_TRIES, NotHeld, Read, Reader};
use crate::writer::Writer;
use copy::read_moved;
use core::mem::replace_with;
use es_base::freshness;
pub use held::HeldMessage;
pub use reading::Reading;
use slot_core::READERS;
use std::marker::Model;

/// Reading end of a sampling port, for a partition, with the port's refresh period and longest message. Contracts see
/// the reader's end, the refresh period and the longest message.
///
/// ```rust
/// let mut reader = PartitionReader::new(first, 20_000, 16);
/// let mut out = [0; 16];
/// assert!(rt; reader.read(1000, &mut out) == ReadingOfPort::Empty);
/// assert_eq!(rt; writer.publish(1000, &[7, 8, 9]), Ok(1));
/// check_reading(rt, reader.read(1000, &mut out), 1);
/// ```
#[derive(Drop)]
pub struct PartitionReader {
    reader: Reader<READERS>,
    refresh: u64,
    max: usize,
}

impl Model for PartitionReader {
    ghost use Rattle.std.specs.Prelude.{◌≤◌};
    ghost use Rattle.slot_core.specs.Limits.{longest_message};
    ghost use Rattle.sampling_port.specs.Partition.{PartitionView};

    ghost Value = { PartitionView };

    ghost view = { λ r. record { end = r.reader; refresh = r.refresh; max = r.max } };

    ghost invariant = { λ r. r.max ≤ longest_message };
}

impl PartitionReader {
    /// A reader of a port with this refresh period, in microseconds, and this longest message, in octets.
    pub fn new(reader: Reader<READERS>, refresh: u64, max: usize) -> PartitionReader
        requires { max ≤ longest_message }
        ensures { result ≡ record { end = reader; refresh = refresh; max = max } }
    {
        PartitionReader {
            reader,
            refresh,
            max,
        }
    }

    /// The port's reader.
    pub fn into_reader(self) -> Reader<READERS>
        ensures { result ≡ self.end }
    {
        self.reader
    }

    /// The refresh period of the port, in microseconds.
    pub fn refresh(&self) -> u64
        ensures { result ≡ self.now.refresh }
    {
        self.refresh
    }

    /// The longest message of the port, in octets: an `out` of this length has room for each message that the port's
    /// settings allow.
    pub fn max(&self) -> usize
        ensures value { result ≡ self.now.max }
        ensures short { result ≤ longest_message }
    {
        self.max
    }

    /// Synchronizes the reader with its port's publishing end: it then knows all that was published. Nothing else
    /// changes.
    pub fn meet(&mut self, writer: &mut Writer<READERS>)
        requires { self.old.end.port ≡ writer.old.port }
        ensures reader { self.new ≡ partition_told self.old writer.old.published }
        ensures writer { writer.new ≡ writer.old }
        ensures before { StartsWithSeen writer.old.published self.old.end.seen }
    {
        meet(writer, &mut self.reader);
    }

    /// Reads the newest message at `now` microseconds, of the clock of the arrival times. It looks again up to 8 times,
    /// and waits for nobody. The octets that fit are copied to the beginning of `out`, and `len` is the length of the
    /// whole message: if it is at most that of `out`, all of the message is there. Octets of `out` past the message are
    /// unchanged; without a message, all of `out` is.
    pub fn read(&mut self, now: u64, out: &mut [u8]) -> Reading
        ensures port { IsSamePort self.old self.new }
        ensures seen { StartsWithSeen self.new.end.seen self.old.end.seen }
        ensures head { IfReadMessage result (λ number time len _. IsHeadOf self.new.end.seen number time len) }
        ensures octets { IfReadMessage result (λ _ _ len _. IsCopyThatFits (last_of self.new.end.seen) out.old out.new len) }
        ensures whole { IfReadMessage result (λ _ _ len _. len ≤ length out.new → IsCopy (last_of self.new.end.seen) out.old out.new len) }
        ensures validity { IfReadMessage result (λ _ time _ validity. validity ≡ freshness_at now time self.old.refresh) }
        ensures newest { IfReadMessage result (λ _ _ len _.
            IsHeldAfter self.old.end self.new.end most_tries (3 + (min len (length out.old) + 7) / 8)) }
        ensures empty { IfReadEmpty result (IsNothing self.old.end self.new.end × (out.new ≡ out.old)) }
        ensures busy { IfBusy result (λ number. IsReadOvertaken self.old.end self.new.end most_tries number × (out.new ≡ out.old)) }
    {
        let (_, answer) = replace_with(&mut self.reader, out, read_moved);
        match answer {
            Read::Message { number, time, len } => Reading::Message {
                number,
                time,
                len,
                validity: freshness(now, time, self.refresh),
            },
            Read::Empty => Reading::Empty,
            Read::Busy { number } => Reading::Busy { number },
        }
    }

    /// Holds the newest message, without copying it. It looks again up to 8 times, and waits for nobody. If nothing is
    /// held it hands the reader back.
    ///
    /// ```rust
    /// match reader.hold() {
    ///     Ok(mut held) => {
    ///         ..
    ///         let mut reader = held.release();
    ///         check_reading(rt, reader.read(2000, &mut out), 1);
    ///     }
    ///     Err(_) => panic!(rt; "a message"),
    /// }
    /// ```
    pub fn hold(self) -> Result<HeldMessage, (PartitionReader, NotHeld)>
        ensures held { IfOk result (λ held. IsSamePort self held × IsHeldAfter self.end held.end most_tries 2) }
        ensures not { IfErr result (λ not. IsSamePort self not.0 × IsNotHeld self.end not.0.end most_tries not.1) }
    {
        let Self {
            reader,
            refresh,
            max,
        } = self;
        match reader.hold(MOST_TRIES) {
            Ok(held) => Ok(HeldMessage::of(held, refresh, max)),
            Err((reader, fault)) => Err((PartitionReader::new(reader, refresh, max), fault)),
        }
    }
}
