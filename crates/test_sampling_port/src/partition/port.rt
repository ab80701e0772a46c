//! A port with one partition's reader, and what it reads.
ghost use Rattle.std.specs.Prelude.{◌≤◌};

use sampling_port::{Freshness, HeldMessage, PartitionReader, Reader, Reading, Writer, open_port};
use slot_core::READERS;
use std::alloc::Global;
use std::process::Abort;

/// The refresh period of the port, in microseconds.
pub(crate) const REFRESH: u64 = 500;

/// The longest message of the port, in octets.
pub(crate) const MAX: usize = 17;

/// Opens a port, and gives its first reader to a partition.
pub(crate) fn open(rt: &impl Abort, alloc: Global, max: usize) -> (Writer<READERS>, PartitionReader)
    requires { max ≤ 1471 }
{
    let (writer, readers) = open_port::<READERS>(alloc).expect(rt, "memory");
    let reader = first_of(readers);
    (writer, PartitionReader::new(reader, REFRESH, max))
}

/// The first of the readers. The others go out of use, which costs nothing.
fn first_of(readers: [Reader<READERS>; READERS]) -> Reader<READERS> {
    let [first, b, c, d, e, f, g, h] = readers;
    drop((b, c, d, e, f, g, h));
    first
}

/// The message of 17 octets, 1 to 17.
pub(crate) fn seventeen() -> [u8; 17] {
    [1, 2, 3, 4, 5, 6, 7, 8, 9, 10, 11, 12, 13, 14, 15, 16, 17]
}

/// Publishes a message, which has this number.
pub(crate) fn publish(
    rt: &impl Abort,
    writer: &mut Writer<READERS>,
    time: u64,
    octets: &[u8],
    number: u64,
) {
    let answer = writer.publish(time, octets);
    assert!(rt; answer == Ok(number), "{number}: {answer:?}");
}

/// A message as a read tells of it.
pub(crate) fn message(number: u64, time: u64, len: usize, validity: Freshness) -> Reading {
    Reading::Message {
        number,
        time,
        len,
        validity,
    }
}

/// A read at `now` gives this.
pub(crate) fn check_read(
    rt: &impl Abort,
    reader: &mut PartitionReader,
    now: u64,
    out: &mut [u8],
    wanted: Reading,
) {
    let reading = reader.read(now, out);
    assert!(rt; reading == wanted, "{reading:?}");
}

/// Holds the newest message, which has this number.
pub(crate) fn hold(rt: &impl Abort, reader: PartitionReader, number: u64) -> HeldMessage {
    match reader.hold() {
        Ok(held) => {
            assert!(rt; held.number() == number, "{}", held.number());
            held
        }
        Err((_, fault)) => panic!(rt; "{fault:?}"),
    }
}

/// Four octets of the message that is held, from `first` on.
pub(crate) fn check_range(rt: &impl Abort, held: &mut HeldMessage, first: usize, wanted: [u8; 4]) {
    let mut out = [0; 4];
    assert!(rt; first < 100 && first + 4 <= held.len());
    held.copy_range(first, &mut out);
    assert!(rt; out == wanted, "{first}: {out:?}");
}
