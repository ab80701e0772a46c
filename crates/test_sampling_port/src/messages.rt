//! Messages of a port, each published, read or held with its result compared.
ghost use Rattle.std.specs.Prelude.{◌≡◌, ◌+◌, ◌<◌, ◌≤◌, length};
ghost use Rattle.sampling_port.specs.Ends.{new_readers};
ghost use Rattle.sampling_port.specs.Writes.{steps_to_publish};

use sampling_port::{Held, Read, Reader, Writer, open_port};
use std::alloc::Global;
use std::process::Abort;

/// The writer of a port, and its readers.
pub(crate) type Ends<const READERS: usize> = (Writer<READERS>, [Reader<READERS>; READERS]);

/// Opens a port.
pub(crate) fn open<const READERS: usize>(rt: &impl Abort, alloc: Global) -> Ends<READERS>
    requires { READERS ≤ 14 }
    ensures { result.1 ≡ new_readers result.0.port READERS }
{
    open_port::<READERS>(alloc).expect(rt, "memory")
}

/// The reader of a port with one.
pub(crate) fn alone(readers: [Reader<1>; 1]) -> Reader<1> {
    let [reader] = readers;
    reader
}

/// Four readers, each by itself.
pub(crate) type Four<const READERS: usize> = (
    Reader<READERS>,
    Reader<READERS>,
    Reader<READERS>,
    Reader<READERS>,
);

/// The readers of a port with four.
pub(crate) fn apart(readers: [Reader<4>; 4]) -> Four<4> {
    let [first, second, third, last] = readers;
    (first, second, third, last)
}

/// The readers of a port with eight.
pub(crate) fn apart_eight(readers: [Reader<8>; 8]) -> (Four<8>, Four<8>) {
    let [a, b, c, d, e, f, g, h] = readers;
    ((a, b, c, d), (e, f, g, h))
}

/// The message of 17 octets, 1 to 17. It comes at 1000 microseconds.
pub(crate) fn seventeen() -> [u8; 17] {
    [1, 2, 3, 4, 5, 6, 7, 8, 9, 10, 11, 12, 13, 14, 15, 16, 17]
}

/// Its octets, eight to a word.
pub(crate) fn words_of_seventeen() -> [u64; 3] {
    [
        0x0102_0304_0506_0708,
        0x090a_0b0c_0d0e_0f10,
        0x1100_0000_0000_0000,
    ]
}

/// Publishes a message, which has this number.
pub(crate) fn publish<const READERS: usize>(
    rt: &impl Abort,
    writer: &mut Writer<READERS>,
    time: u64,
    octets: &[u8],
    number: u64,
)
    ensures port { writer.new.port ≡ writer.old.port }
    ensures some { 0 < length writer.new.published }
    ensures steps { writer.new.steps ≡ writer.old.steps + steps_to_publish READERS (length octets.now) }
{
    let answer = writer.publish(time, octets);
    assert!(rt; answer == Ok(number), "{number}: {answer:?}");
}

/// A read with one try gives this.
pub(crate) fn check_read<const READERS: usize>(
    rt: &impl Abort,
    reader: &mut Reader<READERS>,
    out: &mut [u8; 1471],
    wanted: Read,
) {
    let answer = reader.read(1, out);
    assert!(rt; answer == wanted, "{answer:?}");
}

/// Holds the newest message, which has this number.
pub(crate) fn hold<const READERS: usize>(
    rt: &impl Abort,
    reader: Reader<READERS>,
    number: u64,
) -> Held<READERS> {
    match reader.hold(1) {
        Ok(held) => {
            assert!(rt; held.number() == number, "{}", held.number());
            held
        }
        Err((_, fault)) => panic!(rt; "{fault:?}"),
    }
}

/// The octets of the message that is held, eight to a word, are these.
pub(crate) fn check_words<const READERS: usize>(
    rt: &impl Abort,
    held: &mut Held<READERS>,
    words: &[u64],
) {
    assert!(rt; (held.len() + 7) / 8 == words.len());
    for (place, wanted) in words.iter().enumerate() {
        assert!(rt; place < (held.len() + 7) / 8);
        let word = held.word(place);
        assert!(rt; word == *wanted, "{place}: {word:#x}");
    }
}
