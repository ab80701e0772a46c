//! Each public call once, as its example says.
ghost use Rattle.std.specs.Prelude.{◌≡◌, ◌<◌, length};

use crate::messages::{
    apart, apart_eight, check_read, check_words, hold, open, publish, seventeen, words_of_seventeen,
};
use sampling_port::{NotHeld, PublishFault, Read, Reader, Writer, meet, read_last};
use std::process::Abort;

/// The answer to a read.
fn message(number: u64, time: u64, len: usize) -> Read {
    Read::Message { number, time, len }
}

/// The first four octets are these.
fn check_octets(rt: &impl Abort, out: &[u8; 1471], wanted: [u8; 4]) {
    assert!(rt; out[..4] == wanted[..], "{:?}", &out[..4]);
}

// ---- publish

/// A message that is too long has no number, and the one before it stays the newest.
fn check_numbers<const READERS: usize>(
    rt: &impl Abort,
    writer: &mut Writer<READERS>,
    reader: &mut Reader<READERS>,
) {
    let mut out = [0; 1471];
    publish(rt, writer, 1000, &[1, 2, 3], 1);
    publish(rt, writer, 2000, &[], 2);
    assert_eq!(rt;
        writer.publish(3000, &[0; 1472]),
        Err(PublishFault::TooLong)
    );
    check_read(rt, reader, &mut out, message(2, 2000, 0));
    publish(rt, writer, 4000, &[0; 1471], 3);
    check_read(rt, reader, &mut out, message(3, 4000, 1471));
}

// rule: SAMP-5, SAMP-21
#[test]
fn a_message_is_published_under_the_next_number_or_is_too_long(rt: HostRuntime) {
    let (mut writer, mut readers) = open::<4>(&rt, rt.alloc());
    check_numbers(&rt, &mut writer, &mut readers[0]);
    let (mut writer, mut readers) = open::<8>(&rt, rt.alloc());
    check_numbers(&rt, &mut writer, &mut readers[7]);
}

// ---- read

/// Nothing is found, then a message, which covers the first octets of `out`, then a shorter one.
fn check_reads<const READERS: usize>(
    rt: &impl Abort,
    writer: &mut Writer<READERS>,
    reader: &mut Reader<READERS>,
) {
    let mut out = [99; 1471];
    check_read(rt, reader, &mut out, Read::Empty);
    check_octets(rt, &out, [99, 99, 99, 99]);
    publish(rt, writer, 1000, &[7, 8, 9], 1);
    check_read(rt, reader, &mut out, message(1, 1000, 3));
    check_octets(rt, &out, [7, 8, 9, 99]);
    publish(rt, writer, 2000, &[5], 2);
    check_read(rt, reader, &mut out, message(2, 2000, 1));
    check_octets(rt, &out, [5, 8, 9, 99]);
    check_read(rt, reader, &mut out, message(2, 2000, 1));
}

// rule: EMB-36
#[test]
fn a_read_gives_the_newest_message_and_leaves_the_rest_of_out(rt: HostRuntime) {
    let (mut writer, mut readers) = open::<4>(&rt, rt.alloc());
    check_reads(&rt, &mut writer, &mut readers[3]);
    let (mut writer, mut readers) = open::<8>(&rt, rt.alloc());
    check_reads(&rt, &mut writer, &mut readers[0]);
}

// ---- hold, and what is held

/// Nothing is held, and the reader comes back.
fn hold_nothing<const READERS: usize>(rt: &impl Abort, reader: Reader<READERS>) -> Reader<READERS> {
    match reader.hold(1) {
        Ok(held) => panic!(rt; "{}", held.number()),
        Err((reader, fault)) => {
            assert_eq!(rt; fault, NotHeld::Empty);
            reader
        }
    }
}

/// A reader that found nothing to hold reads the first message, and holds it.
fn check_holds<const READERS: usize>(
    rt: &impl Abort,
    mut writer: Writer<READERS>,
    reader: Reader<READERS>,
) {
    let mut out = [0; 1471];
    let mut reader = hold_nothing(rt, reader);
    publish(rt, &mut writer, 1000, &seventeen(), 1);
    check_read(rt, &mut reader, &mut out, message(1, 1000, 17));
    let mut held = hold(rt, reader, 1);
    assert_eq!(rt; (held.time(), held.len()), (1000, 17));
    check_words(rt, &mut held, &words_of_seventeen());
    let mut reader = held.release();
    check_read(rt, &mut reader, &mut out, message(1, 1000, 17));
}

// rule: SAMP-11, EMB-36
#[test]
fn a_message_is_held_word_by_word_and_given_back(rt: HostRuntime) {
    let (writer, readers) = open::<4>(&rt, rt.alloc());
    let (reader, _, _, _) = apart(readers);
    check_holds(&rt, writer, reader);
    let (writer, readers) = open::<8>(&rt, rt.alloc());
    let (_, readers) = apart_eight(readers);
    let (_, _, _, reader) = readers;
    check_holds(&rt, writer, reader);
}

// ---- meet and read_last

/// A message published before they meet is found. That the read isn't empty is proved.
fn check_found<const READERS: usize>(
    rt: &impl Abort,
    writer: &mut Writer<READERS>,
    reader: &mut Reader<READERS>,
    wanted: Read,
)
    requires port { reader.old.port ≡ writer.old.port }
    requires some { 0 < length writer.old.published }
    ensures { (writer.new ≡ writer.old) × (reader.new.port ≡ writer.old.port) }
{
    meet(writer, reader);
    match reader.read(1, &mut [0; 1471]) {
        Read::Empty => unreachable!(),
        answer => assert!(rt; answer == wanted, "{answer:?}"),
    }
}

fn check_meeting<const READERS: usize>(
    rt: &impl Abort,
    writer: &mut Writer<READERS>,
    reader: &mut Reader<READERS>,
)
    requires { reader.old.port ≡ writer.old.port }
{
    publish(rt, writer, 1000, &[7, 8, 9], 1);
    check_found(rt, writer, reader, message(1, 1000, 3));
    publish(rt, writer, 2000, &[], 2);
    check_found(rt, writer, reader, message(2, 2000, 0));
}

// rule: PORT-18
#[test]
fn a_reader_that_met_the_writer_finds_what_was_published(rt: HostRuntime) {
    let (mut writer, mut readers) = open::<4>(&rt, rt.alloc());
    check_meeting(&rt, &mut writer, &mut readers[2]);
    let (mut writer, mut readers) = open::<8>(&rt, rt.alloc());
    check_meeting(&rt, &mut writer, &mut readers[5]);
}

/// None, and then exactly the last.
fn check_last<const READERS: usize>(
    rt: &impl Abort,
    writer: &mut Writer<READERS>,
    reader: &mut Reader<READERS>,
)
    requires { reader.old.port ≡ writer.old.port }
{
    let mut out = [99; 1471];
    assert_eq!(rt; read_last(writer, reader, &mut out), Read::Empty);
    publish(rt, writer, 1000, &[7, 8, 9], 1);
    assert_eq!(rt; read_last(writer, reader, &mut out), message(1, 1000, 3));
    publish(rt, writer, 2000, &[5], 2);
    publish(rt, writer, 3000, &[6, 4], 3);
    assert_eq!(rt; read_last(writer, reader, &mut out), message(3, 3000, 2));
    check_octets(rt, &out, [6, 4, 9, 99]);
}

// rule: PORT-18
#[test]
fn the_last_message_is_read_by_a_thread_that_has_both_ends(rt: HostRuntime) {
    let (mut writer, mut readers) = open::<4>(&rt, rt.alloc());
    check_last(&rt, &mut writer, &mut readers[1]);
    let (mut writer, mut readers) = open::<8>(&rt, rt.alloc());
    check_last(&rt, &mut writer, &mut readers[6]);
}
