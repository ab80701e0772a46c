//! Readers that hold, while the writer goes on.
ghost use Rattle.std.specs.Prelude.{◌≤◌};

use crate::messages::{
    apart, apart_eight, check_read, check_words, hold, open, publish, seventeen, words_of_seventeen,
};
use sampling_port::{Held, Read, Reader, Writer};
use std::alloc::Global;
use std::process::Abort;

// ---- one reader

/// Twenty messages are published, and after each the one that is held is as it was.
fn check_between<const READERS: usize>(
    rt: &impl Abort,
    writer: &mut Writer<READERS>,
    held: &mut Held<READERS>,
) {
    for number in 2..22u64 {
        publish(rt, writer, 2000, &[200; 18], number);
        check_words(rt, held, &words_of_seventeen());
    }
}

fn check_one<const READERS: usize>(
    rt: &impl Abort,
    mut writer: Writer<READERS>,
    reader: Reader<READERS>,
) {
    publish(rt, &mut writer, 1000, &seventeen(), 1);
    let mut held = hold(rt, reader, 1);
    check_between(rt, &mut writer, &mut held);
    check_last(rt, held.release(), 21, 18);
}

/// The reader reads this message, which came at 2000 microseconds.
fn check_last<const READERS: usize>(
    rt: &impl Abort,
    mut reader: Reader<READERS>,
    number: u64,
    len: usize,
) {
    let wanted = Read::Message {
        number,
        time: 2000,
        len,
    };
    check_read(rt, &mut reader, &mut [0; 1471], wanted);
}

// rule: SAMP-12, SAMP-16
#[test]
fn a_message_that_is_held_stays_while_others_are_published(rt: HostRuntime) {
    let (writer, readers) = open::<4>(&rt, rt.alloc());
    let (reader, _, _, _) = apart(readers);
    check_one(&rt, writer, reader);
    let (writer, readers) = open::<8>(&rt, rt.alloc());
    let (_, readers) = apart_eight(readers);
    let (_, _, _, reader) = readers;
    check_one(&rt, writer, reader);
}

// ---- ends that are dropped

fn check_left<const READERS: usize>(
    rt: &impl Abort,
    mut writer: Writer<READERS>,
    reader: Reader<READERS>,
) {
    publish(rt, &mut writer, 1000, &seventeen(), 1);
    publish(rt, &mut writer, 2000, &[], 2);
    drop(writer);
    check_last(rt, hold(rt, reader, 2).release(), 2, 0);
}

// rule: PORT-4
#[test]
fn a_writer_that_is_dropped_leaves_its_last_message(rt: HostRuntime) {
    let (writer, readers) = open::<4>(&rt, rt.alloc());
    let (_, _, reader, _) = apart(readers);
    check_left(&rt, writer, reader);
    let (writer, readers) = open::<8>(&rt, rt.alloc());
    let (_, readers) = apart_eight(readers);
    let (_, reader, _, _) = readers;
    check_left(&rt, writer, reader);
}

// ---- all readers

/// Each reader holds a message of its own, published just before. The octets of a message are its number.
fn hold_each<const READERS: usize>(
    rt: &impl Abort,
    alloc: Global,
    writer: &mut Writer<READERS>,
    readers: [Reader<READERS>; READERS],
) -> Vec<Held<READERS>> {
    let mut all = Vec::new(alloc);
    for reader in Vec::from_array(alloc, readers).expect(rt, "memory") {
        let number = all.len() as u64 + 1;
        publish(rt, writer, 1000, &number.to_be_bytes(), number);
        all.push(hold(rt, reader, number)).expect(rt, "memory");
    }
    all
}

/// Twenty messages are published, from this number on.
fn publish_twenty<const READERS: usize>(rt: &impl Abort, writer: &mut Writer<READERS>, first: u64)
    requires { first ≤ 100 }
{
    for number in first..first + 20 {
        publish(rt, writer, 2000, &number.to_be_bytes(), number);
    }
}

/// Each still holds its own, and reads the newest once it is released.
fn check_each<const READERS: usize>(rt: &impl Abort, all: Vec<Held<READERS>>, last: u64) {
    let mut number = 0u64;
    for mut held in all {
        number = number.saturating_add(1);
        check_words(rt, &mut held, &[number]);
        check_last(rt, held.release(), last, 8);
    }
}

fn check_all<const READERS: usize>(rt: &impl Abort, alloc: Global)
    requires { READERS ≤ 14 }
{
    let (mut writer, readers) = open::<READERS>(rt, alloc);
    let all = hold_each(rt, alloc, &mut writer, readers);
    publish_twenty(rt, &mut writer, READERS as u64 + 1);
    check_each(rt, all, READERS as u64 + 20);
}

// rule: SAMP-15, SAMP-21
#[test]
fn the_writer_goes_on_while_every_reader_holds_a_message_of_its_own(rt: HostRuntime) {
    check_all::<1>(&rt, rt.alloc());
    check_all::<4>(&rt, rt.alloc());
    check_all::<8>(&rt, rt.alloc());
    check_all::<14>(&rt, rt.alloc());
}

fn check_dropped<const READERS: usize>(rt: &impl Abort, alloc: Global)
    requires { READERS ≤ 14 }
{
    let (mut writer, readers) = open::<READERS>(rt, alloc);
    drop(hold_each(rt, alloc, &mut writer, readers));
    publish_twenty(rt, &mut writer, READERS as u64 + 1);
}

// rule: SAMP-21, SAMP-24
#[test]
fn the_writer_goes_on_where_every_reader_held_and_was_dropped(rt: HostRuntime) {
    check_dropped::<4>(&rt, rt.alloc());
    check_dropped::<8>(&rt, rt.alloc());
}
