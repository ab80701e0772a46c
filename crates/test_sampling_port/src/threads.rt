//! A thread that publishes and threads that read, each of which ends by itself.
use crate::messages::{Four, alone, apart, apart_eight, check_words, open, publish};
use sampling_port::{Held, MOST_TRIES, NotHeld, Read, Reader, Writer};
use std::alloc::Global;
use std::process::Abort;
use std::thread::{Threads, join};

/// Number of messages published, and how often each reader looks for one.
const MANY: u64 = 1000;

/// All octets of the message of this number.
fn octet_of(number: u64) -> u8 {
    (number % 251) as u8
}

fn publish_many<const READERS: usize>(
    rt: &impl Abort,
    mut writer: Writer<READERS>,
) -> Writer<READERS> {
    for number in 1..MANY + 1 {
        publish(rt, &mut writer, number, &[octet_of(number); 1471], number);
    }
    writer
}

// ---- one look

/// Checks that a read gave the message of this number, and the whole of it.
fn check_message(rt: &impl Abort, number: u64, time: u64, octets: &[u8]) {
    let wanted = [octet_of(number); 1471];
    assert!(rt; time == number && octets == wanted.as_slice(), "{number}");
}

/// The number that a read gives, or 0.
fn read_one<const READERS: usize>(
    rt: &impl Abort,
    reader: &mut Reader<READERS>,
    out: &mut [u8; 1471],
) -> u64 {
    match reader.read(MOST_TRIES, out) {
        Read::Message { number, time, len } => {
            assert!(rt; len == 1471, "{len}");
            check_message(rt, number, time, out.as_slice());
            number
        }
        Read::Empty => 0,
        Read::Busy { number } => number,
    }
}

/// The words that are held are those of the message of its number. The last has one octet less.
fn check_held<const READERS: usize>(rt: &impl Abort, held: &mut Held<READERS>) {
    let number = held.number();
    assert!(rt; held.time() == number && held.len() == 1471, "{number}");
    let word = u64::from_be_bytes([octet_of(number); 8]);
    let mut words = [word; 184];
    words[183] = word / 256 * 256;
    check_words(rt, held, &words);
}

/// The number of the newest message that was seen, or 0.
fn newest_seen(fault: NotHeld) -> u64 {
    match fault {
        NotHeld::Empty => 0,
        NotHeld::Busy { number } => number,
    }
}

/// The number of the message that is held and released, or 0.
fn hold_one<const READERS: usize>(
    rt: &impl Abort,
    reader: Reader<READERS>,
) -> (Reader<READERS>, u64) {
    match reader.hold(MOST_TRIES) {
        Ok(mut held) => {
            check_held(rt, &mut held);
            let number = held.number();
            (held.release(), number)
        }
        Err((reader, fault)) => (reader, newest_seen(fault)),
    }
}

// ---- many looks

/// How a reader looks.
#[derive(Clone, Copy)]
enum Look {
    Reads,
    Holds,
}

/// The numbers that are read never fall.
fn read_many<const READERS: usize>(
    rt: &impl Abort,
    mut reader: Reader<READERS>,
) -> Reader<READERS> {
    let mut out = [0; 1471];
    let mut last = 0;
    for _ in 0..MANY {
        let number = read_one(rt, &mut reader, &mut out);
        assert!(rt; last <= number, "{last}, {number}");
        last = number;
    }
    reader
}

/// The numbers of those that are held never fall.
fn hold_many<const READERS: usize>(
    rt: &impl Abort,
    mut reader: Reader<READERS>,
) -> Reader<READERS> {
    let mut last = 0;
    for _ in 0..MANY {
        let (back, number) = hold_one(rt, reader);
        assert!(rt; last <= number, "{last}, {number}");
        last = number;
        reader = back;
    }
    reader
}

fn look_many<const READERS: usize>(
    rt: &impl Abort,
    reader: Reader<READERS>,
    look: Look,
) -> Reader<READERS> {
    match look {
        Look::Reads => read_many(rt, reader),
        Look::Holds => hold_many(rt, reader),
    }
}

// ---- many readers

/// Two readers look, each in a thread of its own.
fn two_look<R: Abort + Threads + Sync, const READERS: usize>(
    rt: &R,
    first: Reader<READERS>,
    second: Reader<READERS>,
    look: Look,
) -> (Reader<READERS>, Reader<READERS>) {
    join(
        rt,
        move || look_many(rt, first, look),
        move || look_many(rt, second, look),
    )
}

/// Four readers look, each in a thread of its own.
fn four_look<R: Abort + Threads + Sync, const READERS: usize>(
    rt: &R,
    readers: Four<READERS>,
    look: Look,
) -> Four<READERS> {
    let (a, b, c, d) = readers;
    let ((a, b), (c, d)) = join(
        rt,
        move || two_look(rt, a, b, look),
        move || two_look(rt, c, d, look),
    );
    (a, b, c, d)
}

/// The reader reads the last of the messages.
fn check_last<const READERS: usize>(rt: &impl Abort, reader: &mut Reader<READERS>) {
    let mut out = [0; 1471];
    let number = read_one(rt, reader, &mut out);
    assert!(rt; number == MANY, "{number}");
}

fn check_last_of_four<const READERS: usize>(rt: &impl Abort, readers: Four<READERS>) {
    let (mut a, mut b, mut c, mut d) = readers;
    check_last(rt, &mut a);
    check_last(rt, &mut b);
    check_last(rt, &mut c);
    check_last(rt, &mut d);
}

fn check_four<R: Abort + Threads + Sync>(rt: &R, alloc: Global, look: Look) {
    let (writer, readers) = open::<4>(rt, alloc);
    let four = apart(readers);
    let (_writer, four) = join(
        rt,
        move || publish_many(rt, writer),
        move || four_look(rt, four, look),
    );
    check_last_of_four(rt, four);
}

fn check_eight<R: Abort + Threads + Sync>(rt: &R, alloc: Global, look: Look) {
    let (writer, readers) = open::<8>(rt, alloc);
    let (first, second) = apart_eight(readers);
    let (_writer, (first, second)) = join(
        rt,
        move || publish_many(rt, writer),
        move || {
            join(
                rt,
                move || four_look(rt, first, look),
                move || four_look(rt, second, look),
            )
        },
    );
    check_last_of_four(rt, first);
    check_last_of_four(rt, second);
}

// rule: SAMP-20, EMB-36
#[test]
fn four_threads_read_whole_messages_in_order(rt: HostRuntime) {
    check_four(&rt, rt.alloc(), Look::Reads);
}

// rule: SAMP-20, EMB-36
#[test]
fn eight_threads_read_whole_messages_in_order(rt: HostRuntime) {
    check_eight(&rt, rt.alloc(), Look::Reads);
}

// rule: SAMP-16, EMB-36
#[test]
fn four_threads_hold_whole_messages_in_order(rt: HostRuntime) {
    check_four(&rt, rt.alloc(), Look::Holds);
}

// rule: SAMP-16, EMB-36
#[test]
fn eight_threads_hold_whole_messages_in_order(rt: HostRuntime) {
    check_eight(&rt, rt.alloc(), Look::Holds);
}

// ---- short messages

/// How many messages of no octets are published, and how often a reader looks for one.
const MANY_SHORT: u64 = 400_000;

/// Each message is its number alone, as its time: a publication takes few steps, and a slot is soon written again.
fn publish_short(rt: &impl Abort, mut writer: Writer<1>) -> Writer<1> {
    for number in 1..MANY_SHORT + 1 {
        publish(rt, &mut writer, number, &[], number);
    }
    writer
}

/// Checks that each read gives the number of a message with its own time.
fn read_short(rt: &impl Abort, mut reader: Reader<1>) -> Reader<1> {
    let mut out = [0; 1471];
    for _ in 0..MANY_SHORT {
        if let Read::Message { number, time, .. } = reader.read(MOST_TRIES, &mut out) {
            assert!(rt; time == number, "{number}, {time}");
        }
    }
    reader
}

fn check_short<R: Abort + Threads + Sync>(rt: &R, alloc: Global) {
    let (writer, readers) = open::<1>(rt, alloc);
    let reader = alone(readers);
    let _ends = join(
        rt,
        move || publish_short(rt, writer),
        move || read_short(rt, reader),
    );
}

// rule: EMB-36
#[test]
fn a_short_message_is_read_with_its_own_time(rt: HostRuntime) {
    check_short(&rt, rt.alloc());
}
