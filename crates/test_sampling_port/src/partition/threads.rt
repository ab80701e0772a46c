//! A thread that publishes, and a partition that reads and holds on a thread of its own. Each ends by itself.
use crate::partition::port::{check_read, message, open, publish};
use sampling_port::Freshness::Fresh;
use sampling_port::{HeldMessage, NotHeld, PartitionReader, Reading, Writer};
use slot_core::READERS;
use std::alloc::Global;
use std::process::Abort;
use std::thread::{Threads, join};

/// Number of messages published, and how often the partition looks for one.
const MANY: u64 = 1000;

/// All octets of the message of this number. It comes at that many microseconds.
fn octet_of(number: u64) -> u8 {
    (number % 251) as u8
}

fn publish_many(rt: &impl Abort, mut writer: Writer<READERS>) -> Writer<READERS> {
    for number in 1..MANY + 1 {
        publish(rt, &mut writer, number, &[octet_of(number); 1471], number);
    }
    writer
}

/// The number of the message that is read, or of the newest that was seen, or 0.
fn read_one(rt: &impl Abort, reader: &mut PartitionReader, out: &mut [u8; 1471]) -> u64 {
    match reader.read(0, out) {
        Reading::Message {
            number,
            time,
            len,
            validity,
        } => {
            assert!(rt; time == number && len == 1471 && validity == Fresh);
            assert!(rt; *out == [octet_of(number); 1471], "{number}");
            number
        }
        Reading::Empty => 0,
        Reading::Busy { number } => number,
    }
}

/// The octets of the held message are those of its number, whole.
fn check_held(rt: &impl Abort, held: &mut HeldMessage) {
    let mut out = [0; 1471];
    let number = held.number();
    assert!(rt; held.time() == number && held.len() == 1471);
    held.copy_range(0, &mut out);
    assert!(rt; out == [octet_of(number); 1471], "{number}");
}

/// The number of the newest message that was seen, or 0.
fn newest_seen(fault: NotHeld) -> u64 {
    match fault {
        NotHeld::Empty => 0,
        NotHeld::Busy { number } => number,
    }
}

/// The number of the message that is held and released, or of the newest that was seen, or 0.
fn hold_one(rt: &impl Abort, reader: PartitionReader) -> (PartitionReader, u64) {
    match reader.hold() {
        Ok(mut held) => {
            check_held(rt, &mut held);
            let number = held.number();
            (held.release(), number)
        }
        Err((reader, fault)) => (reader, newest_seen(fault)),
    }
}

/// The numbers that are read and held never fall.
fn look_many(rt: &impl Abort, mut reader: PartitionReader) -> PartitionReader {
    let mut out = [0; 1471];
    let mut last = 0;
    for _ in 0..MANY {
        let read = read_one(rt, &mut reader, &mut out);
        let (back, held) = hold_one(rt, reader);
        assert!(rt; last <= read && read <= held, "{last}, {read}, {held}");
        last = held;
        reader = back;
    }
    reader
}

fn check_thread<R: Abort + Threads + Sync>(rt: &R, alloc: Global) {
    let (writer, reader) = open(rt, alloc, 1471);
    let (_writer, mut reader) = join(
        rt,
        move || publish_many(rt, writer),
        move || look_many(rt, reader),
    );
    let wanted = message(MANY, MANY, 1471, Fresh);
    check_read(rt, &mut reader, MANY, &mut [0; 1471], wanted);
}

// rule: EMB-36
#[test]
fn a_partition_reads_whole_messages_in_order_on_its_own_thread(rt: HostRuntime) {
    check_thread(&rt, rt.alloc());
}
