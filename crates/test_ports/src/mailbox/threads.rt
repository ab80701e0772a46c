//! A thread that publishes, and a partition that reads on a thread of its own. Each ends by itself.
use crate::mailbox::port::{check_read, message, open, publish};
use mailbox_port::Freshness::Fresh;
use mailbox_port::{MailboxReader, PortWriter, Reading};
use std::alloc::Global;
use std::process::Abort;
use std::thread::{Threads, join};

/// Number of messages published, and how often the partition looks for one.
const MANY: u64 = 1000;

/// All octets of the message of this number. It comes at that many microseconds.
fn octet_of(number: u64) -> u8 {
    (number % 251) as u8
}

fn publish_many(rt: &impl Abort, mut writer: PortWriter) -> PortWriter {
    for number in 1..MANY + 1 {
        publish(rt, &mut writer, number, &[octet_of(number); 1471], number);
    }
    writer
}

/// The number of the message that is read, or 0.
fn read_one(rt: &impl Abort, reader: &mut MailboxReader, out: &mut [u8; 1471]) -> u64 {
    match reader.read(0, out) {
        Reading::Message {
            number,
            time,
            len,
            validity,
        } => {
            assert!(rt; time == number && len == 1471 && validity == Fresh);
            assert!(rt; *out == [octet_of(number); 1471], "{number}");
            number
        }
        Reading::Empty => 0,
    }
}

/// The number of the message that the reader has in its place, or 0.
fn look_at_one(rt: &impl Abort, reader: &mut MailboxReader) -> u64 {
    reader.update();
    match reader.latest() {
        Some(latest) => {
            let number = latest.number();
            assert!(rt; latest.time() == number);
            assert!(rt;
                latest.octets() == &[octet_of(number); 1471][..],
                "{number}"
            );
            number
        }
        None => 0,
    }
}

/// The numbers that are found never fall.
fn look_many(rt: &impl Abort, mut reader: MailboxReader) -> MailboxReader {
    let mut out = [0; 1471];
    let mut last = 0;
    for _ in 0..MANY {
        let read = read_one(rt, &mut reader, &mut out);
        let found = look_at_one(rt, &mut reader);
        assert!(rt; last <= read && read <= found, "{last}, {read}, {found}");
        last = found;
    }
    reader
}

fn check_thread<R: Abort + Threads + Sync>(rt: &R, alloc: Global) {
    let (writer, reader) = open(rt, alloc, 1471);
    let (_writer, mut reader) = join(
        rt,
        move || publish_many(rt, writer),
        move || look_many(rt, reader),
    );
    let wanted = message(MANY, MANY, 1471, Fresh);
    check_read(rt, &mut reader, MANY, &mut [0; 1471], wanted);
}

// rule: EMB-8
#[test]
fn a_partition_reads_whole_messages_in_order_on_its_own_thread(rt: HostRuntime) {
    check_thread(&rt, rt.alloc());
}
