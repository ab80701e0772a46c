//! A port with partitions' readers, and what they read.
use mailbox_port::{
    Freshness, MOST_MESSAGES, MailboxReader, PortWriter, ReaderCount, Reading, open_mailboxes,
};
use std::alloc::Global;
use std::process::Abort;

/// The refresh period of the port, in microseconds.
pub(crate) const REFRESH: u64 = 500;

/// The longest message of the port, in octets.
pub(crate) const MAX: usize = 17;

/// Opens a port, and gives its mailboxes to so many partitions.
pub(crate) fn open_for(
    rt: &impl Abort,
    alloc: Global,
    max: usize,
    readers: usize,
) -> (PortWriter, Vec<MailboxReader>) {
    let readers = ReaderCount::new(readers).expect(rt, "1 to 8");
    let (writer, mailboxes) = open_mailboxes(alloc, max, readers).expect(rt, "memory");
    let mut made = Vec::with_capacity(alloc, readers.get()).expect(rt, "memory");
    for mailbox in mailboxes {
        made.push(MailboxReader::new(mailbox, REFRESH))
            .expect(rt, "memory");
    }
    (writer, made)
}

/// Opens a port with one reader.
pub(crate) fn open(rt: &impl Abort, alloc: Global, max: usize) -> (PortWriter, MailboxReader) {
    let (writer, readers) = open_for(rt, alloc, max, 1);
    let reader = readers.into_iter().next().expect(rt, "a reader");
    (writer, reader)
}

/// The message of 17 octets, 1 to 17.
pub(crate) fn seventeen() -> [u8; 17] {
    [1, 2, 3, 4, 5, 6, 7, 8, 9, 10, 11, 12, 13, 14, 15, 16, 17]
}

/// Publishes a message, which has this number.
pub(crate) fn publish(
    rt: &impl Abort,
    writer: &mut PortWriter,
    time: u64,
    octets: &[u8],
    number: u64,
) {
    assert!(rt; octets.len() <= writer.longest() && writer.published() < MOST_MESSAGES);
    let answer = writer.publish(time, octets);
    assert!(rt; answer == number, "{number}: {answer}");
}

/// A message as a read tells of it.
pub(crate) fn message(number: u64, time: u64, len: usize, validity: Freshness) -> Reading {
    Reading::Message {
        number,
        time,
        len,
        validity,
    }
}

/// A read at `now` gives this.
pub(crate) fn check_read(
    rt: &impl Abort,
    reader: &mut MailboxReader,
    now: u64,
    out: &mut [u8],
    wanted: Reading,
) {
    let reading = reader.read(now, out);
    assert!(rt; reading == wanted, "{reading:?}");
}
