//! A message that is read in place.
use crate::mailbox::port::{MAX, open, publish, seventeen};
use mailbox_port::Freshness::{Fresh, Stale};
use mailbox_port::{MailboxReader, PortWriter};
use std::alloc::Global;
use std::process::Abort;

/// The reader has the message of this number, with its time and octets.
fn check_latest(rt: &impl Abort, reader: &MailboxReader, number: u64, time: u64, octets: &[u8]) {
    match reader.latest() {
        Some(latest) => {
            assert!(rt; latest.number() == number && latest.time() == time);
            assert!(rt; latest.octets() == octets, "{number}");
            assert!(rt; reader.validity(time.saturating_add(500), latest) == Fresh);
            assert!(rt; reader.validity(time.saturating_add(501), latest) == Stale);
        }
        None => panic!(rt; "{number}: none"),
    }
}

/// Twenty messages more are published.
fn publish_twenty(rt: &impl Abort, writer: &mut PortWriter) {
    for number in 2..22u64 {
        publish(rt, writer, 2000, &[200; 16], number);
    }
}

fn check_stays(rt: &impl Abort, alloc: Global) {
    let (mut writer, mut reader) = open(rt, alloc, MAX);
    publish(rt, &mut writer, 1000, &seventeen(), 1);
    reader.update();
    check_latest(rt, &reader, 1, 1000, &seventeen());
    publish_twenty(rt, &mut writer);
    check_latest(rt, &reader, 1, 1000, &seventeen());
    reader.update();
    check_latest(rt, &reader, 21, 2000, &[200; 16]);
}

// rule: CONC-17, EMB-9
#[test]
fn a_message_stays_in_its_place_until_the_reader_looks_again(rt: HostRuntime) {
    check_stays(&rt, rt.alloc());
}

fn check_none(rt: &impl Abort, alloc: Global) {
    let (mut writer, mut reader) = open(rt, alloc, MAX);
    reader.update();
    assert!(rt; reader.latest().is_none());
    publish(rt, &mut writer, 1000, &[], 1);
    assert!(rt; reader.latest().is_none());
    reader.update();
    check_latest(rt, &reader, 1, 1000, &[]);
}

// rule: EMB-9
#[test]
fn there_is_no_message_of_a_port_where_nothing_was_published(rt: HostRuntime) {
    check_none(&rt, rt.alloc());
}
