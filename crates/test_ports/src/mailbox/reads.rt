//! What is read, and whether it is fresh.
use crate::mailbox::port::{MAX, REFRESH, check_read, message, open, open_for, publish, seventeen};
use mailbox_port::Freshness::{Fresh, Stale};
use mailbox_port::{MailboxReader, PortWriter, Reading};
use std::alloc::Global;
use std::process::Abort;

/// The octets are these.
fn check_octets(rt: &impl Abort, out: &[u8], wanted: &[u8]) {
    assert!(rt; out == wanted, "{out:?}");
}

// ---- freshness

/// The message came at 1000. Its age is 500 at 1500, one more at 1501, and 0 at 900.
fn check_ages(rt: &impl Abort, reader: &mut MailboxReader) {
    let mut out = [0; MAX];
    check_read(rt, reader, 1500, &mut out, message(1, 1000, 3, Fresh));
    check_read(rt, reader, 1501, &mut out, message(1, 1000, 3, Stale));
    check_read(rt, reader, 900, &mut out, message(1, 1000, 3, Fresh));
}

fn check_freshness(rt: &impl Abort, alloc: Global) {
    let (mut writer, mut reader) = open(rt, alloc, MAX);
    publish(rt, &mut writer, 1000, &[7, 8, 9], 1);
    check_ages(rt, &mut reader);
}

// rule: PORT-15, EMB-8
#[test]
fn a_message_is_fresh_up_to_the_refresh_period_of_its_port(rt: HostRuntime) {
    check_freshness(&rt, rt.alloc());
}

// ---- octets

/// Nothing was published; then the longest message fills `out`; what follows a shorter one is as it was.
fn check_out(rt: &impl Abort, writer: &mut PortWriter, reader: &mut MailboxReader) {
    let mut out = [99; MAX];
    check_read(rt, reader, 1000, &mut out, Reading::Empty);
    check_octets(rt, &out, &[99; MAX]);
    publish(rt, writer, 1000, &seventeen(), 1);
    check_read(rt, reader, 1000, &mut out, message(1, 1000, 17, Fresh));
    check_octets(rt, &out, &seventeen());
    publish(rt, writer, 2000, &[7, 8, 9], 2);
    check_read(rt, reader, 2000, &mut out, message(2, 2000, 3, Fresh));
    check_octets(rt, &out[..5], &[7, 8, 9, 4, 5]);
}

/// Only the first octets fit, and the length is that of the whole message.
fn check_cut(rt: &impl Abort, writer: &mut PortWriter, reader: &mut MailboxReader) {
    let mut out = [0; 9];
    publish(rt, writer, 3000, &seventeen(), 3);
    check_read(rt, reader, 3000, &mut out, message(3, 3000, 17, Fresh));
    check_octets(rt, &out, &[1, 2, 3, 4, 5, 6, 7, 8, 9]);
    check_read(rt, reader, 3000, &mut [], message(3, 3000, 17, Fresh));
}

fn check_octets_read(rt: &impl Abort, alloc: Global) {
    let (mut writer, mut reader) = open(rt, alloc, MAX);
    check_out(rt, &mut writer, &mut reader);
    check_cut(rt, &mut writer, &mut reader);
}

// rule: EMB-8
#[test]
fn the_octets_that_fit_are_read_and_the_rest_of_out_is_left(rt: HostRuntime) {
    check_octets_read(&rt, rt.alloc());
}

// ---- the port

fn check_port(rt: &impl Abort, alloc: Global) {
    let (mut writer, mut reader) = open(rt, alloc, MAX);
    assert!(rt; reader.refresh() == REFRESH && reader.max() == MAX);
    publish(rt, &mut writer, 1000, &[7, 8, 9], 1);
    publish(rt, &mut writer, 1100, &[7], 2);
    check_read(
        rt,
        &mut reader,
        1100,
        &mut [0; 3],
        message(2, 1100, 1, Fresh),
    );
}

// rule: EMB-8
#[test]
fn a_reader_tells_of_its_port_and_reads_the_newest(rt: HostRuntime) {
    check_port(&rt, rt.alloc());
}

// ---- each reader for itself

/// Of eight readers each finds what is newest when it looks, whatever the others do.
fn check_eight(rt: &impl Abort, alloc: Global) {
    let (mut writer, mut readers) = open_for(rt, alloc, MAX, 8);
    assert!(rt; readers.len() == 8);
    for (place, reader) in readers.iter_mut().enumerate() {
        let number = place as u64 + 1;
        publish(rt, &mut writer, number, &[place as u8; 5], number);
        let mut out = [99; 6];
        check_read(
            rt,
            reader,
            number,
            &mut out,
            message(number, number, 5, Fresh),
        );
        check_octets(rt, &out[4..], &[place as u8, 99]);
    }
    for reader in readers.iter_mut() {
        check_read(rt, reader, 8, &mut [0; 5], message(8, 8, 5, Fresh));
    }
}

// rule: PORT-7, EMB-2
#[test]
fn eight_readers_each_find_the_newest(rt: HostRuntime) {
    check_eight(&rt, rt.alloc());
}
