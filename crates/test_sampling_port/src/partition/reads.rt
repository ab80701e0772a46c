//! What is read, and whether it is fresh.
use crate::partition::port::{MAX, REFRESH, check_read, message, open, publish, seventeen};
use sampling_port::Freshness::{Fresh, Stale};
use sampling_port::{PartitionReader, Read, Reading, Writer};
use slot_core::READERS;
use std::alloc::Global;
use std::process::Abort;

/// The octets are these.
fn check_octets(rt: &impl Abort, out: &[u8], wanted: &[u8]) {
    assert!(rt; out == wanted, "{out:?}");
}

// ---- freshness

/// The message came at 1000. Its age is 500 at 1500, one more at 1501, and 0 at 900.
fn check_ages(rt: &impl Abort, reader: &mut PartitionReader) {
    let mut out = [0; MAX];
    check_read(rt, reader, 1500, &mut out, message(1, 1000, 3, Fresh));
    check_read(rt, reader, 1501, &mut out, message(1, 1000, 3, Stale));
    check_read(rt, reader, 900, &mut out, message(1, 1000, 3, Fresh));
}

fn check_freshness(rt: &impl Abort, alloc: Global) {
    let (mut writer, mut reader) = open(rt, alloc, MAX);
    publish(rt, &mut writer, 1000, &[7, 8, 9], 1);
    check_ages(rt, &mut reader);
}

// rule: PORT-15, EMB-37
#[test]
fn a_message_is_fresh_up_to_the_refresh_period_of_its_port(rt: HostRuntime) {
    check_freshness(&rt, rt.alloc());
}

// ---- octets

/// Nothing was published; then the longest message fills `out`; what follows a shorter one is as it was.
fn check_out(rt: &impl Abort, writer: &mut Writer<READERS>, reader: &mut PartitionReader) {
    let mut out = [99; MAX];
    check_read(rt, reader, 1000, &mut out, Reading::Empty);
    check_octets(rt, &out, &[99; MAX]);
    publish(rt, writer, 1000, &seventeen(), 1);
    check_read(rt, reader, 1000, &mut out, message(1, 1000, 17, Fresh));
    check_octets(rt, &out, &seventeen());
    publish(rt, writer, 2000, &[7, 8, 9], 2);
    check_read(rt, reader, 2000, &mut out, message(2, 2000, 3, Fresh));
    check_octets(rt, &out[..5], &[7, 8, 9, 4, 5]);
}

/// Only the first octets fit, and the length is that of the whole message.
fn check_cut(rt: &impl Abort, writer: &mut Writer<READERS>, reader: &mut PartitionReader) {
    let mut out = [0; 9];
    publish(rt, writer, 3000, &seventeen(), 3);
    check_read(rt, reader, 3000, &mut out, message(3, 3000, 17, Fresh));
    check_octets(rt, &out, &[1, 2, 3, 4, 5, 6, 7, 8, 9]);
    check_read(rt, reader, 3000, &mut [], message(3, 3000, 17, Fresh));
}

fn check_octets_read(rt: &impl Abort, alloc: Global) {
    let (mut writer, mut reader) = open(rt, alloc, MAX);
    check_out(rt, &mut writer, &mut reader);
    check_cut(rt, &mut writer, &mut reader);
}

// rule: EMB-36
#[test]
fn the_octets_that_fit_are_read_and_the_rest_of_out_is_left(rt: HostRuntime) {
    check_octets_read(&rt, rt.alloc());
}

// ---- the parts

/// The reader has what it was made with, and its port's reader still reads.
fn check_parts(rt: &impl Abort, alloc: Global) {
    let (mut writer, reader) = open(rt, alloc, MAX);
    publish(rt, &mut writer, 1000, &[7, 8, 9], 1);
    assert!(rt; reader.refresh() == REFRESH && reader.max() == MAX);
    let mut reader = reader.into_reader();
    let wanted = Read::Message {
        number: 1,
        time: 1000,
        len: 3,
    };
    assert!(rt; reader.read(1, &mut [0; 1471]) == wanted);
}

// rule: EMB-37
#[test]
fn a_reader_gives_its_parts_back(rt: HostRuntime) {
    check_parts(&rt, rt.alloc());
}
