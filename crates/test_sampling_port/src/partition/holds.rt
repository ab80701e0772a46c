//! A message that is held.
use crate::partition::port::{
    MAX, check_range, check_read, hold, message, open, publish, seventeen,
};
use sampling_port::Freshness::{Fresh, Stale};
use sampling_port::{HeldMessage, NotHeld, PartitionReader, Writer};
use slot_core::READERS;
use std::alloc::Global;
use std::process::Abort;

/// The message is that of 17 octets, which came at 1000, whole, in words and over the edge of a word.
fn check_seventeen(rt: &impl Abort, held: &mut HeldMessage) {
    assert!(rt; held.time() == 1000 && held.len() == 17);
    assert!(rt; held.validity(1500) == Fresh && held.validity(1501) == Stale);
    check_range(rt, held, 0, [1, 2, 3, 4]);
    check_range(rt, held, 6, [7, 8, 9, 10]);
    check_range(rt, held, 13, [14, 15, 16, 17]);
    let mut whole = [0; 17];
    assert!(rt; held.len() == 17);
    held.copy_range(0, &mut whole);
    assert!(rt; whole == seventeen());
}

/// Twenty messages more are published, so each slot that may be is written.
fn publish_twenty(rt: &impl Abort, writer: &mut Writer<READERS>) {
    for number in 2..22u64 {
        publish(rt, writer, 2000, &[200; 16], number);
    }
}

fn check_held(rt: &impl Abort, alloc: Global) {
    let (mut writer, reader) = open(rt, alloc, MAX);
    publish(rt, &mut writer, 1000, &seventeen(), 1);
    let mut held = hold(rt, reader, 1);
    check_seventeen(rt, &mut held);
    publish_twenty(rt, &mut writer);
    check_seventeen(rt, &mut held);
    let mut reader = held.release();
    check_read(
        rt,
        &mut reader,
        2000,
        &mut [0; MAX],
        message(21, 2000, 16, Fresh),
    );
}

// rule: EMB-36
#[test]
fn a_held_message_stays_over_publications_until_it_is_released(rt: HostRuntime) {
    check_held(&rt, rt.alloc());
}

/// Nothing is held, and the reader comes back.
fn hold_nothing(rt: &impl Abort, reader: PartitionReader) -> PartitionReader {
    match reader.hold() {
        Ok(held) => {
            let _reader = held.release();
            panic!(rt; "held")
        }
        Err((reader, fault)) => {
            assert!(rt; fault == NotHeld::Empty);
            reader
        }
    }
}

fn check_none(rt: &impl Abort, alloc: Global) {
    let (mut writer, reader) = open(rt, alloc, MAX);
    let mut reader = hold_nothing(rt, reader);
    publish(rt, &mut writer, 1000, &[7, 8, 9], 1);
    check_read(
        rt,
        &mut reader,
        1000,
        &mut [0; 3],
        message(1, 1000, 3, Fresh),
    );
}

// rule: EMB-36
#[test]
fn nothing_is_held_of_a_port_where_nothing_was_published(rt: HostRuntime) {
    check_none(&rt, rt.alloc());
}
