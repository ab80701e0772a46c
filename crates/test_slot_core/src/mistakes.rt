//! Protocols that go wrong, each by the shortest schedule in which a reader loads words of two messages or
//! of another one: here the step that the broken protocol would take is refused, or does something else.
use crate::schedule::Move::{Publishes, Reader, Reads, Refused, Scans, Step, Writes};
use crate::schedule::{Move, check};
use slot_core::CoreEvent;
use slot_core::CoreEvent::{
    Announce, Clear, LoadFirst, LoadSecond, LoadWord, Scan, StoreLatest, StoreWord,
};
use slot_core::Phase::Loaded;
use slot_core::StepRefusal::{NotItsTurn, SlotAnnounced, SlotLatest};

/// The first word of a message in slot 0.
const WRITE_SLOT_0: CoreEvent = StoreWord {
    slot: 0,
    index: 0,
    word: 0,
};

const LOAD_FIRST: CoreEvent = LoadFirst { reader: 0 };

const ANNOUNCE: CoreEvent = Announce { reader: 0 };

const LOAD_SECOND: CoreEvent = LoadSecond { reader: 0 };

const CLEAR: CoreEvent = Clear { reader: 0 };

const LOAD_WORD: CoreEvent = LoadWord {
    reader: 0,
    index: 0,
};

/// Reader 0 looks while message 2 is written, just before it is published. It announces message 1 after
/// the writer has scanned for message 3.
fn announced_after_the_scan() -> [Move; 11] {
    [
        Publishes(0),
        Scans,
        Writes(1),
        Step(LOAD_FIRST),
        Step(StoreLatest),
        Scans,
        Step(ANNOUNCE),
        Refused(LOAD_WORD, NotItsTurn),
        Step(WRITE_SLOT_0),
        Step(LOAD_SECOND),
        Reader(Loaded(33), 16, 2),
    ]
}

/// Message 3 is in the announced slot 0 again: `latest` shows another message number.
fn announced_slot_written_again() -> [Move; 10] {
    [
        Publishes(0),
        Scans,
        Writes(1),
        Step(LOAD_FIRST),
        Step(StoreLatest),
        Publishes(0),
        Step(ANNOUNCE),
        Step(LOAD_SECOND),
        Reader(Loaded(48), 16, 3),
        Refused(LOAD_WORD, NotItsTurn),
    ]
}

fn cleared() -> [Move; 6] {
    [
        Publishes(0),
        Reads(0),
        Step(CLEAR),
        Refused(LOAD_WORD, NotItsTurn),
        Reads(0),
        Refused(LOAD_FIRST, NotItsTurn),
    ]
}

fn scanned_one_by_one() -> [Move; 17] {
    [
        Refused(WRITE_SLOT_0, NotItsTurn),
        Step(Scan { reader: 0 }),
        Refused(WRITE_SLOT_0, NotItsTurn),
        Step(Scan { reader: 1 }),
        Refused(WRITE_SLOT_0, NotItsTurn),
        Step(Scan { reader: 2 }),
        Refused(WRITE_SLOT_0, NotItsTurn),
        Step(Scan { reader: 3 }),
        Refused(WRITE_SLOT_0, NotItsTurn),
        Step(Scan { reader: 4 }),
        Refused(WRITE_SLOT_0, NotItsTurn),
        Step(Scan { reader: 5 }),
        Refused(WRITE_SLOT_0, NotItsTurn),
        Step(Scan { reader: 6 }),
        Refused(WRITE_SLOT_0, NotItsTurn),
        Step(Scan { reader: 7 }),
        Writes(0),
    ]
}

/// Message 1 in slot 0 is held, message 2 in slot 1: what was scanned for message 2 says nothing of the
/// hold.
fn held_after_the_scan() -> [Move; 8] {
    [
        Publishes(0),
        Scans,
        Writes(1),
        Reads(0),
        Step(StoreLatest),
        Refused(WRITE_SLOT_0, NotItsTurn),
        Scans,
        Refused(WRITE_SLOT_0, SlotAnnounced),
    ]
}

fn newest_slot() -> [Move; 5] {
    [
        Publishes(0),
        Scans,
        Refused(WRITE_SLOT_0, SlotLatest),
        Reads(0),
        Refused(WRITE_SLOT_0, SlotLatest),
    ]
}

fn latest_too_early() -> [Move; 5] {
    [
        Refused(StoreLatest, NotItsTurn),
        Scans,
        Refused(StoreLatest, NotItsTurn),
        Step(WRITE_SLOT_0),
        Refused(StoreLatest, NotItsTurn),
    ]
}

// rule: SAMP-10
#[test]
fn an_announcement_alone_is_no_hold(rt: HostRuntime) {
    check(&rt, rt.alloc(), &announced_after_the_scan());
}

// rule: SAMP-10
#[test]
fn the_second_look_comes_after_the_announcement(rt: HostRuntime) {
    let second = Refused(LOAD_SECOND, NotItsTurn);
    check(&rt, rt.alloc(), &[Publishes(0), Step(LOAD_FIRST), second]);
}

// rule: SAMP-13
#[test]
fn the_second_look_compares_the_message_number(rt: HostRuntime) {
    check(&rt, rt.alloc(), &announced_slot_written_again());
}

// rule: SAMP-11
#[test]
fn no_word_is_loaded_after_the_announcement_is_cleared(rt: HostRuntime) {
    check(&rt, rt.alloc(), &cleared());
}

// rule: SAMP-7
#[test]
fn no_word_is_stored_before_every_reader_is_scanned(rt: HostRuntime) {
    check(&rt, rt.alloc(), &scanned_one_by_one());
}

// rule: SAMP-7
#[test]
fn each_message_has_a_scan_of_its_own(rt: HostRuntime) {
    check(&rt, rt.alloc(), &held_after_the_scan());
}

// rule: SAMP-8
#[test]
fn the_slot_in_latest_is_not_written(rt: HostRuntime) {
    check(&rt, rt.alloc(), &newest_slot());
}

// rule: SAMP-9
#[test]
fn latest_is_stored_after_the_last_word(rt: HostRuntime) {
    check(&rt, rt.alloc(), &latest_too_early());
}
