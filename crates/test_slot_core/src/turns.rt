//! Steps out of turn, at each step of the writer and of a reader.
use crate::schedule::Move::{Publishes, Scans, Step};
use crate::schedule::{Move, check_refused, check_word, core_after, take};
use slot_core::CoreEvent::{
    Announce, Clear, LoadFirst, LoadSecond, LoadWord, Scan, StoreLatest, StoreWord,
};
use slot_core::StepRefusal::NotItsTurn;
use slot_core::{Core, CoreEvent};
use std::alloc::Global;
use std::process::Abort;

/// A step, and whether it is allowed. Those allowed change nothing for the next: each is tried on a core
/// of its own.
type Turn = (CoreEvent, bool);

/// After these moves each of the steps is accepted or refused.
fn check_turns(rt: &impl Abort, alloc: Global, moves: &[Move], turns: &[Turn]) {
    for (event, allowed) in turns {
        let mut core = core_after(rt, alloc, moves);
        let answer = core.step(alloc, event);
        let wanted = if *allowed { Ok(()) } else { Err(NotItsTurn) };
        assert!(rt; answer == wanted, "{event:?}: {answer:?}");
    }
}

fn store(slot: usize, index: usize, word: u64) -> CoreEvent {
    StoreWord { slot, index, word }
}

// ---- a reader

/// Turns of reader 7: load first, announce, load again, load a word, one after the message, clear.
fn reader_turns(allowed: [bool; 6]) -> [Turn; 6] {
    let [first, announce, second, word, past, clear] = allowed;
    let reader = 7;
    [
        (LoadFirst { reader }, first),
        (Announce { reader }, announce),
        (LoadSecond { reader }, second),
        (LoadWord { reader, index: 1 }, word),
        (LoadWord { reader, index: 2 }, past),
        (Clear { reader }, clear),
    ]
}

/// Message 1 in slot 2, and the reader's steps to a hold.
fn steps_to_a_hold() -> [Move; 4] {
    [
        Publishes(2),
        Step(LoadFirst { reader: 7 }),
        Step(Announce { reader: 7 }),
        Step(LoadSecond { reader: 7 }),
    ]
}

/// A second look that finds message 2: the announcement of message 1 stands.
fn failed_look() -> [Move; 5] {
    [
        Publishes(2),
        Step(LoadFirst { reader: 7 }),
        Step(Announce { reader: 7 }),
        Publishes(1),
        Step(LoadSecond { reader: 7 }),
    ]
}

// rule: SAMP-10, SAMP-17
#[test]
fn a_reader_takes_its_steps_in_turn(rt: HostRuntime) {
    let alloc = rt.alloc();
    let idle = reader_turns([true, false, false, false, false, false]);
    let loaded = reader_turns([true, true, false, false, false, false]);
    let announced = reader_turns([false, false, true, false, false, true]);
    let holding = reader_turns([false, false, false, true, false, true]);
    let late = reader_turns([false, true, false, false, false, true]);
    let steps = steps_to_a_hold();
    check_turns(&rt, alloc, &[], &idle);
    // Nothing published: a look finds 0, and the reader stays idle.
    check_turns(&rt, alloc, &[Step(LoadFirst { reader: 7 })], &idle);
    check_turns(&rt, alloc, &steps[..1], &idle);
    check_turns(&rt, alloc, &steps[..2], &loaded);
    check_turns(&rt, alloc, &steps[..3], &announced);
    check_turns(&rt, alloc, &steps, &holding);
    check_turns(&rt, alloc, &failed_look(), &late);
}

// ---- the writer

/// Two readers are scanned.
fn two_scanned() -> [Move; 2] {
    [Step(Scan { reader: 0 }), Step(Scan { reader: 1 })]
}

/// A message of 1 octet and time 5 is stored in slot 0.
fn one_octet() -> [Move; 4] {
    [
        Scans,
        Step(store(0, 0, 1)),
        Step(store(0, 1, 5)),
        Step(store(0, 2, 0x1100_0000_0000_0000)),
    ]
}

fn before_all_are_scanned() -> [Turn; 7] {
    [
        (Scan { reader: 1 }, false),
        (Scan { reader: 2 }, true),
        (Scan { reader: 3 }, false),
        (store(0, 0, 0), false),
        (store(0, 1, 0), false),
        (store(9, 0, 1471), false),
        (StoreLatest, false),
    ]
}

/// 1472 octets are too many, and no word comes before the first.
fn after_all_are_scanned() -> [Turn; 8] {
    [
        (Scan { reader: 0 }, false),
        (Scan { reader: 7 }, false),
        (store(0, 0, 0), true),
        (store(9, 0, 1471), true),
        (store(0, 0, 1472), false),
        (store(0, 0, u64::MAX), false),
        (store(0, 1, 0), false),
        (StoreLatest, false),
    ]
}

/// The time may be any.
fn after_the_length() -> [Turn; 8] {
    [
        (Scan { reader: 0 }, false),
        (store(0, 0, 1), false),
        (store(1, 1, 5), false),
        (store(0, 1, 5), true),
        (store(0, 1, u64::MAX), true),
        (store(0, 2, 0), false),
        (store(1, 0, 1), false),
        (StoreLatest, false),
    ]
}

/// The octets after the first one are zeros.
fn after_the_time() -> [Turn; 8] {
    [
        (store(0, 2, 0x1100_0000_0000_0001), false),
        (store(0, 2, 0x1101_0000_0000_0000), false),
        (store(0, 2, 0x0011_0000_0000_0000), false),
        (store(0, 2, 0x1100_0000_0000_0000), true),
        (store(0, 2, 0), true),
        (store(1, 2, 0), false),
        (store(0, 1, 5), false),
        (StoreLatest, false),
    ]
}

fn after_the_last_word() -> [Turn; 5] {
    [
        (store(0, 3, 0), false),
        (store(0, 0, 1), false),
        (store(1, 0, 1), false),
        (Scan { reader: 0 }, false),
        (StoreLatest, true),
    ]
}

// rule: SAMP-3, SAMP-7, SAMP-17
#[test]
fn the_writer_takes_its_steps_in_turn(rt: HostRuntime) {
    let alloc = rt.alloc();
    let words = one_octet();
    check_turns(&rt, alloc, &two_scanned(), &before_all_are_scanned());
    check_turns(&rt, alloc, &words[..1], &after_all_are_scanned());
    check_turns(&rt, alloc, &words[..2], &after_the_length());
    check_turns(&rt, alloc, &words[..3], &after_the_time());
    check_turns(&rt, alloc, &words, &after_the_last_word());
}

/// The first 185 words of the longest message, 1471 octets, are stored in slot 9.
fn store_longest(rt: &impl Abort, alloc: Global, core: &mut Core) {
    for index in 1..185 {
        take(rt, alloc, core, store(9, index, u64::MAX));
    }
}

fn check_longest(rt: &impl Abort, alloc: Global) {
    let mut core = core_after(rt, alloc, &[Scans, Step(store(9, 0, 1471))]);
    store_longest(rt, alloc, &mut core);
    check_refused(rt, alloc, &mut core, StoreLatest, NotItsTurn);
    check_refused(rt, alloc, &mut core, store(9, 185, 1), NotItsTurn);
    take(rt, alloc, &mut core, store(9, 185, u64::MAX - 255));
    take(rt, alloc, &mut core, StoreLatest);
    check_word(rt, &core, 9, 185, u64::MAX - 255);
}

/// It has 186 words; the last one has 7 octets.
// rule: SAMP-3, SAMP-5, SAMP-9
#[test]
fn the_longest_message_fills_a_slot(rt: HostRuntime) {
    check_longest(&rt, rt.alloc());
}
