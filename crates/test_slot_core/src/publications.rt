//! Publications while readers look and hold.
use crate::schedule::Move::{Latest, Publishes, Reader, Reads, Refused, Scans, Step, Writes};
use crate::schedule::{
    Move, Outcome, check, check_list, check_outcome, check_phase, check_word, core_after, play,
    steps_of,
};
use slot_core::CoreEvent::{
    Announce, Clear, LoadFirst, LoadSecond, LoadWord, Scan, StoreLatest, StoreWord,
};
use slot_core::Phase::{Announced, Holding, Idle, Loaded};
use slot_core::StepRefusal::{NoSuchPlace, NotItsTurn, SlotAnnounced, SlotLatest};
use slot_core::{Core, CoreEvent};
use std::alloc::Global;
use std::process::Abort;

/// Messages 1 to 6 in slots 0, 1, 0, 1, 0, 1; reader 0 looks after the first, and again after the last.
fn six_messages() -> [Move; 15] {
    [
        Publishes(0),
        Step(LoadFirst { reader: 0 }),
        Reader(Loaded(16), 0, 1),
        Publishes(1),
        Publishes(0),
        Publishes(1),
        Publishes(0),
        Publishes(1),
        Step(Announce { reader: 0 }),
        Reader(Announced(16), 16, 1),
        Step(LoadSecond { reader: 0 }),
        Reader(Loaded(97), 16, 6),
        Step(Clear { reader: 0 }),
        Reader(Idle, 0, 6),
        Latest(97, 6),
    ]
}

// rule: SAMP-10, SAMP-14
#[test]
fn a_look_that_fails_sees_newer_messages(rt: HostRuntime) {
    check(&rt, rt.alloc(), &six_messages());
    check_list(&rt, rt.alloc(), &six_messages(), 70, 97);
}

/// Messages 1 to 20, in slots 0 and 1 by turns.
fn twenty_messages() -> [Move; 20] {
    let mut moves = [Publishes(0); 20];
    for place in 0..20 {
        moves[place] = Publishes(place % 2);
    }
    moves
}

/// No step is refused: each message takes memory, and there is enough.
// rule: SAMP-9, SAMP-17
#[test]
fn many_messages_follow_one_another(rt: HostRuntime) {
    check(&rt, rt.alloc(), &twenty_messages());
    check_list(&rt, rt.alloc(), &twenty_messages(), 220, 321);
}

/// The first word of a message of 0 octets.
fn first_word(slot: usize) -> CoreEvent {
    StoreWord {
        slot,
        index: 0,
        word: 0,
    }
}

/// Message 1 in slot 0, which reader 0 holds; message 2 in slot 1.
fn one_held_and_one_newer() -> [Move; 9] {
    [
        Publishes(0),
        Reads(0),
        Publishes(1),
        Scans,
        Refused(first_word(0), SlotAnnounced),
        Refused(first_word(1), SlotLatest),
        Refused(first_word(10), NoSuchPlace),
        Writes(6),
        Reader(Holding(16), 16, 1),
    ]
}

// rule: SAMP-8, SAMP-12
#[test]
fn a_held_slot_and_the_newest_one_are_not_written(rt: HostRuntime) {
    check(&rt, rt.alloc(), &one_held_and_one_newer());
}

/// Each reader holds a message of its own, in the slot of its number; one more is the newest, in slot 8; and
/// all readers are scanned.
fn eight_held() -> [Move; 18] {
    [
        Publishes(0),
        Reads(0),
        Publishes(1),
        Reads(1),
        Publishes(2),
        Reads(2),
        Publishes(3),
        Reads(3),
        Publishes(4),
        Reads(4),
        Publishes(5),
        Reads(5),
        Publishes(6),
        Reads(6),
        Publishes(7),
        Reads(7),
        Publishes(8),
        Scans,
    ]
}

/// The next message: slot 9 is left for it.
fn begun_in_each_slot() -> [Move; 13] {
    [
        Latest(152, 9),
        Refused(first_word(0), SlotAnnounced),
        Refused(first_word(1), SlotAnnounced),
        Refused(first_word(2), SlotAnnounced),
        Refused(first_word(3), SlotAnnounced),
        Refused(first_word(4), SlotAnnounced),
        Refused(first_word(5), SlotAnnounced),
        Refused(first_word(6), SlotAnnounced),
        Refused(first_word(7), SlotAnnounced),
        Refused(first_word(8), SlotLatest),
        Refused(first_word(10), NoSuchPlace),
        Writes(9),
        Latest(152, 9),
    ]
}

fn check_one_left(rt: &impl Abort, alloc: Global) {
    let mut core = core_after(rt, alloc, &eight_held());
    play(rt, alloc, &mut core, &begun_in_each_slot());
}

/// The steps of `eight_held` and the first word of a message in this slot, as one list.
fn check_begun(rt: &impl Abort, alloc: Global, slot: usize, wanted: Outcome) {
    let mut steps = steps_of(rt, alloc, &eight_held());
    steps.push(first_word(slot)).expect(rt, "memory");
    check_outcome(rt, alloc, steps.as_slice(), wanted);
}

// rule: SAMP-8, SAMP-15, SAMP-17
#[test]
fn one_slot_is_left_where_every_reader_holds_another(rt: HostRuntime) {
    let alloc = rt.alloc();
    check_one_left(&rt, alloc);
    check_list(&rt, alloc, &eight_held(), 131, 152);
    for slot in 0..8 {
        check_begun(&rt, alloc, slot, Err((131, SlotAnnounced)));
    }
    check_begun(&rt, alloc, 8, Err((131, SlotLatest)));
    check_begun(&rt, alloc, 9, Ok(152));
}

/// A message of 1 octet, 11 hexadecimal, of time 5, in slot 3, which reader 2 holds and loads.
fn one_octet() -> [Move; 11] {
    let slot = 3;
    let word = 0x1100_0000_0000_0000;
    let reader = 2;
    [
        Scans,
        Step(StoreWord {
            slot,
            index: 0,
            word: 1,
        }),
        Step(StoreWord {
            slot,
            index: 1,
            word: 5,
        }),
        Step(StoreWord {
            slot,
            index: 2,
            word,
        }),
        Step(StoreLatest),
        Reads(2),
        Step(LoadWord { reader, index: 0 }),
        Step(LoadWord { reader, index: 1 }),
        Step(LoadWord { reader, index: 2 }),
        Refused(LoadWord { reader, index: 3 }, NotItsTurn),
        Latest(19, 1),
    ]
}

fn check_octet(rt: &impl Abort, core: &Core) {
    check_word(rt, core, 3, 0, 1);
    check_word(rt, core, 3, 1, 5);
    check_word(rt, core, 3, 2, 0x1100_0000_0000_0000);
    check_phase(rt, core, 2, Holding(19));
    let message = core.published().first().expect(rt, "a message");
    assert!(rt; message.as_slice() == [1, 5, 0x1100_0000_0000_0000].as_slice());
    assert!(rt; message.len() == 3 && !message.is_empty());
}

// rule: SAMP-1, SAMP-2, SAMP-3, SAMP-11
#[test]
fn a_held_message_is_read_word_by_word(rt: HostRuntime) {
    let core = core_after(&rt, rt.alloc(), &one_octet());
    check_octet(&rt, &core);
}

/// The steps of message 1, of 0 octets and time 0, in slot 0.
fn first_message() -> [CoreEvent; 11] {
    [
        Scan { reader: 0 },
        Scan { reader: 1 },
        Scan { reader: 2 },
        Scan { reader: 3 },
        Scan { reader: 4 },
        Scan { reader: 5 },
        Scan { reader: 6 },
        Scan { reader: 7 },
        first_word(0),
        StoreWord {
            slot: 0,
            index: 1,
            word: 0,
        },
        StoreLatest,
    ]
}

// rule: SAMP-17
#[test]
fn a_list_of_steps_leads_to_a_core_or_to_its_first_refusal(rt: HostRuntime) {
    check_outcome(&rt, rt.alloc(), &first_message(), Ok(16));
    let early = [Scan { reader: 0 }, StoreLatest];
    check_outcome(&rt, rt.alloc(), &early, Err((1, NotItsTurn)));
}
