//! Steps that name a reader, a slot or a word that there isn't, at each step of the writer and of the
//! readers.
use crate::schedule::Move::{Publishes, Reads, Refused, Scans, Step};
use crate::schedule::{Move, check_refused, core_after};
use slot_core::CoreEvent;
use slot_core::CoreEvent::{Announce, Clear, LoadFirst, LoadSecond, LoadWord, Scan, StoreWord};
use slot_core::StepRefusal::{NoSuchPlace, NotItsTurn};
use std::alloc::Global;
use std::process::Abort;

/// The first reader, slot and index that there isn't, and the greatest.
fn nowhere() -> [CoreEvent; 14] {
    [
        Scan { reader: 8 },
        Scan { reader: usize::MAX },
        StoreWord {
            slot: 10,
            index: 0,
            word: 0,
        },
        StoreWord {
            slot: usize::MAX,
            index: 0,
            word: 1472,
        },
        StoreWord {
            slot: 0,
            index: 186,
            word: 0,
        },
        LoadFirst { reader: 8 },
        LoadFirst { reader: usize::MAX },
        Announce { reader: 8 },
        LoadSecond { reader: 8 },
        LoadWord {
            reader: 8,
            index: 0,
        },
        LoadWord {
            reader: 0,
            index: 186,
        },
        LoadWord {
            reader: usize::MAX,
            index: usize::MAX,
        },
        Clear { reader: 8 },
        Clear { reader: usize::MAX },
    ]
}

/// After these moves each of those steps is refused for its place.
fn check_nowhere(rt: &impl Abort, alloc: Global, moves: &[Move]) {
    let mut core = core_after(rt, alloc, moves);
    for event in nowhere() {
        check_refused(rt, alloc, &mut core, event, NoSuchPlace);
    }
}

fn at_the_opening() -> [Move; 4] {
    [
        Refused(Scan { reader: 4 }, NotItsTurn),
        Refused(Scan { reader: 7 }, NotItsTurn),
        Refused(Scan { reader: 1 }, NotItsTurn),
        Refused(Clear { reader: 0 }, NotItsTurn),
    ]
}

/// Reader 0 holds, reader 1 has announced, reader 2 has looked, and the writer is at a message's second
/// word.
fn each_at_another_step() -> [Move; 7] {
    [
        Publishes(0),
        Reads(0),
        Step(LoadFirst { reader: 1 }),
        Step(Announce { reader: 1 }),
        Step(LoadFirst { reader: 2 }),
        Scans,
        Step(StoreWord {
            slot: 1,
            index: 0,
            word: 8,
        }),
    ]
}

// rule: SAMP-17
#[test]
fn the_place_is_tested_first(rt: HostRuntime) {
    check_nowhere(&rt, rt.alloc(), &at_the_opening());
    check_nowhere(&rt, rt.alloc(), &each_at_another_step());
}
