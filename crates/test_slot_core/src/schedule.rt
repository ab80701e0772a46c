//! Schedules: what happens at a port, step by step, and what is seen of it between the steps. A schedule
//! is played one step after another, or its steps as one list.
use slot_core::CoreEvent::{Announce, LoadFirst, LoadSecond, Scan, StoreLatest, StoreWord};
use slot_core::{Core, CoreEvent, Phase, READERS, SLOTS, StepRefusal, WORDS, run};
use std::alloc::Global;
use std::process::Abort;

/// A move at a port, or a look at it.
#[derive(Clone, Copy)]
pub(crate) enum Move {
    /// A step that is accepted.
    Step(CoreEvent),
    /// A step that is refused.
    Refused(CoreEvent, StepRefusal),
    /// The writer scans all readers.
    Scans,
    /// The words of a message of 0 octets and time 0 are stored in this slot.
    Writes(usize),
    /// A message of 0 octets and time 0 is published in this slot.
    Publishes(usize),
    /// This reader takes the three steps to a hold.
    Reads(usize),
    /// The word `latest`, and the number of published messages.
    Latest(u64, usize),
    /// The phase of reader 0, its announcement, and the number of messages that it has seen.
    Reader(Phase, u64, u64),
}

use Move::{Latest, Publishes, Reader, Reads, Refused, Scans, Step, Writes};

// ---- the steps of a schedule

pub(crate) fn push(rt: &impl Abort, steps: &mut Vec<CoreEvent>, event: CoreEvent) {
    steps.push(event).expect(rt, "memory");
}

fn push_scans(rt: &impl Abort, steps: &mut Vec<CoreEvent>) {
    for reader in 0..READERS {
        push(rt, steps, Scan { reader });
    }
}

fn push_words(rt: &impl Abort, steps: &mut Vec<CoreEvent>, slot: usize) {
    for index in 0..2 {
        let event = StoreWord {
            slot,
            index,
            word: 0,
        };
        push(rt, steps, event);
    }
}

fn push_publication(rt: &impl Abort, steps: &mut Vec<CoreEvent>, slot: usize) {
    push_scans(rt, steps);
    push_words(rt, steps, slot);
    push(rt, steps, StoreLatest);
}

fn push_hold(rt: &impl Abort, steps: &mut Vec<CoreEvent>, reader: usize) {
    push(rt, steps, LoadFirst { reader });
    push(rt, steps, Announce { reader });
    push(rt, steps, LoadSecond { reader });
}

/// The accepted steps of this move.
fn push_steps(rt: &impl Abort, steps: &mut Vec<CoreEvent>, part: Move) {
    match part {
        Step(event) => push(rt, steps, event),
        Scans => push_scans(rt, steps),
        Writes(slot) => push_words(rt, steps, slot),
        Publishes(slot) => push_publication(rt, steps, slot),
        Reads(reader) => push_hold(rt, steps, reader),
        Refused(..) | Latest(..) | Reader(..) => {}
    }
}

/// The accepted steps of these moves, as one list.
pub(crate) fn steps_of(rt: &impl Abort, alloc: Global, moves: &[Move]) -> Vec<CoreEvent> {
    let mut steps = Vec::new(alloc);
    for part in moves {
        push_steps(rt, &mut steps, *part);
    }
    steps
}

// ---- what is seen of a port

/// Checks that the thing with this name has this value.
pub(crate) fn check_value(rt: &impl Abort, name: &str, value: u64, wanted: u64) {
    assert!(rt; value == wanted, "{name}: {value}");
}

/// This word of a slot has this value.
pub(crate) fn check_word(rt: &impl Abort, core: &Core, slot: usize, index: usize, word: u64) {
    assert!(rt; slot < SLOTS && index < WORDS);
    check_value(rt, "word", core.word(slot, index), word);
}

/// This reader is there.
pub(crate) fn check_phase(rt: &impl Abort, core: &Core, reader: usize, phase: Phase) {
    assert!(rt; reader < READERS);
    let found = core.reader_phase(reader);
    assert!(rt; found == phase, "{found:?}");
}

fn check_latest(rt: &impl Abort, core: &Core, latest: u64, count: usize) {
    check_value(rt, "latest", core.latest(), latest);
    check_value(rt, "published", core.published().len() as u64, count as u64);
}

fn check_reader(rt: &impl Abort, core: &Core, phase: Phase, own: u64, seen: u64) {
    check_phase(rt, core, 0, phase);
    check_value(rt, "announcement", core.announcement(0), own);
    check_value(rt, "seen", core.seen(0), seen);
}

// ---- one step after another

/// The step is accepted.
pub(crate) fn take(rt: &impl Abort, alloc: Global, core: &mut Core, event: CoreEvent) {
    let answer = core.step(alloc, &event);
    assert!(rt; answer == Ok(()), "{event:?}: {answer:?}");
}

/// The step is refused so.
pub(crate) fn check_refused(
    rt: &impl Abort,
    alloc: Global,
    core: &mut Core,
    event: CoreEvent,
    refusal: StepRefusal,
) {
    let answer = core.step(alloc, &event);
    assert!(rt; answer == Err(refusal), "{event:?}: {answer:?}");
}

/// These steps are accepted.
fn take_all(rt: &impl Abort, alloc: Global, core: &mut Core, steps: &[CoreEvent]) {
    for event in steps {
        take(rt, alloc, core, *event);
    }
}

/// The move goes as it says: its steps are accepted, and what is refused or seen is what it says.
fn make(rt: &impl Abort, alloc: Global, core: &mut Core, part: Move) {
    let steps = steps_of(rt, alloc, &[part]);
    take_all(rt, alloc, core, steps.as_slice());
    match part {
        Refused(event, refusal) => check_refused(rt, alloc, core, event, refusal),
        Latest(latest, count) => check_latest(rt, core, latest, count),
        Reader(phase, own, seen) => check_reader(rt, core, phase, own, seen),
        _ => {}
    }
}

/// These moves go as they say.
pub(crate) fn play(rt: &impl Abort, alloc: Global, core: &mut Core, moves: &[Move]) {
    for part in moves {
        make(rt, alloc, core, *part);
    }
}

/// The core after these moves, from the opening on.
pub(crate) fn core_after(rt: &impl Abort, alloc: Global, moves: &[Move]) -> Core {
    let mut core = Core::opening(alloc);
    play(rt, alloc, &mut core, moves);
    core
}

/// These moves go as they say, from the opening on.
pub(crate) fn check(rt: &impl Abort, alloc: Global, moves: &[Move]) {
    let _ = core_after(rt, alloc, moves);
}

// ---- as one list

/// Result of a list of steps: the word `latest`, or the place of the first refused step and why.
pub(crate) type Outcome = Result<u64, (usize, StepRefusal)>;

fn outcome_of(alloc: Global, steps: &[CoreEvent]) -> Outcome {
    Ok(run(alloc, steps)?.latest())
}

pub(crate) fn check_outcome(rt: &impl Abort, alloc: Global, steps: &[CoreEvent], wanted: Outcome) {
    let outcome = outcome_of(alloc, steps);
    assert!(rt; outcome == wanted, "{outcome:?}");
}

/// The accepted steps of these moves are so many, and as one list they lead to this word `latest`.
pub(crate) fn check_list(rt: &impl Abort, alloc: Global, moves: &[Move], count: u64, latest: u64) {
    let steps = steps_of(rt, alloc, moves);
    check_value(rt, "steps", steps.len() as u64, count);
    check_outcome(rt, alloc, steps.as_slice(), Ok(latest));
}
