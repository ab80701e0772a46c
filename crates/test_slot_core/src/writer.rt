//! Where the writer is, as a look at the core shows it.
use crate::schedule::Move::{Scans, Step};
use crate::schedule::{Move, core_after};
use slot_core::CoreEvent::StoreWord;
use slot_core::{Core, READERS, WriterPhase};
use std::process::Abort;

/// All readers were scanned.
fn scanned() -> [Move; 1] {
    [Scans]
}

/// A message of 1 octet is begun in slot 2.
fn begun() -> [Move; 2] {
    let first = StoreWord {
        slot: 2,
        index: 0,
        word: 1,
    };
    [Scans, Step(first)]
}

/// The slot that is written, and its number of stored words; or none.
fn written(core: &Core) -> Option<(u64, usize)> {
    match core.writer_phase() {
        WriterPhase::Scanning { scanned: _ } => None,
        WriterPhase::Writing {
            scanned: _,
            slot,
            stored,
        } => Some((slot, stored.len())),
    }
}

/// Number of readers scanned, and found with nothing announced.
fn free_readers(core: &Core) -> usize {
    let (WriterPhase::Scanning { scanned } | WriterPhase::Writing { scanned, .. }) =
        core.writer_phase();
    scanned.iter().filter(|found| found.is_none()).count()
}

fn check_writer(rt: &impl Abort, core: &Core, wanted: Option<(u64, usize)>) {
    assert!(rt; written(core) == wanted);
    assert!(rt; free_readers(core) == READERS);
}

// rule: SAMP-7
#[test]
fn the_writer_scans_and_then_writes(rt: HostRuntime) {
    let alloc = rt.alloc();
    check_writer(&rt, &core_after(&rt, alloc, &scanned()), None);
    check_writer(&rt, &core_after(&rt, alloc, &begun()), Some((2, 1)));
}
