//! How many steps a publication takes, and a read that nothing disturbs.
use crate::schedule::Move::{Reads, Scans};
use crate::schedule::{check_outcome, check_value, push, steps_of};
use slot_core::CoreEvent;
use slot_core::CoreEvent::{Clear, LoadWord, StoreLatest, StoreWord};
use std::alloc::Global;
use std::process::Abort;

/// The steps that publish a message of so many octets in slot 0, in so many words. Its time and its octets
/// are 0.
fn publication(rt: &impl Abort, alloc: Global, octets: u64, words: usize) -> Vec<CoreEvent> {
    let mut steps = steps_of(rt, alloc, &[Scans]);
    let slot = 0;
    for index in 0..words {
        let word = if index == 0 { octets } else { 0 };
        push(rt, &mut steps, StoreWord { slot, index, word });
    }
    push(rt, &mut steps, StoreLatest);
    steps
}

/// The steps by which the last reader reads a message of so many words.
fn read(rt: &impl Abort, alloc: Global, words: usize) -> Vec<CoreEvent> {
    let reader = 7;
    let mut steps = steps_of(rt, alloc, &[Reads(reader)]);
    for index in 0..words {
        push(rt, &mut steps, LoadWord { reader, index });
    }
    push(rt, &mut steps, Clear { reader });
    steps
}

/// So many steps publish a message of so many octets, in so many words, and so many read it. All of them
/// are accepted, one after another.
fn check_counts(rt: &impl Abort, alloc: Global, octets: u64, words: usize, counts: (u64, u64)) {
    let mut steps = publication(rt, alloc, octets, words);
    let reads = read(rt, alloc, words);
    check_value(rt, "publication", steps.len() as u64, counts.0);
    check_value(rt, "read", reads.len() as u64, counts.1);
    for event in reads {
        push(rt, &mut steps, event);
    }
    check_outcome(rt, alloc, steps.as_slice(), Ok(16));
}

// rule: SAMP-22
#[test]
fn a_publication_and_a_read_take_a_step_for_each_word_and_few_more(rt: HostRuntime) {
    check_counts(&rt, rt.alloc(), 0, 2, (11, 6));
    check_counts(&rt, rt.alloc(), 17, 5, (14, 9));
    check_counts(&rt, rt.alloc(), 1471, 186, (195, 190));
}
