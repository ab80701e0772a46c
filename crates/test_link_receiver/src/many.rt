//! Many frames of one link.
use crate::epochs::check_epoch;
use crate::frames::{check_step, opened};
use es_base::{Net, Verdict};
use link_receiver::LinkState;
use std::alloc::Global;
use std::process::Abort;
use std::sync::Wait;
use test_inputs::rows::POS;
use test_inputs::{LINK, sequence_number_at};

/// The receiver takes the frame at this place, which comes as many microseconds after the first and becomes a message.
fn take_one(rt: &(impl Abort + Wait), alloc: Global, state: &mut LinkState, place: u32) {
    let time = u64::from(place);
    let verdict = Verdict::Sampled(POS, time + 1);
    let step = (Net::A, time, sequence_number_at(place), verdict);
    check_step(rt, alloc, state, step);
}

/// A new receiver that took this many frames, one a microsecond, each of which became a message.
fn taken(rt: &(impl Abort + Wait), alloc: Global, count: u32) -> LinkState {
    let (mut state, _) = opened(rt, alloc, LINK);
    for place in 0..count {
        take_one(rt, alloc, &mut state, place);
    }
    state
}

/// The history is taken out after this many frames, after one more and after another, and once more without any.
fn check_epochs(rt: &(impl Abort + Wait), alloc: Global, state: &mut LinkState, count: u32) {
    let first = u64::from(count);
    check_epoch(rt, alloc, state, 0, first);
    take_one(rt, alloc, state, count);
    check_epoch(rt, alloc, state, first, 1);
    take_one(rt, alloc, state, count.wrapping_add(1));
    check_epoch(rt, alloc, state, first.wrapping_add(1), 1);
    check_epoch(rt, alloc, state, first.wrapping_add(2), 0);
}

fn check_many(rt: &(impl Abort + Wait), alloc: Global, count: u32) {
    let mut state = taken(rt, alloc, count);
    assert!(rt; state.history().len() == count as usize);
    let last = state.history().last().expect(rt, "an event");
    assert!(rt; last.time == u64::from(count).wrapping_sub(1));
    check_epochs(rt, alloc, &mut state, count);
}

// rule: FRAME-9, PORT-4, HIST-3
#[test]
fn a_link_takes_a_hundred_thousand_frames(rt: HostRuntime) {
    check_many(&rt, rt.alloc(), 100_000);
}

/// A new receiver takes this many frames, and all their messages are among its deliveries.
fn check_many_deliveries(rt: &(impl Abort + Wait), alloc: Global, count: u32) {
    let state = taken(rt, alloc, count);
    let messages = state.deliveries(alloc, POS).expect(rt, "memory");
    assert!(rt; messages.len() == count as usize);
    for (place, message) in messages.iter().enumerate() {
        assert!(rt; message.time == place as u64);
    }
}

// rule: PORT-4
#[test]
fn a_history_of_a_thousand_frames_delivers_a_thousand_messages(rt: HostRuntime) {
    check_many_deliveries(&rt, rt.alloc(), 1000);
}
