//! What a queue holds, and in which order.
use crate::queue::messages::{
    check_same, message, open, put, put_each, put_message, take, take_each, take_message,
    take_nothing,
};
use es_base::LONGEST_QUEUED;
use std::alloc::Global;
use std::process::Abort;
use std::sync::Wait;

/// Depths on both sides of powers of two, and the deepest.
fn depths() -> [u8; 6] {
    [1, 2, 3, 4, 5, 64]
}

/// A new queue takes `depth` messages and refuses the next two. Emptied it takes as many again.
fn check_depth(rt: &(impl Abort + Wait), alloc: Global, depth: u8) {
    let (mut putter, mut taker) = open(rt, alloc, depth);
    let most = u64::from(depth);
    for round in 0..3u64 {
        for place in 1..=most + 2 {
            put(rt, alloc, &mut putter, 100 * round + place, place <= most);
        }
        for place in 1..=most {
            take(rt, alloc, &mut taker, 100 * round + place);
        }
        take_nothing(rt, &mut taker);
    }
}

// rule: PORT-10, PORT-11
#[test]
fn a_queue_holds_as_many_messages_as_its_depth(rt: HostRuntime) {
    for depth in depths() {
        check_depth(&rt, rt.alloc(), depth);
    }
}

/// A message of this many octets comes out with its time and its octets.
fn check_length(rt: &(impl Abort + Wait), alloc: Global, len: u16) {
    let (mut putter, mut taker) = open(rt, alloc, 1);
    let back = put_message(rt, &mut putter, message(rt, alloc, 7, 0xa5, len as usize));
    assert!(rt; back.is_none());
    let same = message(rt, alloc, 7, 0xa5, len as usize);
    check_same(rt, &take_message(rt, &mut taker), &same);
}

// rule: PORT-11
#[test]
fn messages_of_no_octets_and_of_the_most_pass(rt: HostRuntime) {
    check_length(&rt, rt.alloc(), 0);
    check_length(&rt, rt.alloc(), LONGEST_QUEUED);
}

fn check_refusal(rt: &(impl Abort + Wait), alloc: Global) {
    let (mut putter, mut taker) = open(rt, alloc, 1);
    put_each(rt, alloc, &mut putter, &[(1000, true), (1100, false)]);
    take(rt, alloc, &mut taker, 1000);
    take_nothing(rt, &mut taker);
    put(rt, alloc, &mut putter, 1200, true);
    take(rt, alloc, &mut taker, 1200);
    take_nothing(rt, &mut taker);
}

// rule: PORT-10
#[test]
fn a_message_is_refused_and_room_made_for_the_next(rt: HostRuntime) {
    check_refusal(&rt, rt.alloc());
}

/// How many messages a full queue refuses one after another.
const MANY: u64 = 1000;

/// Whatever was refused before, a message that is taken makes room, though the ends don't meet.
fn check_refusals(rt: &(impl Abort + Wait), alloc: Global) {
    let (mut putter, mut taker) = open(rt, alloc, 1);
    put(rt, alloc, &mut putter, 1, true);
    for refused in 0..MANY {
        put(rt, alloc, &mut putter, 2 + refused, false);
    }
    take(rt, alloc, &mut taker, 1);
    put(rt, alloc, &mut putter, 2, true);
    take(rt, alloc, &mut taker, 2);
}

// rule: PORT-10, PORT-17
#[test]
fn a_queue_that_refused_many_messages_takes_one_again(rt: HostRuntime) {
    check_refusals(&rt, rt.alloc());
}

fn check_order(rt: &(impl Abort + Wait), alloc: Global) {
    let (mut putter, mut taker) = open(rt, alloc, 3);
    let rows = [(10, true), (20, true), (30, true), (40, false)];
    put_each(rt, alloc, &mut putter, &rows);
    take(rt, alloc, &mut taker, 10);
    put(rt, alloc, &mut putter, 50, true);
    take_each(rt, alloc, &mut taker, &[20, 30, 50]);
    take_nothing(rt, &mut taker);
}

// rule: PORT-11
#[test]
fn a_late_reader_gets_the_oldest_first(rt: HostRuntime) {
    check_order(&rt, rt.alloc());
}
