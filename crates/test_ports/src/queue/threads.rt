//! Two threads over one queue, each of which ends by itself.
use crate::queue::messages::{empty_message, open, take_nothing};
use queuing_port::{Putter, Taker};
use std::alloc::Global;
use std::process::Abort;
use std::sync::Wait;
use std::thread;
use std::thread::{Threads, join};

/// Number of messages that pass in the long tests.
const MANY: u64 = 100_000;
/// How many calls of `put` or `take` a thread makes at most: each has to be done by then.
const MOST_TURNS: u64 = 10_000_000;

/// Puts messages of times 1 to `count`, each again until there is room. Returns the number put.
fn put_in_order<R: Wait>(rt: &R, alloc: Global, mut putter: Putter, count: u64) -> u64 {
    let mut put = 0;
    for _ in 0..MOST_TURNS {
        if put >= count {
            break;
        }
        match putter.put(rt, empty_message(alloc, put + 1)) {
            Ok(()) => put += 1,
            Err(_) => thread::yield_now(),
        }
    }
    put
}

/// Takes `count` messages, as long as their times are 1, 2 and so on. Returns the end, and how many were
/// taken.
fn take_in_order<R: Wait>(rt: &R, mut taker: Taker, count: u64) -> (Taker, u64) {
    let mut taken = 0;
    for _ in 0..MOST_TURNS {
        if taken >= count {
            break;
        }
        match taker.take(rt) {
            Some(message) => {
                if message.time != taken + 1 {
                    break;
                }
                taken += 1;
            }
            None => thread::yield_now(),
        }
    }
    (taker, taken)
}

/// So many messages pass from one thread to another through a queue of this depth, and none is left.
fn check_passing<R: Abort + Threads + Wait + Sync>(rt: &R, alloc: Global, depth: u8, count: u64) {
    let (putter, taker) = open(rt, alloc, depth);
    let (put, (mut taker, taken)) = join(
        rt,
        move || put_in_order(rt, alloc, putter, count),
        move || take_in_order(rt, taker, count),
    );
    assert_eq!(rt; (put, taken), (count, count));
    take_nothing(rt, &mut taker);
}

// rule: PORT-11, PORT-12
#[test]
fn two_threads_pass_messages_through_a_queue_of_depth_1(rt: HostRuntime) {
    check_passing(&rt, rt.alloc(), 1, MANY);
}

// rule: PORT-11, PORT-12
#[test]
fn two_threads_pass_messages_through_a_queue_of_depth_4(rt: HostRuntime) {
    check_passing(&rt, rt.alloc(), 4, 100);
}

// rule: PORT-11, PORT-12
#[test]
fn two_threads_pass_messages_through_a_queue_of_depth_64(rt: HostRuntime) {
    check_passing(&rt, rt.alloc(), 64, MANY);
}
