//! The two ends of a queue: what they know when they meet, and what is left if one of them is gone.
ghost use Rattle.std.specs.Prelude.{◌≡◌};

use crate::queue::messages::{open, put, put_each, take, take_each, take_nothing};
use queuing_port::{Putter, Taker, meet};
use std::alloc::Global;
use std::process::Abort;
use std::sync::Wait;

/// The ends meet while the queue holds this many messages.
fn check_meeting(rt: &(impl Abort + Wait), putter: &mut Putter, taker: &mut Taker, held: usize)
    requires { taker.old.queue ≡ putter.old.queue }
    ensures { (putter.new.queue ≡ putter.old.queue) × (taker.new.queue ≡ putter.old.queue) }
{
    assert_eq!(rt; meet(rt, putter, taker), held);
}

fn check_meetings(rt: &(impl Abort + Wait), alloc: Global) {
    let (mut putter, mut taker) = open(rt, alloc, 2);
    check_meeting(rt, &mut putter, &mut taker, 0);
    put(rt, alloc, &mut putter, 1, true);
    put(rt, alloc, &mut putter, 2, true);
    put(rt, alloc, &mut putter, 3, false);
    check_meeting(rt, &mut putter, &mut taker, 2);
    take(rt, alloc, &mut taker, 1);
    check_meeting(rt, &mut putter, &mut taker, 1);
    put(rt, alloc, &mut putter, 4, true);
    take(rt, alloc, &mut taker, 2);
    take(rt, alloc, &mut taker, 4);
    check_meeting(rt, &mut putter, &mut taker, 0);
}

// rule: PORT-17, PORT-18
#[test]
fn ends_that_meet_know_how_many_messages_are_held(rt: HostRuntime) {
    check_meetings(&rt, rt.alloc());
}

fn check_without_taker(rt: &(impl Abort + Wait), alloc: Global) {
    let (mut putter, mut taker) = open(rt, alloc, 2);
    put(rt, alloc, &mut putter, 1, true);
    take(rt, alloc, &mut taker, 1);
    drop(taker);
    let rows = [(2, true), (3, true), (4, false), (5, false)];
    put_each(rt, alloc, &mut putter, &rows);
}

// rule: PORT-13
#[test]
fn a_dropped_taker_stops_nobody(rt: HostRuntime) {
    check_without_taker(&rt, rt.alloc());
}

fn check_without_putter(rt: &(impl Abort + Wait), alloc: Global) {
    let (mut putter, mut taker) = open(rt, alloc, 2);
    put_each(rt, alloc, &mut putter, &[(1, true), (2, true)]);
    drop(putter);
    take_each(rt, alloc, &mut taker, &[1, 2]);
    take_nothing(rt, &mut taker);
}

// rule: PORT-13
#[test]
fn a_dropped_putter_leaves_its_messages(rt: HostRuntime) {
    check_without_putter(&rt, rt.alloc());
}
