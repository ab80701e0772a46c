//! What a program asks of a link: when frames came, what was given up, how full a queue is.
use crate::opened::{Given, check_frames, opened};
use crate::ports::{bring, take};
use receiver::Net::{A, B};
use receiver::Verdict::{OutOfSequence, Overflow, Queued, Redundant, Sampled};
use receiver::{Fill, PortNo};
use std::alloc::Global;
use std::process::Abort;
use test_inputs::rows::{NAV, POS, SmallestRow, five_begin, in_order, packet_row, smallest_row};

/// A sample comes on A, its copy on B, one with a number too far ahead on A, and the next one on B, with an earlier
/// time.
fn heard() -> [SmallestRow; 4] {
    [
        (A, 1000, 1, Sampled(POS, 1)),
        (B, 1100, 1, Redundant),
        (A, 1050, 9, OutOfSequence),
        (B, 900, 2, Sampled(POS, 2)),
    ]
}

/// The latest frames of the link at this place came at these times on A and B.
fn check_latest(rt: &impl Abort, given: &Given, at: usize, a: Option<u64>, b: Option<u64>) {
    let link = given.receiver.link(at).expect(rt, "a link");
    assert!(rt; link.latest(A) == a && link.latest(B) == b);
}

fn check_heard(rt: &impl Abort, alloc: Global) {
    let mut given = opened(rt, alloc);
    check_latest(rt, &given, 0, None, None);
    let rows = heard().map(smallest_row);
    check_frames(rt, alloc, &mut given.receiver, &rows[..1]);
    check_latest(rt, &given, 0, Some(1000), None);
    check_frames(rt, alloc, &mut given.receiver, &rows[1..]);
    check_latest(rt, &given, 0, Some(1050), Some(900));
    check_latest(rt, &given, 1, None, None);
}

// rule: EMB-6
#[test]
fn each_frame_of_a_link_is_the_latest_of_its_network(rt: HostRuntime) {
    check_heard(&rt, rt.alloc());
}

/// The first link has given up so many partial datagrams.
fn check_given_up(rt: &impl Abort, given: &Given, wanted: u64) {
    let link = given.receiver.link(0).expect(rt, "a link");
    assert!(rt; link.given_up() == wanted);
}

fn check_pieces(rt: &impl Abort, alloc: Global) {
    let mut given = opened(rt, alloc);
    check_frames(
        rt,
        alloc,
        &mut given.receiver,
        &five_begin().map(packet_row),
    );
    check_given_up(rt, &given, 2);
    let mut other = opened(rt, alloc);
    check_frames(rt, alloc, &mut other.receiver, &in_order().map(packet_row));
    check_given_up(rt, &other, 0);
}

// rule: REAS-15
#[test]
fn partial_datagrams_that_are_given_up_are_counted(rt: HostRuntime) {
    check_pieces(&rt, rt.alloc());
}

/// So many messages wait at `nav`, and so many waited at most.
fn check_fill(rt: &impl Abort, given: &mut Given, waiting: usize, greatest: usize) {
    assert!(rt; given.receiver.fill(0, NAV) == Some(Fill { waiting, greatest }));
}

fn check_queue(rt: &impl Abort, alloc: Global) {
    let mut given = opened(rt, alloc);
    check_fill(rt, &mut given, 0, 0);
    for number in 1..=4 {
        bring(rt, alloc, &mut given, number, Queued(NAV));
        check_fill(rt, &mut given, number as usize, number as usize);
    }
    bring(rt, alloc, &mut given, 5, Overflow(NAV));
    check_fill(rt, &mut given, 4, 4);
    take(rt, &mut given.taker, 1000);
    check_fill(rt, &mut given, 3, 4);
    for time in [2000, 3000, 4000] {
        take(rt, &mut given.taker, time);
    }
    check_fill(rt, &mut given, 0, 4);
    assert!(rt; given.receiver.fill(0, POS).is_none());
    assert!(rt; given.receiver.fill(0, PortNo(2)).is_none());
    assert!(rt; given.receiver.fill(2, NAV).is_none());
}

// rule: EMB-7
#[test]
fn messages_that_nobody_took_wait(rt: HostRuntime) {
    check_queue(&rt, rt.alloc());
}

/// Messages are put and taken, by turns so many.
fn put_and_taken() -> [(u8, u64); 5] {
    [(1, 1), (1, 1), (2, 1), (2, 3), (1, 1)]
}

fn check_greatest(rt: &impl Abort, alloc: Global) {
    let mut given = opened(rt, alloc);
    let mut put = 0u8;
    let mut taken = 0u64;
    for (puts, takes) in put_and_taken() {
        for _ in 0..puts {
            put = put.wrapping_add(1);
            bring(rt, alloc, &mut given, put, Queued(NAV));
        }
        for _ in 0..takes {
            taken = taken.wrapping_add(1);
            take(rt, &mut given.taker, taken.wrapping_mul(1000));
        }
    }
    check_fill(rt, &mut given, 0, 3);
}

// rule: EMB-7
#[test]
fn the_greatest_number_that_waited_is_kept_while_nobody_asks(rt: HostRuntime) {
    check_greatest(&rt, rt.alloc());
}
