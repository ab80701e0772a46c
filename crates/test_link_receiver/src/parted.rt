//! A link played whole, and in epochs: what becomes of each frame is the same.
use crate::epochs::Step::{Nav, Packet, Pos};
use crate::epochs::{Step, check_epoch, check_events, check_step};
use crate::frames::opened;
use crate::meetings::{check_count, taker_in};
use crate::partitions::readers_in;
use es_base::Net::{A, B};
use es_base::Verdict::{BadUdp, FragmentHeld, OutOfSequence, Overflow, Redundant, Sampled};
use es_base::{Message, Net, PortNo, VERDICT_KINDS};
use link_receiver::LinkState;
use queuing_port::Taker;
use sampling_port::{MOST_TRIES, Reader};
use slot_core::READERS;
use std::alloc::Global;
use std::process::Abort;
use std::sync::Wait;
use test_inputs::fragments::PacketName::{
    First, First3, First4, First5, First6, Last, SevenOctets,
};
use test_inputs::rows::{FOR_NAV, NAV, POS};
use test_inputs::{LINK, Link};

/// Copies, fragments with others between them, and times that fall. The queue of `nav` holds three messages.
fn beginning() -> [Step; 14] {
    [
        Pos(A, 1000, 1, Sampled(POS, 1)),
        Pos(B, 1100, 1, Redundant),
        Packet((A, 2000, 2, First, FragmentHeld)),
        Packet((B, 2050, 2, First, Redundant)),
        Packet((A, 2500, 3, First3, FragmentHeld)),
        Nav(A, 3000, 4, FOR_NAV),
        Pos(A, 2900, 5, Sampled(POS, 2)),
        Packet((B, 3100, 3, Last, Redundant)),
        Packet((A, 3200, 6, Last, FOR_NAV)),
        Packet((A, 3200, 7, SevenOctets, BadUdp)),
        Pos(A, 4000, 11, OutOfSequence),
        Pos(A, 4100, 12, Sampled(POS, 3)),
        // SkewMax, 1000 microseconds, and one microsecond more.
        Pos(B, 5100, 4, Redundant),
        Pos(B, 5101, 5, Sampled(POS, 4)),
    ]
}

/// A fifth partial datagram, one that is as old as the limit and one that is older, a queue that is full, and a
/// reset that is not ahead.
fn end() -> [Step; 12] {
    [
        Packet((A, 6000, 13, First, FragmentHeld)),
        Packet((A, 6100, 14, First4, FragmentHeld)),
        Packet((A, 6200, 15, First5, FragmentHeld)),
        Packet((A, 6300, 16, First6, FragmentHeld)),
        Packet((A, 56_000, 17, Last, FOR_NAV)),
        Packet((A, 57_000, 18, First, FragmentHeld)),
        Nav(A, 57_100, 19, Overflow(NAV)),
        Packet((A, 107_001, 20, Last, FragmentHeld)),
        Packet((A, 107_002, 21, First, Overflow(NAV))),
        Pos(A, 107_003, 0, Redundant),
        Pos(A, 107_004, 1, Redundant),
        Pos(A, 200_000, 2, Sampled(POS, 5)),
    ]
}

/// A link that takes frames, a reader and a taker of its ports, and what it delivered to these before its
/// history.
#[derive(Drop)]
struct Played {
    state: LinkState,
    readers: [Reader<READERS>; READERS],
    taker: Taker,
    for_pos: Vec<Message>,
    for_nav: Vec<Message>,
}

fn begun(rt: &impl Abort, alloc: Global) -> Played {
    let link = Link {
        nav_depth: 3,
        ..LINK
    };
    let (state, mut ends) = opened(rt, alloc, link);
    let nav = ends.pop().expect(rt, "an end");
    let pos = ends.pop().expect(rt, "an end");
    Played {
        state,
        readers: readers_in(rt, pos),
        taker: taker_in(rt, nav),
        for_pos: Vec::new(alloc),
        for_nav: Vec::new(alloc),
    }
}

/// Adds what the history delivered to a port.
fn add_deliveries(
    rt: &impl Abort,
    alloc: Global,
    state: &LinkState,
    port: PortNo,
    messages: &mut Vec<Message>,
) {
    for message in state.deliveries(alloc, port).expect(rt, "memory") {
        messages.push(message).expect(rt, "memory");
    }
}

fn add_all_deliveries(rt: &impl Abort, alloc: Global, played: &mut Played) {
    add_deliveries(rt, alloc, &played.state, POS, &mut played.for_pos);
    add_deliveries(rt, alloc, &played.state, NAV, &mut played.for_nav);
}

/// All of the history is taken out.
fn part(rt: &impl Abort, alloc: Global, played: &mut Played) {
    add_all_deliveries(rt, alloc, played);
    let first = played.state.taken();
    let events = played.state.history().len() as u64;
    check_epoch(rt, alloc, &mut played.state, first, events);
}

/// The link goes these steps, the first of which has this place, and an epoch is taken out after each so
/// many frames of all.
fn play(
    rt: &(impl Abort + Wait),
    alloc: Global,
    played: &mut Played,
    first: u64,
    steps: &[Step],
    every: u64,
) {
    let mut events = first;
    for step in steps {
        check_step(rt, alloc, &mut played.state, *step);
        events = events.wrapping_add(1);
        check_events(rt, &played.state, events);
        if every != 0 && events % every == 0 {
            part(rt, alloc, played);
        }
    }
}

/// A new receiver that took all frames, and from which an epoch was taken out after each so many of them, or
/// never if 0.
fn played_in_epochs(rt: &(impl Abort + Wait), alloc: Global, every: u64) -> Played {
    let mut played = begun(rt, alloc);
    play(rt, alloc, &mut played, 0, &beginning(), every);
    play(rt, alloc, &mut played, 14, &end(), every);
    add_all_deliveries(rt, alloc, &mut played);
    played
}

fn check_same_message(rt: &impl Abort, one: &Message, other: &Message) {
    assert!(rt; one.time == other.time);
    assert!(rt; one.octets.as_slice() == other.octets.as_slice());
}

fn check_same_messages(rt: &impl Abort, some: &[Message], others: &[Message], wanted: usize) {
    assert!(rt; some.len() == wanted && others.len() == wanted);
    for (one, other) in some.iter().zip(others) {
        check_same_message(rt, one, other);
    }
}

/// As many events of this kind came on this network at the one link as at the other.
fn check_same_count(rt: &impl Abort, one: &LinkState, other: &LinkState, net: Net, kind: usize) {
    assert!(rt; 1 <= kind && kind <= VERDICT_KINDS);
    check_count(rt, other, net, kind, one.tally().count(net, kind));
}

fn check_same_counts(rt: &impl Abort, one: &LinkState, other: &LinkState) {
    for kind in 1..VERDICT_KINDS + 1 {
        check_same_count(rt, one, other, A, kind);
        check_same_count(rt, one, other, B, kind);
    }
}

/// The newest message of `pos` is the same, its number too.
fn check_same_read(rt: &impl Abort, one: &mut Reader<READERS>, other: &mut Reader<READERS>) {
    let mut octets = [0; 1471];
    let mut others = [0; 1471];
    let read = one.read(MOST_TRIES, &mut octets);
    assert_eq!(rt; other.read(MOST_TRIES, &mut others), read);
    assert!(rt; octets.as_slice() == others.as_slice());
}

/// The queue of `nav` has the same three messages.
fn check_same_taken(rt: &(impl Abort + Wait), one: &mut Taker, other: &mut Taker) {
    for _ in 0..3 {
        let message = one.take(rt).expect(rt, "a message");
        check_same_message(rt, &message, &other.take(rt).expect(rt, "a message"));
    }
    assert!(rt; one.take(rt).is_none() && other.take(rt).is_none());
}

/// The verdicts and places are those of the frames, and the rest is that of a link played whole.
fn check_parted(rt: &(impl Abort + Wait), alloc: Global, every: u64) {
    let mut whole = played_in_epochs(rt, alloc, 0);
    let mut parted = played_in_epochs(rt, alloc, every);
    check_same_messages(rt, &whole.for_pos, &parted.for_pos, 5);
    check_same_messages(rt, &whole.for_nav, &parted.for_nav, 3);
    check_same_counts(rt, &whole.state, &parted.state);
    check_same_read(rt, &mut whole.readers[0], &mut parted.readers[0]);
    check_same_taken(rt, &mut whole.taker, &mut parted.taker);
}

// rule: HIST-3, HIST-4
#[test]
fn a_link_in_epochs_is_the_link_played_whole(rt: HostRuntime) {
    check_parted(&rt, rt.alloc(), 1);
    check_parted(&rt, rt.alloc(), 7);
}
