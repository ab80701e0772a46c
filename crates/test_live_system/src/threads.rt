//! Both networks give the same frames, each on a thread of its own: it ends as on one thread.
ghost use Rattle.std.specs.Prelude.{◌≡◌};
ghost use Rattle.es_base.specs.declared.place.Net.TheVariants.{A, B};
ghost use Rattle.live_system.specs.System.{IsPassOf};

use crate::bursts::{NOTHING, lent};
use crate::fills::fill;
use crate::running::{LINK_17, open};
use es_base::Net;
use live_system::{Fill, LinkEnds, LiveSystem, NetPass, Opened, PartitionEnd, Reply, Settled};
use receiver::{MailboxReader, Reading};
use std::alloc::Global;
use std::process::Abort;
use std::sync::Wait;
use std::thread;
use std::thread::{Threads, join};
use test_inputs::rows::NAV;
use test_inputs::smallest;

/// Number of frames that each network gives. So few that no sequence number is ahead of a later one, however far one
/// thread is before the other: then the first copy of each is forwarded.
const MANY: u8 = 100;

/// The place of the event of a frame that came to link 17.
fn place_of(rt: &impl Abort, reply: Reply) -> u64 {
    match reply {
        Reply::Link { vl, place, .. } => {
            assert!(rt; vl == LINK_17);
            place
        }
        Reply::Filtered(_) => panic!(rt; "a frame of link 17"),
    }
}

/// How a thread gives its frames: one by one, and waits for the link of each, or tries until it is free, and asks by tries
/// how full a queue is; or in bursts.
#[derive(Clone, Copy, PartialEq, Eq)]
enum How {
    Each,
    ByTries,
    AtOnce,
}

/// Tries to give a frame until nobody has its link.
fn give_by_tries<R: Wait>(
    rt: &R,
    system: &LiveSystem,
    pass: &mut NetPass,
    now: u64,
    octets: &[u8],
) -> Reply
    requires { IsPassOf system.now pass.old }
    ensures { IsPassOf system.now pass.new × (pass.new.net ≡ pass.old.net) }
{
    for _ in rt.forever() {
        if let Some(reply) = system.try_receive(pass, now, octets) {
            return reply;
        }
        thread::yield_now();
    }
    unreachable!()
}

/// Asks how full the queue of `nav` is until nobody has its link: no message came for it.
fn ask_by_tries<R: Abort + Wait>(rt: &R, system: &LiveSystem, pass: &mut NetPass)
    requires { IsPassOf system.now pass.old }
    ensures { IsPassOf system.now pass.new × (pass.new.net ≡ pass.old.net) }
{
    let empty = Fill {
        waiting: 0,
        greatest: 0,
    };
    for _ in rt.forever() {
        if let Some(told) = fill(rt, system, pass, 0, NAV) {
            assert!(rt; told == Some(empty));
            return;
        }
        thread::yield_now();
    }
    unreachable!()
}

/// Gives a frame, by tries or not.
fn give_one<R: Abort + Wait>(
    rt: &R,
    system: &LiveSystem,
    pass: &mut NetPass,
    now: u64,
    octets: &[u8],
    how: How,
) -> Reply
    requires { IsPassOf system.now pass.old }
    ensures { IsPassOf system.now pass.new × (pass.new.net ≡ pass.old.net) }
{
    if how == How::ByTries {
        ask_by_tries(rt, system, pass);
        give_by_tries(rt, system, pass, now, octets)
    } else {
        system.receive(rt, pass, now, octets)
    }
}

/// Gives the smallest frames with the sequence numbers from 1 on, one each 10 microseconds, one by one. Returns their
/// places.
fn give_each<R: Abort + Wait>(
    rt: &R,
    alloc: Global,
    system: &LiveSystem,
    mut pass: NetPass,
    how: How,
) -> (NetPass, Vec<u64>)
    requires { IsPassOf system.now pass }
    ensures { IsPassOf system.now result.0 × (result.0.net ≡ pass.net) }
{
    let mut places = Vec::new(alloc);
    for number in 1..=MANY {
        let frame = smallest(alloc, number).expect(rt, "octets");
        let reply = give_one(rt, system, &mut pass, u64::from(number) * 10, &frame, how);
        places.push(place_of(rt, reply)).expect(rt, "memory");
    }
    (pass, places)
}

/// The smallest frames with the sequence numbers from 1 on, one each 10 microseconds.
fn frames_of(rt: &impl Abort, alloc: Global) -> Vec<(u64, Vec<u8>)> {
    let mut frames = Vec::new(alloc);
    for number in 1..=MANY {
        let octets = smallest(alloc, number).expect(rt, "octets");
        let frame = (u64::from(number) * 10, octets);
        frames.push(frame).expect(rt, "memory");
    }
    frames
}

/// Notes the places of the first replies of a burst.
fn note(rt: &impl Abort, places: &mut Vec<u64>, replies: &[Reply], many: usize) {
    for reply in replies.iter().take(many) {
        places.push(place_of(rt, *reply)).expect(rt, "memory");
    }
}

/// Gives the same frames in bursts of seven, and then some of no frame. Returns their places.
fn give_bursts<R: Abort + Wait>(
    rt: &R,
    alloc: Global,
    system: &LiveSystem,
    mut pass: NetPass,
) -> (NetPass, Vec<u64>)
    requires { IsPassOf system.now pass }
    ensures { IsPassOf system.now result.0 × (result.0.net ≡ pass.net) }
{
    let frames = frames_of(rt, alloc);
    let lent = lent(rt, alloc, &frames);
    let mut places = Vec::new(alloc);
    let mut replies = [NOTHING; 7];
    'bursts: for _ in 0..MANY {
        let rest = lent.as_slice().get(places.len()..).expect(rt, "frames");
        let many = system.receive_all(rt, &mut pass, rest, &mut replies);
        note(rt, &mut places, &replies, many);
    }
    (pass, places)
}

/// Gives the frames in one of these ways.
fn give<R: Abort + Wait>(
    rt: &R,
    alloc: Global,
    system: &LiveSystem,
    pass: NetPass,
    how: How,
) -> (NetPass, Vec<u64>)
    requires { IsPassOf system.now pass }
    ensures { IsPassOf system.now result.0 × (result.0.net ≡ pass.net) }
{
    if how == How::AtOnce {
        give_bursts(rt, alloc, system, pass)
    } else {
        give_each(rt, alloc, system, pass, how)
    }
}

/// Result of a run.
#[derive(Drop)]
struct Ended {
    settled: Settled,
    reader: MailboxReader,
    a: Vec<u64>,
    b: Vec<u64>,
}

/// A reader of the link's sampling port, the first of its ports.
fn reader_of(rt: &impl Abort, ends: &mut [LinkEnds<PartitionEnd>]) -> MailboxReader {
    let link = ends.first_mut().expect(rt, "a link");
    let port = link.ports.first_mut().expect(rt, "a port");
    port.reads.take_reader().expect(rt, "a reader")
}

/// Both networks give their frames, each on a thread of its own.
fn on_two_threads<R: Abort + Threads + Wait + Sync>(rt: &R, alloc: Global, how: How) -> Ended {
    let Opened {
        system,
        a,
        b,
        mut ends,
    } = open(rt, alloc).apart();
    let reader = reader_of(rt, &mut ends);
    let shared = &system;
    let ((a, first), (b, second)) = join(
        rt,
        move ||
            requires { IsPassOf shared.now a × (a.net ≡ A) }
            ensures { IsPassOf shared.entry.now result.0 × (result.0.net ≡ A) }
        { give(rt, alloc, shared, a, how) },
        move ||
            requires { IsPassOf shared.now b × (b.net ≡ B) }
            ensures { IsPassOf shared.entry.now result.0 × (result.0.net ≡ B) }
        { give(rt, alloc, shared, b, how) },
    );
    let settled = system.settle(a, b);
    Ended {
        settled,
        reader,
        a: first,
        b: second,
    }
}

/// Both networks give their frames on one thread, that of A first, and that of B in bursts.
fn on_one_thread<R: Abort + Wait>(rt: &R, alloc: Global) -> Ended {
    let Opened {
        system,
        a,
        b,
        mut ends,
    } = open(rt, alloc).apart();
    let reader = reader_of(rt, &mut ends);
    let (a, first) = give(rt, alloc, &system, a, How::Each);
    let (b, second) = give(rt, alloc, &system, b, How::AtOnce);
    let settled = system.settle(a, b);
    Ended {
        settled,
        reader,
        a: first,
        b: second,
    }
}

/// The places are those from 0 on, each once; those of one network are in order.
fn check_places(rt: &impl Abort, a: &[u64], b: &[u64]) {
    let mut found = [false; 2 * MANY as usize];
    for places in [a, b] {
        let mut least = 0u64;
        for place in places {
            assert!(rt; *place >= least, "{place} after {least}");
            least = place.wrapping_add(1);
            let seen = found.get_mut(*place as usize).expect(rt, "a place");
            assert!(rt; !*seen, "{place} twice");
            *seen = true;
        }
    }
    assert!(rt; a.len() == usize::from(MANY) && b.len() == usize::from(MANY));
}

/// Each frame was sampled once and was redundant once; and the newest message is the last one.
fn check_ended(rt: &impl Abort, mut ended: Ended) {
    check_places(rt, &ended.a, &ended.b);
    let (a, b) = (&ended.settled.a, &ended.settled.b);
    let sampled = a.count(LINK_17, 10).wrapping_add(b.count(LINK_17, 10));
    let redundant = a.count(LINK_17, 2).wrapping_add(b.count(LINK_17, 2));
    assert!(rt;
        sampled == u64::from(MANY) && redundant == u64::from(MANY),
        "{sampled} {redundant}"
    );
    for link in &ended.settled.links {
        assert!(rt; link.received() == 2 * u64::from(MANY));
    }
    match ended.reader.read(1000, &mut [0; 64]) {
        Reading::Message {
            number,
            time,
            len,
            ..
        } => {
            assert!(rt;
                number == u64::from(MANY) && time == 1000 && len == 17,
                "{number} {time} {len}"
            );
        }
        Reading::Empty => panic!(rt; "a message"),
    }
}

// rule: EMB-30
#[test]
fn one_thread_samples_each_frame_once(rt: HostRuntime) {
    check_ended(&rt, on_one_thread(&rt, rt.alloc()));
}

// rule: CONC-2, CONC-9, CONC-10
#[test]
fn two_threads_end_as_one_does(rt: HostRuntime) {
    check_ended(&rt, on_two_threads(&rt, rt.alloc(), How::Each));
}

// rule: CONC-6, EMB-32
#[test]
fn two_threads_with_bursts_end_as_one_does(rt: HostRuntime) {
    check_ended(&rt, on_two_threads(&rt, rt.alloc(), How::AtOnce));
}

// rule: CONC-7, EMB-31, EMB-43
#[test]
fn two_threads_that_try_end_as_one_does(rt: HostRuntime) {
    check_ended(&rt, on_two_threads(&rt, rt.alloc(), How::ByTries));
}
