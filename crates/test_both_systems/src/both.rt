//! Systems are given the same frames: one keeps its histories, and the others keep no frame, take them one by one or in
//! bursts, and have their links in one group, in two, or each in a group of its own.
use crate::ends::{KeptEnds, LiveEnds, check_counts, check_newest, check_next};
use crate::kept;
use crate::live::{GROUPS, NOTHING, lent, without_index};
use crate::made::{Burst, Source, made_config};
use end_system::{NoGate, Reply, Settled};
use es_base::Config;
use std::alloc::Global;
use std::process::Abort;
use std::sync::Wait;
use test_inputs_end_system::Running;
use test_inputs_live_system::Live;

/// Number of bursts of a schedule.
const BURSTS: u64 = 140;

/// Most frames of a burst.
const MOST: usize = 48;

/// Systems of one configuration.
#[derive(Drop)]
struct Systems {
    kept: Running<NoGate>,
    /// Those that take frames one by one, and those that take them in bursts: one for each number of groups.
    each: Vec<Live>,
    at_once: Vec<Live>,
}

/// Systems that keep no frame, one for each number of groups.
fn in_groups(rt: &impl Abort, alloc: Global, config: &Config) -> Vec<Live> {
    let mut lives = Vec::new(alloc);
    for groups in GROUPS {
        let live = Live::open_in_groups(alloc, config, groups).expect(rt, "memory");
        lives.push(live).expect(rt, "memory");
    }
    lives
}

/// Adds the ends of these systems.
fn add_ends(rt: &impl Abort, alloc: Global, ends: &mut Vec<LiveEnds>, lives: &mut [Live]) {
    for live in lives {
        let live = LiveEnds::of(rt, alloc, live);
        ends.push(live).expect(rt, "memory");
    }
}

impl Systems {
    fn open(rt: &impl Abort, alloc: Global) -> Systems {
        let config = made_config(alloc).expect(rt, "a configuration");
        Systems {
            kept: Running::open(alloc, &config, NoGate).expect(rt, "memory"),
            each: in_groups(rt, alloc, &config),
            at_once: in_groups(rt, alloc, &config),
        }
    }

    /// The ends of all systems that keep no frame.
    fn ends(&mut self, rt: &impl Abort, alloc: Global) -> Vec<LiveEnds> {
        let mut ends = Vec::new(alloc);
        add_ends(rt, alloc, &mut ends, &mut self.each);
        add_ends(rt, alloc, &mut ends, &mut self.at_once);
        ends
    }
}

/// The replies of the system with histories.
fn wanted_of(
    rt: &(impl Abort + Wait),
    alloc: Global,
    kept: &mut Running<NoGate>,
    burst: &Burst,
) -> Vec<Reply> {
    let mut wanted = Vec::new(alloc);
    for (time, octets) in &burst.frames {
        let reply = kept::receive(rt, alloc, kept, burst.net, *time, octets);
        wanted.push(reply).expect(rt, "memory");
    }
    wanted
}

/// A system that takes the frames one by one gives these replies.
fn check_each(rt: &(impl Abort + Wait), live: &mut Live, burst: &Burst, wanted: &[Reply]) {
    for ((time, octets), wanted) in burst.frames.iter().zip(wanted) {
        let reply = without_index(rt, live.receive(rt, burst.net, *time, octets));
        assert!(rt; reply == *wanted, "{time}: {reply:?}, not {wanted:?}");
    }
}

/// A system that takes the frames at once gives these replies: in parts for which there is so much room.
fn check_at_once(
    rt: &(impl Abort + Wait),
    alloc: Global,
    live: &mut Live,
    burst: &Burst,
    room: usize,
    wanted: &[Reply],
) {
    let frames = lent(rt, alloc, burst);
    let mut replies = [NOTHING; 64];
    let room = room.clamp(1, 64);
    let mut rest = frames.as_slice();
    for wanted in wanted.chunks(room) {
        let part = replies.as_mut_slice().get_mut(..room).expect(rt, "room");
        let many = live.receive_all(rt, burst.net, rest, part);
        assert!(rt; many == wanted.len(), "{many}");
        rest = rest.get(many..).expect(rt, "frames");
        for (reply, wanted) in replies.iter().zip(wanted) {
            let reply = without_index(rt, *reply);
            assert!(rt; reply == *wanted, "{reply:?}, not {wanted:?}");
        }
    }
}

/// All systems reply the same to each frame of a burst.
fn check_burst(
    rt: &(impl Abort + Wait),
    alloc: Global,
    systems: &mut Systems,
    burst: &Burst,
    room: usize,
) {
    let wanted = wanted_of(rt, alloc, &mut systems.kept, burst);
    for live in &mut systems.each {
        check_each(rt, live, burst, &wanted);
    }
    for live in &mut systems.at_once {
        check_at_once(rt, alloc, live, burst, room, &wanted);
    }
}

/// These systems counted the same as the one with histories.
fn check_settled(rt: &impl Abort, kept: &Settled, lives: Vec<Live>) {
    for live in lives {
        let live = live.settle();
        check_counts(rt, &kept.a, &live.a);
        check_counts(rt, &kept.b, &live.b);
    }
}

/// All systems are given a schedule, to its end.
fn check_schedule(rt: &(impl Abort + Wait), alloc: Global) {
    let mut systems = Systems::open(rt, alloc);
    let mut kept = KeptEnds::of(rt, alloc, &mut systems.kept);
    let mut lives = systems.ends(rt, alloc);
    let mut source = Source::new(1000);
    for _ in 0..BURSTS {
        let net = source.net();
        let burst = source.burst(alloc, net, MOST).expect(rt, "octets");
        let room = source.draw(64).wrapping_add(1);
        check_burst(rt, alloc, &mut systems, &burst, room);
        check_newest(rt, &mut kept, &mut lives);
        check_next(rt, &mut kept, &mut lives);
    }
    let Systems {
        kept,
        each,
        at_once,
    } = systems;
    let kept = kept.settle();
    check_settled(rt, &kept, each);
    check_settled(rt, &kept, at_once);
}

// rule: CONC-9, EMB-32
#[test]
fn both_systems_reply_count_and_deliver_the_same(rt: HostRuntime) {
    check_schedule(&rt, rt.alloc());
}
