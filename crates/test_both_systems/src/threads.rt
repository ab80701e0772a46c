//! Both networks give frames, each on a thread of its own, one by one or in bursts, to a system with its links in so
//! many groups. One thread then gives them to the system that keeps its histories: those of each link in the order of their
//! places.
ghost use Rattle.std.specs.Prelude.{◌≡◌};
ghost use Rattle.es_base.specs.declared.place.Net.TheVariants.{A, B};
ghost use Rattle.live_system.specs.System.{IsPassOf};

use crate::ends::{KeptEnds, LiveEnds, check_counts, check_newest, check_next};
use crate::kept;
use crate::live::{GROUPS, NOTHING, lent, without_index};
use crate::made::{Burst, LINKS, Source, made_config};
use end_system::NoGate;
use es_base::Net;
use live_system::{LiveSystem, NetPass, Opened, Reply};
use std::alloc::Global;
use std::process::Abort;
use std::sync::Wait;
use std::sync::atomic::{AtomicUsize, Ordering};
use std::thread;
use std::thread::{Threads, join};
use test_inputs_end_system::Running;
use test_inputs_live_system::Live;

/// Number of bursts that each network gives.
const BURSTS: u64 = 20;

/// Most frames of a burst.
const MOST: usize = 200;

/// How many messages the queue of `nav` holds.
const DEPTH: u64 = 4;

/// How many turns a thread waits for the other at most.
const MOST_TURNS: u64 = 10_000;

/// What a thread gives, and how.
#[derive(Drop)]
struct Task {
    burst: Burst,
    at_once: bool,
}

/// A frame that was given, and its reply.
#[derive(Drop)]
struct Call<'a> {
    net: Net,
    time: u64,
    octets: &'a [u8],
    reply: Reply,
}

/// Waits for the other thread, so that both give their frames at the same time, mostly.
fn meet(here: &AtomicUsize) {
    here.fetch_add(1, Ordering::SeqCst);
    for _ in 0..MOST_TURNS {
        if here.load(Ordering::SeqCst) > 1 {
            return;
        }
        thread::yield_now();
    }
}

/// Gives frames one by one.
fn give_each<R: Wait>(
    rt: &R,
    system: &LiveSystem,
    pass: &mut NetPass,
    frames: &[(u64, &[u8])],
    replies: &mut [Reply],
)
    requires { IsPassOf system.now pass.old }
    ensures { IsPassOf system.now pass.new × (pass.new.net ≡ pass.old.net) }
{
    'frames: for ((time, octets), reply) in frames.iter().zip(replies) {
        *reply = system.receive(rt, pass, *time, octets);
    }
}

/// Gives the frames of a task once the other thread is here too. Returns their replies.
fn give<R: Abort + Wait>(
    rt: &R,
    alloc: Global,
    system: &LiveSystem,
    mut pass: NetPass,
    task: &Task,
    here: &AtomicUsize,
) -> (NetPass, Vec<Reply>)
    requires { IsPassOf system.now pass }
    ensures { IsPassOf system.now result.0 × (result.0.net ≡ pass.net) }
{
    let frames = lent(rt, alloc, &task.burst);
    let mut replies = vec![in alloc; NOTHING; frames.len()].expect(rt, "memory");
    meet(here);
    if task.at_once {
        system.receive_all(rt, &mut pass, &frames, &mut replies);
    } else {
        give_each(rt, system, &mut pass, &frames, &mut replies);
    }
    (pass, replies)
}

/// Both networks give their frames, each on a thread of its own. Returns the replies.
fn given<R: Abort + Threads + Wait + Sync>(
    rt: &R,
    alloc: Global,
    live: Live,
    on_a: &Task,
    on_b: &Task,
) -> (Live, Vec<Reply>, Vec<Reply>) {
    let Opened { system, a, b, ends } = live.apart();
    let shared = &system;
    let here = &AtomicUsize::new(0);
    let ((a, to_a), (b, to_b)) = join(
        rt,
        move ||
            requires { IsPassOf shared.now a × (a.net ≡ A) }
            ensures { IsPassOf shared.entry.now result.0 × (result.0.net ≡ A) }
        { give(rt, alloc, shared, a, on_a, here) },
        move ||
            requires { IsPassOf shared.now b × (b.net ≡ B) }
            ensures { IsPassOf shared.entry.now result.0 × (result.0.net ≡ B) }
        { give(rt, alloc, shared, b, on_b, here) },
    );
    (Live::of(Opened { system, a, b, ends }), to_a, to_b)
}

/// Notes the calls of a network. Those of one link have places in their order.
fn note<'a>(rt: &impl Abort, calls: &mut Vec<Call<'a>>, burst: &'a Burst, replies: &[Reply]) {
    assert!(rt; replies.len() == burst.frames.len());
    let mut least = [0u64; LINKS];
    for ((time, octets), reply) in burst.frames.iter().zip(replies) {
        if let Reply::Link { at, place, .. } = *reply {
            let least = least.get_mut(at).expect(rt, "a link");
            assert!(rt; place >= *least, "{place} after {least}");
            *least = place.wrapping_add(1);
        }
        let call = Call {
            net: burst.net,
            time: *time,
            octets: octets.as_slice(),
            reply: *reply,
        };
        calls.push(call).expect(rt, "memory");
    }
}

/// The link and the place of a frame with this reply: one that came to no link is after all others.
fn turn_of(reply: Reply) -> (usize, u64) {
    match reply {
        Reply::Filtered(_) => (LINKS, 0),
        Reply::Link { at, place, .. } => (at, place),
    }
}

/// The system with histories gives the same replies on one thread.
fn check_calls(
    rt: &(impl Abort + Wait),
    alloc: Global,
    kept: &mut Running<NoGate>,
    mut calls: Vec<Call<'_>>,
) {
    calls
        .sort_by_key(|call| turn_of(call.reply))
        .expect(rt, "memory");
    for call in &calls {
        let wanted = kept::receive(rt, alloc, kept, call.net, call.time, call.octets);
        let reply = without_index(rt, call.reply);
        assert!(rt; reply == wanted, "{}: {reply:?}, not {wanted:?}", call.time);
    }
}

/// The next task of each network: its frames at once or one by one, by chance.
fn tasks(rt: &impl Abort, alloc: Global, source: &mut Source) -> (Task, Task) {
    let (a, b) = source.bursts(alloc, MOST).expect(rt, "octets");
    let on_a = Task {
        burst: a,
        at_once: source.draw(2) == 0,
    };
    let on_b = Task {
        burst: b,
        at_once: source.draw(2) == 0,
    };
    (on_a, on_b)
}

/// Two threads give frames to a system with so many groups; the other one replies, delivers and counts the same.
fn check_groups<R: Abort + Threads + Wait + Sync>(rt: &R, alloc: Global, groups: usize) {
    let config = made_config(alloc).expect(rt, "a configuration");
    let mut kept = Running::open(alloc, &config, NoGate).expect(rt, "memory");
    let mut live = Live::open_in_groups(alloc, &config, groups).expect(rt, "memory");
    let mut kept_ends = KeptEnds::of(rt, alloc, &mut kept);
    let mut live_ends = [LiveEnds::of(rt, alloc, &mut live)];
    let mut source = Source::new(1000);
    for _ in 0..BURSTS {
        let (on_a, on_b) = tasks(rt, alloc, &mut source);
        let (next, to_a, to_b) = given(rt, alloc, live, &on_a, &on_b);
        live = next;
        let mut calls = Vec::new(alloc);
        note(rt, &mut calls, &on_a.burst, &to_a);
        note(rt, &mut calls, &on_b.burst, &to_b);
        check_calls(rt, alloc, &mut kept, calls);
        check_newest(rt, &mut kept_ends, &mut live_ends);
        for _ in 0..=DEPTH {
            check_next(rt, &mut kept_ends, &mut live_ends);
        }
    }
    let (kept, live) = (kept.settle(), live.settle());
    check_counts(rt, &kept.a, &live.a);
    check_counts(rt, &kept.b, &live.b);
}

fn check_threads<R: Abort + Threads + Wait + Sync>(rt: &R, alloc: Global) {
    for groups in GROUPS {
        check_groups(rt, alloc, groups);
    }
}

// rule: CONC-6, CONC-9, CONC-10, EMB-32
#[test]
fn two_threads_give_replies_and_messages_that_one_thread_gives(rt: HostRuntime) {
    check_threads(&rt, rt.alloc());
}
