//! A program in which one thread gives a frame to its network and another a burst of frames to the other one, and which
//! then ends: what the law of a system that keeps no frame says of it, in whatever order the threads had their turn.
ghost use Rattle.std.specs.Prelude.{◌≡◌, ◌≤◌, IfOk, length, take};
ghost use Rattle.es_base.specs.declared.place.Net.TheVariants.{A, B};
ghost use Rattle.live_system.specs.System.{IsPassOf};
ghost use Rattle.system_examples.specs.Live.{Gave, GaveAll, IsWholeLive, room};

use es_base::{Config, FilterCause, Memory};
use live_system::{LiveSystem, NetPass, Opened, ReaderCount, Reply, Settled};
use std::alloc::Global;
use std::sync::Wait;
use std::thread::{Threads, join};

/// Most frames of a burst.
pub const ROOM: usize = 32;

/// Reply of an entry that wasn't written.
const NOTHING: Reply = Reply::Filtered(FilterCause::TooShort);

/// Gives a frame by a network's pass, and returns the pass and the reply.
fn give<R: Wait>(
    rt: &R,
    system: &LiveSystem,
    mut pass: NetPass,
    now: u64,
    frame: &[u8],
) -> (NetPass, Reply)
    requires { IsPassOf system.now pass }
    ensures { Gave system.now pass now frame.now result.0 result.1 }
{
    let reply = system.receive(rt, &mut pass, now, frame);
    (pass, reply)
}

/// Gives a burst by a network's pass, and returns the pass and the replies.
fn give_all<R: Wait>(
    rt: &R,
    system: &LiveSystem,
    mut pass: NetPass,
    frames: &[(u64, &[u8])],
) -> (NetPass, [Reply; ROOM])
    requires own { IsPassOf system.now pass }
    requires few { length frames.now ≤ room }
    ensures { GaveAll system.now pass frames.now result.0 (take (length frames.now) result.1) }
{
    let mut replies = [NOTHING; ROOM];
    system.receive_all(rt, &mut pass, frames, &mut replies);
    (pass, replies)
}

/// End of the program: the settled system, and the replies to the frames of each network. Entries of `to_b` past the
/// burst mean nothing.
#[derive(Drop)]
pub struct Ended {
    pub settled: Settled,
    pub to_a: Reply,
    pub to_b: [Reply; ROOM],
}

/// Gives network A's pass a frame at 1000 microseconds and network B's a burst, each on a thread of its own, and
/// settles the system.
pub fn run<R: Threads + Wait + Sync>(
    rt: &R,
    alloc: Global,
    config: &Config,
    on_a: &[u8],
    on_b: &[(u64, &[u8])],
) -> Result<Ended, Memory>
    requires { length on_b.now ≤ room }
    ensures { IfOk result (λ ended. IsWholeLive config.now on_a.now on_b.now ended.to_a (take (length on_b.now) ended.to_b) ended.settled) }
{
    let Opened {
        system,
        a,
        b,
        ends: _,
    } = LiveSystem::open(alloc, config, ReaderCount::most())?;
    let shared = &system;
    let (from_a, from_b) = join(
        rt,
        move ||
            requires { IsPassOf shared.now a }
            ensures { Gave shared.entry.now a 1000 on_a.entry.now result.0 result.1 }
        { give(rt, shared, a, 1000, on_a) },
        move ||
            requires own { IsPassOf shared.now b }
            requires few { length on_b.now ≤ room }
            ensures { GaveAll shared.entry.now b on_b.entry.now result.0 (take (length on_b.entry.now) result.1) }
        { give_all(rt, shared, b, on_b) },
    );
    let (a, to_a) = from_a;
    let (b, to_b) = from_b;
    let settled = system.settle(a, b);
    Ok(Ended {
        settled,
        to_a,
        to_b,
    })
}
