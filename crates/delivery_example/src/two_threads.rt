//! Two threads give the frames to a system that keeps none.
ghost use Rattle.std.specs.Prelude.{◌≡◌, IfOk, slice_get};
ghost use Rattle.mailbox_port.specs.Port.{most_readers};
ghost use Rattle.live_system.specs.System.{IsPassOf};
ghost use Rattle.delivery_example.specs.Example.{AreOfTheExample};
ghost use Rattle.delivery_example.specs.Given.{WasGivenOnce};
ghost use Rattle.delivery_example.specs.TwoThreads.{EndedAfter, GaveOne};
ghost use Rattle.delivery_example.specs.Order.{WasTakenBefore, without_index};

use delivery_laws::live::each_message_is_given_once;
use es_base::{Config, Memory};
use live_system::{LiveSystem, NetPass, Opened, ReaderCount, Reply, Settled};
use std::alloc::Global;
use std::sync::Wait;
use std::thread::{Threads, join};

/// A system that has ended, and the replies.
#[derive(Drop)]
pub struct Ended {
    pub settled: Settled,
    pub on_a: Reply,
    pub first_on_b: Reply,
    pub second_on_b: Reply,
}

/// Gives a frame by a network's pass, and returns the pass and the reply.
fn give<R: Wait>(
    rt: &R,
    system: &LiveSystem,
    mut pass: NetPass,
    now: u64,
    frame: &[u8],
) -> (NetPass, Reply)
    requires { IsPassOf system.now pass }
    ensures { GaveOne system.now pass now frame.now result.0 result.1 }
{
    let reply = system.receive(rt, &mut pass, now, frame);
    (pass, reply)
}

/// Opens a system. One thread gives it a frame of network A, while another gives one of network B; then comes a second
/// frame of B, and the system ends. Whatever the frames are, each link ends in one run of these calls; and if they are
/// those of the example, the port was given the message once, whichever thread was first.
pub fn run<R: Threads + Wait + Sync>(
    rt: &R,
    alloc: Global,
    config: &Config,
    on_a: &[u8],
    first_on_b: &[u8],
    second_on_b: &[u8],
) -> Result<Ended, Memory>
    ensures ended { IfOk result (λ r. EndedAfter config.now on_a.now first_on_b.now second_on_b.now r.on_a r.first_on_b r.second_on_b r.settled) }
    ensures given { IfOk result (λ r. AreOfTheExample config.now on_a.now first_on_b.now second_on_b.now → WasTakenBefore (without_index r.on_a) (without_index r.second_on_b) → WasGivenOnce (slice_get r.settled.links.items 0)) }
{
    each_message_is_given_once();
    let Opened {
        system,
        a,
        b,
        ends: _,
    } = LiveSystem::open(alloc, config, ReaderCount::most())?;
    let shared = &system;
    let ((a, to_a), (b, to_b)) = join(
        rt,
        move ||
            requires { IsPassOf shared.now a }
            ensures { GaveOne shared.entry.now a 100 on_a.entry.now result.0 result.1 }
        { give(rt, shared, a, 100, on_a) },
        move ||
            requires { IsPassOf shared.now b }
            ensures { GaveOne shared.entry.now b 900 first_on_b.entry.now result.0 result.1 }
        { give(rt, shared, b, 900, first_on_b) },
    );
    let (b, to_b_again) = give(rt, &system, b, 10_500, second_on_b);
    Ok(Ended {
        settled: system.settle(a, b),
        on_a: to_a,
        first_on_b: to_b,
        second_on_b: to_b_again,
    })
}
