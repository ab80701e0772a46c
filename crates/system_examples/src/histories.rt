//! A program that gives a frame to each network, takes an epoch out and ends: what the law of an end system says of
//! these three calls.
ghost use Rattle.std.specs.Prelude.{◌≡◌, IfOk};
ghost use Rattle.system_examples.specs.Histories.{IsWhole};

use end_system::{EndSystem, NoGate, Opened, Reply, Settled};
use es_base::{Config, LinkNo, Memory};
use link_receiver::Epoch;
use std::alloc::{AllocError, Global};
use std::sync::Wait;

/// End of the program: the settled system, the replies to the frame of each network, and the epoch, if the link is there.
#[derive(Drop)]
pub struct Ended {
    pub settled: Settled,
    pub to_a: Reply,
    pub to_b: Reply,
    pub epoch: Option<Epoch>,
}

/// Gives network A's pass a frame at 1000 microseconds and network B's at 1001, takes an epoch out of the link with
/// this number by A's pass, and settles the system.
pub fn run<R: Wait>(
    rt: &R,
    alloc: Global,
    config: &Config,
    on_a: &[u8],
    on_b: &[u8],
    vl: LinkNo,
) -> Result<Ended, Memory>
    ensures { IfOk result (λ ended. IsWhole config.now on_a.now on_b.now vl ended.to_a ended.to_b ended.epoch ended.settled) }
{
    let Opened {
        system,
        mut a,
        mut b,
        ends: _,
    } = EndSystem::open(alloc, config, NoGate)?;
    let to_a = system.receive(rt, alloc, &mut a, 1000, on_a)?;
    let to_b = system.receive(rt, alloc, &mut b, 1001, on_b)?;
    let epoch = match system.take_epoch(rt, alloc, &mut a, vl) {
        Ok(epoch) => epoch,
        Err(_) => return Err(AllocError),
    };
    Ok(Ended {
        settled: system.settle(a, b),
        to_a,
        to_b,
        epoch,
    })
}
