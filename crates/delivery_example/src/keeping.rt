//! A task gives the frames of both networks to a system that keeps its links' histories, and takes an epoch out.
ghost use Rattle.std.specs.Prelude.{◌≡◌, IfOk, slice_get};
ghost use Rattle.delivery_example.specs.Example.{AreOfTheExample};
ghost use Rattle.delivery_example.specs.Keeping.{EndedKeeping, HoldsMessage};
ghost use Rattle.delivery_example.specs.Order.{WasTakenBefore};

use delivery_laws::histories::{each_message_is_given_once, each_port_holds_its_messages};
use end_system::{EndSystem, NoGate, Opened, Settled};
use es_base::{Config, LinkNo, Memory};
use network_calls::Reply;
use std::alloc::{AllocError, Global};
use std::sync::Wait;

/// A system that has ended, and the replies.
#[derive(Drop)]
pub struct Kept {
    pub settled: Settled,
    pub on_a: Reply,
    pub first_on_b: Reply,
    pub second_on_b: Reply,
}

/// Opens a system, gives it a frame of network A and one of network B, takes an epoch out of link 17, gives it a second
/// frame of B, and ends it. Whatever the frames are, each link ends in one run of these calls; and if they are those of
/// the example, the port holds the message once.
pub fn run<R: Wait>(
    rt: &R,
    alloc: Global,
    config: &Config,
    on_a: &[u8],
    first_on_b: &[u8],
    second_on_b: &[u8],
) -> Result<Kept, Memory>
    ensures ended { IfOk result (λ r. EndedKeeping config.now on_a.now first_on_b.now second_on_b.now r.on_a r.first_on_b r.second_on_b r.settled) }
    ensures given { IfOk result (λ r. AreOfTheExample config.now on_a.now first_on_b.now second_on_b.now → WasTakenBefore r.on_a r.second_on_b → HoldsMessage (slice_get r.settled.links.items 0)) }
{
    each_message_is_given_once();
    each_port_holds_its_messages();
    let Opened {
        system,
        mut a,
        mut b,
        ends: _,
    } = EndSystem::open(alloc, config, NoGate)?;
    let to_a = system.receive(rt, alloc, &mut a, 100, on_a)?;
    let to_b = system.receive(rt, alloc, &mut b, 900, first_on_b)?;
    let _ = match system.take_epoch(rt, alloc, &mut a, LinkNo(17)) {
        Ok(epoch) => epoch,
        Err(_) => return Err(AllocError),
    };
    let to_b_again = system.receive(rt, alloc, &mut b, 10_500, second_on_b)?;
    Ok(Kept {
        settled: system.settle(a, b),
        on_a: to_a,
        first_on_b: to_b,
        second_on_b: to_b_again,
    })
}
