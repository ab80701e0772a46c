//! The threads of the two networks: each has its network's pass, and shares the system.
ghost use Rattle.std.specs.Prelude.{◌≡◌, IfOk};
ghost use Rattle.end_system.specs.System.{IsPassOf};

use crate::frames::Received;
use end_system::{EndSystem, NetPass, NoGate, Reply};
use es_base::{LinkNo, Memory};
use link_receiver::Epoch;
use std::alloc::{AllocError, Global};
use std::sync::Wait;

/// The link whose epochs the thread of network A takes out.
const LINK: LinkNo = LinkNo(17);

/// After how many of its frames it does so.
const EPOCH: usize = 30;

/// Result of a network's thread.
#[derive(Drop)]
pub(crate) struct Ended {
    pub pass: NetPass,
    /// Number of frames that came to a link.
    pub taken: u64,
    /// The epochs that were taken out, in order.
    pub epochs: Vec<Epoch>,
}

/// Number of frames that came to a link, with this one.
fn count_taken(taken: u64, reply: Reply) -> u64 {
    match reply {
        Reply::Link {
            vl: _,
            place: _,
            verdict: _,
        } => taken.saturating_add(1),
        Reply::Filtered(_) => taken,
    }
}

/// Takes the link's history out, between two frames, and keeps it.
fn keep_epoch<R: Wait>(
    rt: &R,
    alloc: Global,
    system: &EndSystem<NoGate>,
    pass: &mut NetPass,
    epochs: &mut Vec<Epoch>,
) -> Result<(), Memory>
    requires { IsPassOf system.now pass.old }
    ensures own { IsPassOf system.now pass.new }
    ensures net { pass.new.net ≡ pass.old.net }
{
    match system.take_epoch(rt, alloc, pass, LINK) {
        Ok(Some(epoch)) => Ok(epochs.push(epoch)?),
        Ok(None) => Ok(()),
        Err(_) => Err(AllocError),
    }
}

/// Network A: the frames stay in the card's buffers, and are copied.
pub(crate) fn run_a<R: Wait>(
    rt: &R,
    alloc: Global,
    system: &EndSystem<NoGate>,
    mut pass: NetPass,
    frames: &[Received],
) -> Result<Ended, Memory>
    requires { IsPassOf system.now pass }
    ensures own { IfOk result (λ ended. IsPassOf system.now ended.pass) }
    ensures net { IfOk result (λ ended. ended.pass.net ≡ pass.net) }
{
    let mut taken = 0u64;
    let mut epochs = Vec::new(alloc);
    for (place, frame) in frames.iter().enumerate() {
        let octets = frame.octets.as_slice();
        let reply = system.receive(rt, alloc, &mut pass, frame.time, octets)?;
        taken = count_taken(taken, reply);
        if place % EPOCH == EPOCH - 1 {
            keep_epoch(rt, alloc, system, &mut pass, &mut epochs)?;
        }
    }
    Ok(Ended {
        pass,
        taken,
        epochs,
    })
}

/// Network B: the card hands its octets over, and they are kept themselves.
pub(crate) fn run_b<R: Wait>(
    rt: &R,
    alloc: Global,
    system: &EndSystem<NoGate>,
    mut pass: NetPass,
    frames: Vec<Received>,
) -> Result<Ended, Memory>
    requires { IsPassOf system.now pass }
    ensures own { IfOk result (λ ended. IsPassOf system.now ended.pass) }
    ensures net { IfOk result (λ ended. ended.pass.net ≡ pass.net) }
{
    let mut taken = 0u64;
    for frame in frames {
        let Received { time, octets } = frame;
        match system.receive_arrival(rt, alloc, &mut pass, time, octets) {
            Ok(reply) => taken = count_taken(taken, reply),
            Err(_octets) => return Err(AllocError),
        }
    }
    Ok(Ended {
        pass,
        taken,
        epochs: Vec::new(alloc),
    })
}
