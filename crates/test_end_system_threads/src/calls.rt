//! The calls of a thread, each with what became of it.
ghost use Rattle.std.specs.Prelude.{◌≡◌};
ghost use Rattle.end_system.specs.System.{IsPassOf};

use end_system::{EndSystem, Gate, NetPass, Reply};
use es_base::{LinkNo, Net};
use link_receiver::Epoch;
use std::alloc::Global;
use std::process::Abort;
use std::sync::Wait;
use test_inputs_end_system::Given;

/// A frame that came to a link.
#[derive(Drop)]
pub(crate) struct Call {
    pub vl: LinkNo,
    pub given: Given,
}

/// Calls of a thread, and their results.
#[derive(Drop)]
pub(crate) struct Calls {
    /// Its frames, in order.
    pub calls: Vec<Call>,
    /// The epochs that it took out, in order.
    pub epochs: Vec<Epoch>,
    /// Number of its filtered frames.
    pub filtered: u64,
}

impl Calls {
    pub(crate) fn new(alloc: Global) -> Calls {
        Calls {
            calls: Vec::new(alloc),
            epochs: Vec::new(alloc),
            filtered: 0,
        }
    }

    /// One more frame came at this time, and had this reply.
    fn note(&mut self, rt: &impl Abort, net: Net, time: u64, frame: Vec<u8>, reply: Reply) {
        match reply {
            Reply::Filtered(_) => self.filtered = self.filtered.wrapping_add(1),
            Reply::Link { vl, place, verdict } => {
                let given = Given {
                    net,
                    time,
                    frame,
                    place,
                    verdict,
                };
                self.calls.push(Call { vl, given }).expect(rt, "memory");
            }
        }
    }

    /// The system receives a frame.
    pub(crate) fn receive<R: Abort + Wait, G: Gate>(
        &mut self,
        rt: &R,
        alloc: Global,
        system: &EndSystem<G>,
        pass: &mut NetPass,
        time: u64,
        frame: Vec<u8>,
    )
        requires { IsPassOf system.now pass.old }
        ensures own { IsPassOf system.now pass.new }
        ensures net { pass.new.net ≡ pass.old.net }
    {
        let net = pass.net();
        let reply = system.receive(rt, alloc, pass, time, &frame);
        let reply = reply.expect(rt, "memory");
        self.note(rt, net, time, frame, reply);
    }

    /// An epoch is taken out of the link with this number.
    pub(crate) fn take_epoch<R: Abort + Wait, G: Gate>(
        &mut self,
        rt: &R,
        alloc: Global,
        system: &EndSystem<G>,
        pass: &mut NetPass,
        vl: LinkNo,
    )
        requires { IsPassOf system.now pass.old }
        ensures own { IsPassOf system.now pass.new }
        ensures net { pass.new.net ≡ pass.old.net }
    {
        let epoch = system.take_epoch(rt, alloc, pass, vl);
        let epoch = epoch.expect(rt, "memory").expect(rt, "an epoch");
        self.epochs.push(epoch).expect(rt, "memory");
    }
}
