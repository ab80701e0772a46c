//! A system with both of its passes, which one thread has.
ghost use Rattle.std.specs.Prelude.{◌≡◌};
ghost use Rattle.es_base.specs.declared.place.Net.TheVariants.{A, B};
ghost use Rattle.end_system.specs.System.{IsPassOf};

use end_system::{EndSystem, Gate, NetPass, Opened, Reply, Settled};
use es_base::{Config, LinkNo, Memory, Net, Octets};
use link_receiver::{Epoch, EpochFault, PortEnd};
use std::alloc::Global;
use std::marker::Model;
use std::sync::Wait;

/// A system with both of its passes, and the ends that were not moved out. To a contract it is the passes.
#[derive(Drop)]
pub struct Running<G: Gate> {
    opened: Opened<G>,
}

impl<G: Gate> Model for Running<G> {
    ghost use Rattle.std.specs.Prelude.{◌≡◌};
    ghost use Rattle.es_base.specs.declared.place.Net.TheVariants.{A, B};
    ghost use Rattle.network_calls.specs.Passes.{KnownNet};
    ghost use Rattle.end_system.specs.Pass.{KnownLink};
    ghost use Rattle.end_system.specs.System.{IsPassOf};

    ghost Value = { KnownNet KnownLink × KnownNet KnownLink };

    ghost view = { λ r. (r.opened.a, r.opened.b) };

    ghost invariant = { λ r. IsPassOf r.opened.system r.opened.a × IsPassOf r.opened.system r.opened.b × (r.opened.a.net ≡ A) × (r.opened.b.net ≡ B) };
}

impl<G: Gate + Drop> Running<G> {
    /// A new system with these links.
    pub fn open(alloc: Global, config: &Config, gate: G) -> Result<Running<G>, Memory> {
        let opened = EndSystem::open(alloc, config, gate)?;
        Ok(Running { opened })
    }

    /// Moves out the end of the port with this name.
    pub fn take_end(&mut self, name: &str) -> Option<PortEnd> {
        self.opened.take_end(name)
    }

    /// Lends the end of the port with this name.
    pub fn end_of(&mut self, name: &str) -> Option<&mut PortEnd> {
        self.opened.end_of(name)
    }

    /// The pass of this network.
    pub fn pass(&self, net: Net) -> &NetPass {
        match net {
            Net::A => &self.opened.a,
            Net::B => &self.opened.b,
        }
    }

    /// The system receives a frame on this network.
    pub fn receive<R: Wait>(
        &mut self,
        rt: &R,
        alloc: Global,
        net: Net,
        now: u64,
        octets: &[u8],
    ) -> Result<Reply, Memory> {
        let Opened { system, a, b, .. } = &mut self.opened;
        match net {
            Net::A => system.receive(rt, alloc, a, now, octets),
            Net::B => system.receive(rt, alloc, b, now, octets),
        }
    }

    /// The system receives a frame on this network, and keeps its octets.
    pub fn receive_arrival<R: Wait>(
        &mut self,
        rt: &R,
        alloc: Global,
        net: Net,
        now: u64,
        octets: Octets,
    ) -> Result<Reply, Octets> {
        let Opened { system, a, b, .. } = &mut self.opened;
        match net {
            Net::A => system.receive_arrival(rt, alloc, a, now, octets),
            Net::B => system.receive_arrival(rt, alloc, b, now, octets),
        }
    }

    /// The pass of this network takes an epoch out of the link with this number.
    pub fn take_epoch<R: Wait>(
        &mut self,
        rt: &R,
        alloc: Global,
        net: Net,
        vl: LinkNo,
    ) -> Result<Option<Epoch>, EpochFault> {
        let Opened { system, a, b, .. } = &mut self.opened;
        match net {
            Net::A => system.take_epoch(rt, alloc, a, vl),
            Net::B => system.take_epoch(rt, alloc, b, vl),
        }
    }

    /// The system, its passes and the ends, apart.
    pub fn apart(self) -> Opened<G>
        ensures own { IsPassOf result.system result.a × IsPassOf result.system result.b }
        ensures nets { (result.a.net ≡ A) × (result.b.net ≡ B) }
    {
        let Running { opened } = self;
        opened
    }

    /// Ends the system.
    pub fn settle(self) -> Settled {
        let Opened { system, a, b, .. } = self.apart();
        system.settle(a, b)
    }
}
