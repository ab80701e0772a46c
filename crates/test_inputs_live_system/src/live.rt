//! A system that keeps no frame, with both of its passes, which one thread has.
ghost use Rattle.std.specs.Prelude.{◌≡◌};
ghost use Rattle.es_base.specs.declared.place.Net.TheVariants.{A, B};
ghost use Rattle.live_system.specs.System.{IsPassOf};

use es_base::{Config, Memory, Net};
use live_system::{
    LiveSystem, MailboxReader, NetPass, Opened, ReaderCount, Reply, RingTaker, Settled,
};
use std::alloc::Global;
use std::marker::Model;
use std::sync::Wait;

/// A system with both of its passes, and the ends that were not moved out. To a contract it is the passes.
#[derive(Drop)]
pub struct Live {
    opened: Opened,
}

impl Model for Live {
    ghost use Rattle.std.specs.Prelude.{◌≡◌};
    ghost use Rattle.es_base.specs.declared.place.Net.TheVariants.{A, B};
    ghost use Rattle.network_calls.specs.Passes.{KnownNet};
    ghost use Rattle.live_system.specs.Pass.{KnownLink};
    ghost use Rattle.live_system.specs.System.{IsPassOf};

    ghost Value = { KnownNet KnownLink × KnownNet KnownLink };

    ghost view = { λ r. (r.opened.a, r.opened.b) };

    ghost invariant = { λ r. IsPassOf r.opened.system r.opened.a × IsPassOf r.opened.system r.opened.b × (r.opened.a.net ≡ A) × (r.opened.b.net ≡ B) };
}

impl Live {
    /// A new system with these links. Each sampling port has eight readers.
    pub fn open(alloc: Global, config: &Config) -> Result<Live, Memory> {
        let opened = LiveSystem::open(alloc, config, ReaderCount::most())?;
        Ok(Live { opened })
    }

    /// The same, with the links in so many groups.
    pub fn open_in_groups(alloc: Global, config: &Config, groups: usize) -> Result<Live, Memory> {
        let readers = ReaderCount::most();
        let opened = LiveSystem::open_in_groups(alloc, config, readers, groups)?;
        Ok(Live { opened })
    }

    /// The system that has these parts.
    pub fn of(opened: Opened) -> Live
        requires own { IsPassOf opened.system opened.a × IsPassOf opened.system opened.b }
        requires nets { (opened.a.net ≡ A) × (opened.b.net ≡ B) }
    {
        Live { opened }
    }

    /// Moves out a reader of the sampling port with this name.
    pub fn take_reader(&mut self, name: &str) -> Option<MailboxReader> {
        self.opened.take_reader(name)
    }

    /// Moves out the taker of the queuing port with this name.
    pub fn take_taker(&mut self, name: &str) -> Option<RingTaker> {
        self.opened.take_taker(name)
    }

    /// The pass of this network.
    pub fn pass(&self, net: Net) -> &NetPass {
        match net {
            Net::A => &self.opened.a,
            Net::B => &self.opened.b,
        }
    }

    /// The system receives a frame on this network.
    pub fn receive<R: Wait>(&mut self, rt: &R, net: Net, now: u64, octets: &[u8]) -> Reply {
        let Opened { system, a, b, .. } = &mut self.opened;
        match net {
            Net::A => system.receive(rt, a, now, octets),
            Net::B => system.receive(rt, b, now, octets),
        }
    }

    /// The system receives a frame on this network, if nobody has the frame's link at this moment.
    pub fn try_receive(&mut self, net: Net, now: u64, octets: &[u8]) -> Option<Reply> {
        let Opened { system, a, b, .. } = &mut self.opened;
        match net {
            Net::A => system.try_receive(a, now, octets),
            Net::B => system.try_receive(b, now, octets),
        }
    }

    /// The system receives frames on this network at once.
    pub fn receive_all<R: Wait>(
        &mut self,
        rt: &R,
        net: Net,
        frames: &[(u64, &[u8])],
        replies: &mut [Reply],
    ) -> usize {
        let Opened { system, a, b, .. } = &mut self.opened;
        match net {
            Net::A => system.receive_all(rt, a, frames, replies),
            Net::B => system.receive_all(rt, b, frames, replies),
        }
    }

    /// The system, its passes and the ends, apart.
    pub fn apart(self) -> Opened
        ensures own { IsPassOf result.system result.a × IsPassOf result.system result.b }
        ensures nets { (result.a.net ≡ A) × (result.b.net ≡ B) }
    {
        let Live { opened } = self;
        opened
    }

    /// Ends the system.
    pub fn settle(self) -> Settled {
        let Opened { system, a, b, .. } = self.apart();
        system.settle(a, b)
    }
}
