//! A newly opened system: its two passes, and the ends of all ports.
ghost use Rattle.std.specs.Prelude.{◌≡◌, ◌<◌, List, IfOk, length};
ghost use Rattle.std.specs.List.{All, sum_by};
ghost use Rattle.es_base.specs.declared.place.Net.TheVariants.{A, B};
ghost use Rattle.receiver.specs.Named.{port_named};
ghost use Rattle.receiver.specs.Outlet.{reads_by};
ghost use Rattle.receiver.specs.Port.{ReadsPort, ShowsPort};
ghost use Rattle.receiver.specs.Receiver.{AreNewLinks};
ghost use Rattle.receiver.specs.Taking.{HandsNamed, HandsReader, HandsTaker};
ghost use Rattle.network_calls.specs.Passes.{AreIdle, ArePasses, IsNewPassOf};
ghost use Rattle.live_system.specs.Calls.{LiveLink};
ghost use Rattle.live_system.specs.Groups.{AreInGroups, IsGroup, ids_in, links_of_groups};
ghost use Rattle.live_system.specs.System.{AreOfNewLinks, IsPassOf, KnowLinks, keeping_no_frame};

use crate::cut::{places_in, sizes_of};
use crate::group::Group;
use crate::link_pass::GroupPass;
use crate::net_pass::NetPass;
use crate::opened_group::{OpenedGroup, open_group};
use crate::system::LiveSystem;
use es_base::{Config, LinkSettings, Memory, Net, PortNo};
use link_lock::Lock;
use receiver::{
    LinkEnds, MailboxReader, PartitionEnd, ReaderCount, Readers, RingTaker, port_named,
    reader_named, taker_named,
};
use std::alloc::Global;

/// A new system, the passes of its two networks, and the ends of all ports, in the order of the links.
#[derive(Drop)]
pub struct Opened {
    /// Shared by the threads of both networks.
    pub system: LiveSystem,
    /// The pass of network A.
    pub a: NetPass,
    /// The pass of network B.
    pub b: NetPass,
    pub ends: Vec<LinkEnds<PartitionEnd>>,
}

/// The links of a system, in groups, each under its lock, with the passes of both networks and the ends of all ports.
#[derive(Drop)]
struct Groups {
    locks: Vec<Lock<Group>>,
    a: Vec<GroupPass>,
    b: Vec<GroupPass>,
    ends: Vec<LinkEnds<PartitionEnd>>,
}

/// Opens links with these settings, in groups of these sizes. Each sampling port has as many readers as `readers` says.
fn open_groups<R: Readers>(
    alloc: Global,
    links: &[LinkSettings],
    sizes: &[usize],
    readers: &R,
) -> Result<Groups, Memory>
    requires all { sum_by (λ size. size) sizes.now ≡ length links.now }
    requires some { All (λ size. 0 < size) sizes.now }
    ensures locks { IfOk result (λ o. length o.locks.items ≡ length sizes.now) }
    ensures a { IfOk result (λ o. ArePasses keeping_no_frame A (ids_in sizes.now o.locks.items) links.now (links_of_groups o.a.items) × AreIdle keeping_no_frame (links_of_groups o.a.items) × All IsGroup o.a.items) }
    ensures b { IfOk result (λ o. ArePasses keeping_no_frame B (ids_in sizes.now o.locks.items) links.now (links_of_groups o.b.items) × AreIdle keeping_no_frame (links_of_groups o.b.items) × All IsGroup o.b.items) }
    ensures links { IfOk result (λ o. (opened : List LiveLink) × AreNewLinks ShowsPort (reads_by ReadsPort (R.count readers.now)) links.now opened o.ends.items
        × KnowLinks (links_of_groups o.a.items) opened × KnowLinks (links_of_groups o.b.items) opened) }
{
    let mut opened = Groups {
        locks: Vec::new(alloc),
        a: Vec::new(alloc),
        b: Vec::new(alloc),
        ends: Vec::new(alloc),
    };
    let mut first = 0;
    'groups: for group in 0..sizes.len() {
        let next = first + sizes[group];
        let OpenedGroup { lock, a, b } = open_group(
            alloc,
            &links[first..next],
            readers,
            &mut opened.ends,
        )?;
        opened.locks.push(lock)?;
        opened.a.push(a)?;
        opened.b.push(b)?;
        first = next;
    }
    Ok(opened)
}

impl Opened {
    /// Moves out a reader of the sampling port with this name, for a partition: as many as the opening was told. None
    /// if no sampling port has the name, or its readers were all taken.
    pub fn take_reader(&mut self, name: &str) -> Option<MailboxReader>
        ensures reader { HandsNamed HandsReader name.now self.old.ends.items self.new.ends.items result }
        ensures system { self.new.system ≡ self.old.system }
        ensures passes { (self.new.a ≡ self.old.a) × (self.new.b ≡ self.old.b) }
    {
        reader_named(&mut self.ends, name)
    }

    /// Moves out the taker of the queuing port with this name, for a partition. None if no queuing port has the name,
    /// or it was taken before.
    pub fn take_taker(&mut self, name: &str) -> Option<RingTaker>
        ensures taker { HandsNamed HandsTaker name.now self.old.ends.items self.new.ends.items result }
        ensures system { self.new.system ≡ self.old.system }
        ensures passes { (self.new.a ≡ self.old.a) × (self.new.b ≡ self.old.b) }
    {
        taker_named(&mut self.ends, name)
    }

    /// Index in the configuration of the link that has the port with this name, and the port's place in the link. None
    /// if no port has it.
    pub fn place_of(&self, name: &str) -> Option<(usize, PortNo)>
        ensures { result ≡ port_named name.now self.now.ends.items }
    {
        port_named(&self.ends, name)
    }
}

impl LiveSystem {
    /// Opens the links of a configuration, with the passes of both networks, which know the same links, and the ends of
    /// all ports, with the same number of readers for each sampling port. Each link is a group of its own. All memory is
    /// taken here: no later call takes any.
    pub fn open(alloc: Global, config: &Config, readers: ReaderCount) -> Result<Opened, Memory>
        ensures config { IfOk result (λ o. o.system.config ≡ config.now) }
        ensures a { IfOk result (λ o. IsPassOf o.system o.a × IsNewPassOf keeping_no_frame A o.a) }
        ensures b { IfOk result (λ o. IsPassOf o.system o.b × IsNewPassOf keeping_no_frame B o.b) }
        ensures links { IfOk result (λ o. AreOfNewLinks (λ _. readers) config.now o.a o.b o.ends.items) }
    {
        LiveSystem::open_with(alloc, config, &readers)
    }

    /// The same, where each sampling port has as many readers as `readers` says.
    pub fn open_with<R: Readers>(
        alloc: Global,
        config: &Config,
        readers: &R,
    ) -> Result<Opened, Memory>
        ensures config { IfOk result (λ o. o.system.config ≡ config.now) }
        ensures a { IfOk result (λ o. IsPassOf o.system o.a × IsNewPassOf keeping_no_frame A o.a) }
        ensures b { IfOk result (λ o. IsPassOf o.system o.b × IsNewPassOf keeping_no_frame B o.b) }
        ensures links { IfOk result (λ o. AreOfNewLinks (R.count readers.now) config.now o.a o.b o.ends.items) }
    {
        LiveSystem::open_in_groups_with(alloc, config, readers, config.links().len())
    }

    /// As [`open`](LiveSystem::open), with the links in so many groups of neighbours, each under one lock: 1 at least,
    /// and not more than there are links; as even as they come.
    pub fn open_in_groups(
        alloc: Global,
        config: &Config,
        readers: ReaderCount,
        groups: usize,
    ) -> Result<Opened, Memory>
        ensures config { IfOk result (λ o. o.system.config ≡ config.now) }
        ensures a { IfOk result (λ o. IsPassOf o.system o.a × IsNewPassOf keeping_no_frame A o.a) }
        ensures b { IfOk result (λ o. IsPassOf o.system o.b × IsNewPassOf keeping_no_frame B o.b) }
        ensures links { IfOk result (λ o. AreOfNewLinks (λ _. readers) config.now o.a o.b o.ends.items) }
        ensures groups { IfOk result (λ o. AreInGroups groups o.system) }
    {
        LiveSystem::open_in_groups_with(alloc, config, &readers, groups)
    }

    /// The same, where each sampling port has as many readers as `readers` says.
    pub fn open_in_groups_with<R: Readers>(
        alloc: Global,
        config: &Config,
        readers: &R,
        groups: usize,
    ) -> Result<Opened, Memory>
        ensures config { IfOk result (λ o. o.system.config ≡ config.now) }
        ensures a { IfOk result (λ o. IsPassOf o.system o.a × IsNewPassOf keeping_no_frame A o.a) }
        ensures b { IfOk result (λ o. IsPassOf o.system o.b × IsNewPassOf keeping_no_frame B o.b) }
        ensures links { IfOk result (λ o. AreOfNewLinks (R.count readers.now) config.now o.a o.b o.ends.items) }
        ensures groups { IfOk result (λ o. AreInGroups groups o.system) }
    {
        let links = config.links();
        let sizes = sizes_of(alloc, links.len(), groups)?;
        let Groups { locks, a, b, ends } = open_groups(alloc, links, &sizes, readers)?;
        let a = NetPass::open(alloc, Net::A, a, links.len())?;
        let b = NetPass::open(alloc, Net::B, b, links.len())?;
        let system = LiveSystem {
            config: config.copy(alloc)?,
            groups: locks,
            places: places_in(alloc, &sizes)?,
            sizes,
        };
        Ok(Opened { system, a, b, ends })
    }
}
