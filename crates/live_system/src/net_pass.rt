//! One network's pass on all links.
ghost use Rattle.std.specs.Prelude.{◌≡◌, ◌≤◌, [], IfOk, length};
ghost use Rattle.std.specs.List.{All};
ghost use Rattle.std.specs.Vec.{vec_capacity};
ghost use Rattle.es_base.specs.declared.place.Net.TheVariants.{A};
ghost use Rattle.es_base.specs.FilterTally.{cause_kind};
ghost use Rattle.es_base.specs.Limits.{filter_causes};
ghost use Rattle.es_base.specs.Tally.{AddsOne, IsKind, IsZero, count_in};
ghost use Rattle.es_base.specs.Verdict.{verdict_kinds};
ghost use Rattle.link_core.specs.Counted.{shown};
ghost use Rattle.network_calls.specs.Calls.{count_calls};
ghost use Rattle.network_calls.specs.Passes.{calls_with};
ghost use Rattle.live_system.specs.Groups.{IsGroup, links_of_groups};
ghost use Rattle.live_system.specs.System.{keeping_no_frame};

use crate::link_pass::GroupPass;
use es_base::{FilterCause, FilterTally, LinkNo, Memory, Net};
use network_calls::LinkCounts;
use receiver::{PortOutlet, PortedLink};
use std::alloc::Global;
use std::marker::Model;

/// One network's pass on all links of a system, by which a thread gives them the frames of its network. To a contract
/// it is the network, the passes on each link, and the counts of filtered frames.
#[derive(Drop)]
pub struct NetPass {
    pub(crate) net: Net,
    pub(crate) groups: Vec<GroupPass>,
    pub(crate) filtered: FilterTally,
    /// Room for all links in the pass of network A, so that `settle` takes no memory. It is here and not in the system,
    /// which threads share: a link may be sent to another thread, and not shared.
    pub(crate) settled: Vec<PortedLink<PortOutlet>>,
    /// Room for the counts on all links.
    pub(crate) counts: Vec<LinkCounts>,
}

impl Model for NetPass {
    ghost use Rattle.std.specs.Prelude.{◌≡◌, ◌≤◌, [], length};
    ghost use Rattle.std.specs.List.{All};
    ghost use Rattle.std.specs.Vec.{vec_capacity};
    ghost use Rattle.es_base.specs.declared.place.Net.TheVariants.{A};
    ghost use Rattle.network_calls.specs.Passes.{KnownNet};
    ghost use Rattle.live_system.specs.Groups.{IsGroup, links_of_groups};
    ghost use Rattle.live_system.specs.Pass.{KnownLink};

    ghost Value = { KnownNet KnownLink };

    ghost view = { λ p. record { net = p.net; links = links_of_groups p.groups.items; filtered = p.filtered } };

    ghost invariant = { λ p. (p.settled.items ≡ []) × (p.counts.items ≡ []) × (length (links_of_groups p.groups.items) ≤ vec_capacity p.counts) × (p.net ≡ A → length (links_of_groups p.groups.items) ≤ vec_capacity p.settled)
        × All IsGroup p.groups.items };
}

impl NetPass {
    /// A new pass of this network on so many links, by these passes on their groups. All memory that `settle` needs is
    /// taken here.
    pub(crate) fn open(
        alloc: Global,
        net: Net,
        groups: Vec<GroupPass>,
        links: usize,
    ) -> Result<NetPass, Memory>
        requires groups { All IsGroup groups.items }
        requires links { length (links_of_groups groups.items) ≡ links }
        ensures net { IfOk result (λ pass. pass.net ≡ net) }
        ensures links { IfOk result (λ pass. pass.links ≡ links_of_groups groups.items) }
        ensures filtered { IfOk result (λ pass. IsZero filter_causes pass.filtered) }
    {
        let settled = room_in(alloc, net, links)?;
        let counts = Vec::with_capacity(alloc, links)?;
        Ok(NetPass {
            net,
            groups,
            filtered: FilterTally::opening(),
            settled,
            counts,
        })
    }

    /// The network.
    pub fn net(&self) -> Net
        ensures { result ≡ self.now.net }
    {
        self.net
    }

    /// Number of frames given to the link with this number, saturating at 2^64 - 1. 0 for a link that isn't configured.
    pub fn calls(&self, vl: LinkNo) -> u64
        ensures { result ≡ shown (length (calls_with keeping_no_frame vl self.now.links)) }
    {
        'groups: for group in &self.groups {
            match group.calls(vl) {
                Some(calls) => return calls,
                None => {}
            }
        }
        0
    }

    /// Number of frames given to the link with this number whose verdict has this kind, 1 to 13, saturating at
    /// 2^64 - 1. 0 for a link that isn't configured.
    pub fn count(&self, vl: LinkNo, kind: usize) -> u64
        requires { IsKind verdict_kinds kind }
        ensures { result ≡ shown (count_calls kind (calls_with keeping_no_frame vl self.now.links)) }
    {
        'groups: for group in &self.groups {
            match group.count(vl, kind) {
                Some(count) => return count,
                None => {}
            }
        }
        0
    }

    /// Number of frames filtered for this cause, saturating at 2^64 - 1.
    pub fn filtered(&self, cause: FilterCause) -> u64
        ensures { result ≡ count_in self.now.filtered self.now.net (cause_kind cause) }
    {
        self.filtered.count(self.net, cause.kind())
    }

    /// Counts a frame that was filtered for this cause.
    pub(crate) fn count_filtered(&mut self, cause: FilterCause)
        ensures net { self.new.net ≡ self.old.net }
        ensures links { self.new.links ≡ self.old.links }
        ensures filtered { AddsOne filter_causes self.old.filtered self.new.filtered self.old.net (cause_kind cause) }
    {
        self.filtered.add(self.net, cause.kind());
    }
}

/// Room for so many links in the pass of network A, and none in that of network B.
fn room_in<L>(alloc: Global, net: Net, many: usize) -> Result<Vec<L>, Memory>
    ensures none { IfOk result (λ room. room.items ≡ []) }
    ensures room { IfOk result (λ room. net ≡ A → many ≤ vec_capacity room) }
{
    match net {
        Net::A => Vec::with_capacity(alloc, many),
        Net::B => Ok(Vec::new(alloc)),
    }
}
