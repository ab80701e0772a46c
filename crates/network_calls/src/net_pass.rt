//! One network's pass on all links.
ghost use Rattle.std.specs.Prelude.{◌≡◌, ◌≤◌, [], IfOk, length};
ghost use Rattle.std.specs.Option.{option_copied};
ghost use Rattle.std.specs.Vec.{vec_capacity};
ghost use Rattle.es_base.specs.declared.place.Net.TheVariants.{A};
ghost use Rattle.es_base.specs.FilterTally.{cause_kind};
ghost use Rattle.es_base.specs.Limits.{filter_causes};
ghost use Rattle.es_base.specs.Tally.{AddsOne, IsKind, IsZero, count_in};
ghost use Rattle.es_base.specs.Verdict.{verdict_kinds};
ghost use Rattle.network_calls.specs.Calls.{count_calls};
ghost use Rattle.network_calls.specs.Passes.{calls_with, pass_with};

use crate::counts::LinkCounts;
use crate::on_link::PassOnLink;
use es_base::{FilterCause, FilterTally, LinkNo, Memory, Net};
use std::alloc::Global;
use std::marker::Model;

/// One network's pass on all links of a system, by which a thread gives them the frames of its network. To a contract
/// it is the network, the passes on each link, and the counts of filtered frames.
#[derive(Drop)]
pub struct NetPass<P: PassOnLink> {
    pub(crate) net: Net,
    /// Its passes on the links, in their order. A system gives frames by them.
    pub links: Vec<P>,
    pub(crate) filtered: FilterTally,
    /// Room for all links in the pass of network A, so that `settle` takes no memory. It is here and not in the system,
    /// which threads share: a link may be sent to another thread, and not shared.
    pub(crate) settled: Vec<P::Link>,
    /// Room for the counts on all links.
    pub(crate) counts: Vec<LinkCounts>,
}

impl<P: PassOnLink> Model for NetPass<P> {
    ghost use Rattle.std.specs.Prelude.{◌≡◌, ◌≤◌, [], length};
    ghost use Rattle.std.specs.Vec.{vec_capacity};
    ghost use Rattle.es_base.specs.declared.place.Net.TheVariants.{A};
    ghost use Rattle.network_calls.specs.Passes.{KnownNet};

    ghost Value = { KnownNet P };

    ghost view = { λ p. record { net = p.net; links = p.links.items; filtered = p.filtered } };

    ghost invariant = { λ p. (p.settled.items ≡ []) × (p.counts.items ≡ []) × (length p.links.items ≤ vec_capacity p.counts) × (p.net ≡ A → length p.links.items ≤ vec_capacity p.settled) };
}

impl<P: PassOnLink> NetPass<P> {
    /// A new pass of this network, by these passes on the links. All memory that `settle` needs is taken here.
    pub fn open(alloc: Global, net: Net, links: Vec<P>) -> Result<NetPass<P>, Memory>
        ensures net { IfOk result (λ pass. pass.net ≡ net) }
        ensures links { IfOk result (λ pass. pass.links ≡ links.items) }
        ensures filtered { IfOk result (λ pass. IsZero filter_causes pass.filtered) }
    {
        let settled = room_in(alloc, net, links.len())?;
        let counts = Vec::with_capacity(alloc, links.len())?;
        Ok(NetPass {
            net,
            links,
            filtered: FilterTally::opening(),
            settled,
            counts,
        })
    }

    /// The network.
    pub fn net(&self) -> Net
        ensures { result ≡ self.now.net }
    {
        self.net
    }

    /// Number of frames given to the link with this number, as the end system shows it: saturating at 2^64 - 1 if its
    /// links keep no frame. 0 for a link that isn't configured.
    pub fn calls(&self, vl: LinkNo) -> u64
        ensures { result ≡ P.keeping.shows (length (calls_with P.keeping vl self.now.links)) }
    {
        match pass_on(&self.links, vl) {
            Some(pass) => pass.calls(),
            None => 0,
        }
    }

    /// Number of frames given to the link with this number whose verdict has this kind, 1 to 13, as the end system shows
    /// it. 0 for a link that isn't configured.
    pub fn count(&self, vl: LinkNo, kind: usize) -> u64
        requires { IsKind verdict_kinds kind }
        ensures { result ≡ P.keeping.shows (count_calls kind (calls_with P.keeping vl self.now.links)) }
    {
        match pass_on(&self.links, vl) {
            Some(pass) => pass.count(kind),
            None => 0,
        }
    }

    /// Number of frames filtered for this cause, saturating at 2^64 - 1.
    pub fn filtered(&self, cause: FilterCause) -> u64
        ensures { result ≡ count_in self.now.filtered self.now.net (cause_kind cause) }
    {
        self.filtered.count(self.net, cause.kind())
    }

    /// Counts a frame that was filtered for this cause.
    pub fn count_filtered(&mut self, cause: FilterCause)
        ensures net { self.new.net ≡ self.old.net }
        ensures links { self.new.links ≡ self.old.links }
        ensures filtered { AddsOne filter_causes self.old.filtered self.new.filtered self.old.net (cause_kind cause) }
    {
        self.filtered.add(self.net, cause.kind());
    }
}

/// Room for so many links in the pass of network A, and none in that of network B.
fn room_in<L>(alloc: Global, net: Net, many: usize) -> Result<Vec<L>, Memory>
    ensures none { IfOk result (λ room. room.items ≡ []) }
    ensures room { IfOk result (λ room. net ≡ A → many ≤ vec_capacity room) }
{
    match net {
        Net::A => Vec::with_capacity(alloc, many),
        Net::B => Ok(Vec::new(alloc)),
    }
}

/// The pass on the link with this number.
fn pass_on<P: PassOnLink>(links: &[P], vl: LinkNo) -> Option<&P>
    ensures { option_copied result ≡ pass_with P.keeping vl links.now }
{
    links.iter().find(|link| link.vl() == vl)
}
