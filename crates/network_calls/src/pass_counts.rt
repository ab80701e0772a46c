//! Final counts of a network's pass.
ghost use Rattle.std.specs.Prelude.{◌≡◌};
ghost use Rattle.std.specs.Option.{option_copied};
ghost use Rattle.es_base.specs.FilterTally.{cause_kind};
ghost use Rattle.es_base.specs.Verdict.{verdict_kinds};
ghost use Rattle.es_base.specs.Tally.{IsKind, count_in};
ghost use Rattle.network_calls.specs.Counts.{count_on, counts_of_link, number_on};

use crate::counts::LinkCounts;
use es_base::{FilterCause, FilterTally, LinkNo, Net};
use std::marker::Model;

/// Counts of one network's pass. To a contract it is the network, the counts on each link, in the order of the links,
/// and those of filtered frames.
#[derive(Drop)]
pub struct PassCounts {
    net: Net,
    links: Vec<LinkCounts>,
    filtered: FilterTally,
}

impl Model for PassCounts {
    ghost use Rattle.network_calls.specs.Counts.{KnownCounts};

    ghost Value = { KnownCounts };

    ghost view = { λ p. record { net = p.net; links = p.links.items; filtered = p.filtered } };
}

impl PassCounts {
    /// The counts of this network's pass on each link, and of filtered frames.
    pub fn new(net: Net, links: Vec<LinkCounts>, filtered: FilterTally) -> PassCounts
        ensures { result ≡ record { net = net; links = links.items; filtered = filtered } }
    {
        PassCounts {
            net,
            links,
            filtered,
        }
    }

    /// The network.
    pub fn net(&self) -> Net
        ensures { result ≡ self.now.net }
    {
        self.net
    }

    /// Number of frames given to the link with this number, saturating at 2^64 - 1. 0 for a link that isn't configured.
    pub fn calls(&self, vl: LinkNo) -> u64
        ensures { result ≡ number_on vl self.now.links }
    {
        match counts_on(&self.links, vl) {
            Some(counts) => counts.number,
            None => 0,
        }
    }

    /// Number of frames given to the link with this number whose verdict has this kind, 1 to 13, saturating at
    /// 2^64 - 1. 0 for a link that isn't configured.
    pub fn count(&self, vl: LinkNo, kind: usize) -> u64
        requires { IsKind verdict_kinds kind }
        ensures { result ≡ count_on vl kind self.now.net self.now.links }
    {
        match counts_on(&self.links, vl) {
            Some(counts) => counts.tally.count(self.net, kind),
            None => 0,
        }
    }

    /// Number of frames filtered for this cause, saturating at 2^64 - 1.
    pub fn filtered(&self, cause: FilterCause) -> u64
        ensures { result ≡ count_in self.now.filtered self.now.net (cause_kind cause) }
    {
        self.filtered.count(self.net, cause.kind())
    }
}

/// The counts on the link with this number, of those on some links.
pub fn counts_on(links: &[LinkCounts], vl: LinkNo) -> Option<&LinkCounts>
    ensures { option_copied result ≡ counts_of_link vl links.now }
{
    links.iter().find(|link| link.vl == vl)
}
