//! The end of a system.
ghost use Rattle.std.specs.Prelude.{◌≡◌};
ghost use Rattle.es_base.specs.declared.place.Net.TheVariants.{A, B};
ghost use Rattle.network_calls.specs.Passes.{AreSettled, IsCounted};
ghost use Rattle.live_system.specs.System.{IsPassOf, keeping_no_frame};

use crate::link_pass::GroupPass;
use crate::net_pass::NetPass;
use crate::system::LiveSystem;
use es_base::Net;
use network_calls::PassCounts;
use receiver::{PortOutlet, PortedLink};

/// A system that has ended: its links, in their order, and the counts of the passes of networks A and B.
pub type Settled = network_calls::Settled<PortedLink<PortOutlet>>;

impl LiveSystem {
    /// Ends the system. The calls in each link's past are those of both passes, each at its place, and its counts
    /// are theirs. Takes no memory and no lock.
    pub fn settle(self, a: NetPass, b: NetPass) -> Settled
        requires own { IsPassOf self a × IsPassOf self b }
        requires nets { (a.net ≡ A) × (b.net ≡ B) }
        ensures links { AreSettled keeping_no_frame self.config.links a.links b.links result.links.items }
        ensures a { IsCounted keeping_no_frame a result.a }
        ensures b { IsCounted keeping_no_frame b result.b }
    {
        let LiveSystem { mut groups, .. } = self;
        let NetPass {
            groups: mut ones,
            filtered: filtered_a,
            settled: mut links,
            counts: mut counts_a,
            ..
        } = a;
        let NetPass {
            groups: mut others,
            filtered: filtered_b,
            counts: mut counts_b,
            ..
        } = b;
        'groups: while let Some(lock) = groups.pop() {
            let (Some(one), Some(other)) = (ones.pop(), others.pop()) else {
                unreachable!()
            };
            GroupPass::settle(lock, one, other, &mut links, &mut counts_a, &mut counts_b);
        }
        links.reverse();
        counts_a.reverse();
        counts_b.reverse();
        Settled {
            links,
            a: PassCounts::new(Net::A, counts_a, filtered_a),
            b: PassCounts::new(Net::B, counts_b, filtered_b),
        }
    }
}
