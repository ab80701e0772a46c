//! An end system that has ended: its links, and the counts of both passes.
ghost use Rattle.std.specs.Prelude.{◌≡◌, map};
ghost use Rattle.es_base.specs.declared.place.Net.TheVariants.{A, B};
ghost use Rattle.network_calls.specs.Passes.{ArePasses, AreSettled, IsCounted};

use crate::net_pass::NetPass;
use crate::on_link::{PassOnLink, SettledLink};
use crate::pass_counts::PassCounts;
use es_base::{LinkSettings, Net};

/// The links, in their order, and the counts of the passes of networks A and B.
#[derive(Drop)]
pub struct Settled<L> {
    pub links: Vec<L>,
    pub a: PassCounts,
    pub b: PassCounts,
}

/// Ends the locks of links with these settings, which stand in the contract alone. What each link is then says
/// `PassOnLink::settle`; its counts are those of both passes. Takes no memory and no lock.
pub fn settle<P: PassOnLink>(
    _settings: &[LinkSettings],
    mut locks: Vec<P::Lock>,
    a: NetPass<P>,
    b: NetPass<P>,
) -> Settled<P::Link>
    requires own { ArePasses P.keeping A (map P.lock_id locks.items) _settings.now a.links × ArePasses P.keeping B (map P.lock_id locks.items) _settings.now b.links }
    requires nets { (a.net ≡ A) × (b.net ≡ B) }
    ensures links { AreSettled P.keeping _settings.now a.links b.links result.links.items }
    ensures a { IsCounted P.keeping a result.a }
    ensures b { IsCounted P.keeping b result.b }
{
    let NetPass {
        net: _,
        links: mut ones,
        filtered: filtered_a,
        settled: mut links,
        counts: mut counts_a,
    } = a;
    let NetPass {
        net: _,
        links: mut others,
        filtered: filtered_b,
        settled: _,
        counts: mut counts_b,
    } = b;
    'locks: while let Some(lock) = locks.pop() {
        let (Some(one), Some(other)) = (ones.pop(), others.pop()) else {
            unreachable!()
        };
        let SettledLink { link, a, b } = P::settle(lock, one, other);
        links.push_reserved(link);
        counts_a.push_reserved(a);
        counts_b.push_reserved(b);
    }
    links.reverse();
    counts_a.reverse();
    counts_b.reverse();
    Settled {
        links,
        a: PassCounts::new(Net::A, counts_a, filtered_a),
        b: PassCounts::new(Net::B, counts_b, filtered_b),
    }
}
