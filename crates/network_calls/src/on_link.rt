//! A network's pass on one link, whatever an end system keeps of the link.
ghost use Rattle.std.specs.Prelude.{◌≡◌, Some, length};
ghost use Rattle.es_base.specs.declared.place.Net.TheVariants.{A, B};
ghost use Rattle.es_base.specs.Tally.{IsKind};
ghost use Rattle.es_base.specs.Verdict.{verdict_kinds};
ghost use Rattle.network_calls.specs.Calls.{count_calls};
ghost use Rattle.network_calls.specs.Counts.{AreCounts};

use crate::counts::LinkCounts;
use es_base::LinkNo;

/// One network's pass on one link, by which a thread gives the link its frames (own). The end system says what its
/// passes and links are by the ghost member.
pub trait PassOnLink: Drop {
    /// The lock of a link.
    type Lock: Drop;

    /// A link whose lock has ended.
    type Link: Drop;

    ghost use Rattle.link_lock.specs.Pass.{LockId};
    ghost use Rattle.network_calls.specs.Passes.{Keeping};

    /// How the end system keeps links.
    ghost keeping: { Keeping Self Self.Link };

    /// Which lock it is.
    ghost lock_id: { Self.Lock → LockId };

    /// The link's number.
    fn vl(&self) -> LinkNo
        ensures { result ≡ (keeping.on self.now).counts.vl };

    /// Number of calls, as a count shows it.
    fn calls(&self) -> u64
        ensures { result ≡ keeping.shows (length (keeping.on self.now).calls) };

    /// Number of calls with a verdict of this kind, 1 to 13, as a count shows it.
    fn count(&self, kind: usize) -> u64
        requires { IsKind verdict_kinds kind }
        ensures { result ≡ keeping.shows (count_calls kind (keeping.on self.now).calls) };

    /// Ends the lock of a link. Takes no memory, and waits for nobody.
    fn settle(lock: Self::Lock, a: Self, b: Self) -> SettledLink<Self::Link>
        requires lock { ((keeping.on a).lock ≡ lock_id lock) × ((keeping.on b).lock ≡ lock_id lock) }
        requires nets { ((keeping.on a).net ≡ A) × ((keeping.on b).net ≡ B) }
        ensures link { keeping.is_let_go a b result.link }
        ensures a { (result.a ≡ (keeping.on a).counts) × AreCounts keeping.shows A (keeping.on a).calls result.a }
        ensures b { (result.b ≡ (keeping.on b).counts) × AreCounts keeping.shows B (keeping.on b).calls result.b };

    /// A count shows none of no calls.
    ghost nothing: { keeping.shows 0 ≡ 0 };

    /// A link that was let go of has the settings of the link that its passes know.
    ghost settles_known: { (one other : Self) (link left : Self.Link) → keeping.is_let_go one other left → (keeping.on one).link ≡ Some link → keeping.settings_of left ≡ keeping.settings_of link };
}

/// A link whose lock has ended, and the counts of both passes on it.
#[derive(Drop)]
pub struct SettledLink<L> {
    pub link: L,
    pub a: LinkCounts,
    pub b: LinkCounts,
}
