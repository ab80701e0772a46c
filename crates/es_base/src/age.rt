//! Freshness of messages.
ghost use Rattle.std.specs.Prelude.{◌≡◌};
ghost use Rattle.es_base.specs.Age.{freshness};

use crate::validity::Freshness;

/// Freshness at `now` of a message that came at `time`, at a port with this refresh period (own). All
/// three are in microseconds. The age is 0 if `now` is earlier than `time`.
pub fn freshness(now: u64, time: u64, refresh: u64) -> Freshness
    ensures { result ≡ freshness now time refresh }
{
    let age = now.saturating_sub(time);
    if age <= refresh {
        Freshness::Fresh
    } else {
        Freshness::Stale
    }
}
