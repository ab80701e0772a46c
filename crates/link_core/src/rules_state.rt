//! The state kept of a link's past, of both networks together.
ghost use Rattle.std.specs.Prelude.{◌≡◌, ℕ, [], IfOk, slice_index_or, true, ◌<◌};
ghost use Rattle.es_base.specs.declared.place.PortNo.{PortNo};
ghost use Rattle.es_base.specs.Limits.{most_ports};
ghost use Rattle.link_core.specs.Told.{tells_delivered};
ghost use Rattle.link_core.specs.Kept.{Keeps, Tells};
ghost use Rattle.link_core.specs.Counted.{one_more_if, port_no};

use crate::verdict::delivered_at;
use es_base::{LinkSettings, MOST_PORTS, Memory, PortNo, Verdict};
use ip_reassembly::Reassembly;
use redundancy_manager::Redundancy;
use std::alloc::Global;

/// State of a link after all its events: what a rule reads of both networks together. What it reads of one alone is
/// [`NetChecks`](crate::NetChecks).
#[derive(Drop)]
pub struct RulesState {
    /// The state of redundancy management.
    pub(crate) redundancy: Redundancy,
    /// The partial datagrams.
    pub(crate) reassembly: Reassembly,
    /// Number of messages delivered to each port. Counts saturate at 2^64 - 1.
    pub(crate) delivered: [u64; MOST_PORTS],
}

impl RulesState {
    /// The state before the first event.
    pub fn open(alloc: Global, settings: &LinkSettings) -> Result<RulesState, Memory>
        ensures keeps { IfOk result (λ kept. Keeps kept settings.now []) }
        ensures tells { IfOk result (λ kept. Tells kept settings.now []) }
    {
        let reassembly = Reassembly::new(alloc, settings.reassembly())?;
        Ok(RulesState {
            redundancy: Redundancy::opening(settings.skew_max()),
            reassembly,
            delivered: [0; MOST_PORTS],
        })
    }

    /// Notes the verdict of an event.
    pub fn note(&mut self, verdict: Verdict)
        requires { (port : PortNo) → tells_delivered verdict port ≡ true → port.0 < most_ports }
        ensures redundancy { self.new.redundancy ≡ self.old.redundancy }
        ensures reassembly { self.new.reassembly ≡ self.old.reassembly }
        ensures delivered { (port : ℕ) → slice_index_or self.new.delivered port 0 ≡ one_more_if (tells_delivered verdict (port_no port)) (slice_index_or self.old.delivered port 0) }
    {
        if let Some(port) = delivered_at(verdict) {
            let place = port.0 as usize;
            self.delivered[place] = self.delivered[place].saturating_add(1);
        }
    }

    /// The partial datagrams.
    pub fn reassembly(&self) -> &Reassembly
        ensures { result.now ≡ self.now.reassembly }
    {
        &self.reassembly
    }

    /// Number of messages delivered to a port. It saturates at 2^64 - 1.
    pub(crate) fn delivered(&self, port: PortNo) -> u64
        requires { port.0 < most_ports }
        ensures { result ≡ slice_index_or self.now.delivered port.0 0 }
    {
        self.delivered[port.0 as usize]
    }

    /// Number of partial datagrams given up. It saturates at 2^64 - 1.
    pub(crate) fn given_up(&self) -> u64
        ensures { result ≡ self.now.reassembly.given_up }
    {
        self.reassembly.given_up()
    }
}
