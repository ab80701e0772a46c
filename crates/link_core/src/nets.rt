//! What each network alone keeps of a link, of both networks.
ghost use Rattle.std.specs.Prelude.{◌≡◌, List, [], ◌∷◌};
ghost use Rattle.es_base.specs.declared.event.Arrival.{Arrival};
ghost use Rattle.es_base.specs.declared.event.Event.{Event};
ghost use Rattle.es_base.specs.Frame.{sequence_number_of};
ghost use Rattle.es_base.specs.Settings.{Settings};
ghost use Rattle.link_rules.specs.Integrity.{passes};

use crate::net_checks::NetChecks;
use es_base::{Net, Verdict, VerdictTally};

/// Integrity checking on each network, the latest arrivals and the counts.
#[derive(Drop)]
pub struct NetStates {
    pub(crate) a: NetChecks,
    pub(crate) b: NetChecks,
    /// Number of events per network and kind of verdict.
    pub(crate) tally: VerdictTally,
}

impl NetStates {
    ghost use Rattle.link_core.specs.Nets.{HoldNets, latest_in};

    /// The state before the first frame. `window` is the number of sequence numbers after the latest that pass.
    pub fn new(window: u8) -> NetStates
        ensures { (o : Settings) → o.window ≡ window → HoldNets result o [] }
    {
        NetStates {
            a: NetChecks::new(window),
            b: NetChecks::new(window),
            tally: VerdictTally::opening(),
        }
    }

    /// Whether a frame with this sequence number that came on this network passes integrity checking.
    pub fn check(&self, net: Net, sequence_number: u8) -> bool
        ensures { (o : Settings) (past : List Event) (a : Arrival) → HoldNets self.now o past →
            a.net ≡ net → sequence_number_of a.frame ≡ sequence_number → result ≡ passes o past a }
    {
        match net {
            Net::A => self.a.sequence.check(sequence_number),
            Net::B => self.b.sequence.check(sequence_number),
        }
    }

    /// Notes a frame that came at `now`, in microseconds, and had this verdict.
    pub fn note(&mut self, net: Net, sequence_number: u8, now: u64, verdict: Verdict)
        ensures { (o : Settings) (past : List Event) (e : Event) → HoldNets self.old o past →
            e.net ≡ net → sequence_number_of e.frame ≡ sequence_number → e.time ≡ now → e.verdict ≡ verdict →
            HoldNets self.new o (e ∷ past) }
    {
        self.tally.add(net, verdict.kind());
        match net {
            Net::A => self.a.note(sequence_number, now),
            Net::B => self.b.note(sequence_number, now),
        }
    }

    /// Arrival time of the latest frame on a network, in microseconds, whatever its verdict. None if none came.
    pub fn latest(&self, net: Net) -> Option<u64>
        ensures { result ≡ latest_in self.now net }
    {
        match net {
            Net::A => self.a.latest(),
            Net::B => self.b.latest(),
        }
    }

    /// Number of events per network and kind of verdict.
    pub fn tally(&self) -> &VerdictTally
        ensures { result.now ≡ self.now.tally }
    {
        &self.tally
    }
}
