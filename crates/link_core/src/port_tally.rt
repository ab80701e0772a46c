//! What a program may ask of a link's ports, and no rule reads.
ghost use Rattle.std.specs.Prelude.{◌≡◌, ◌<◌, ℕ, [], true, slice_index_or, if◌then◌else◌};
ghost use Rattle.es_base.specs.declared.place.PortNo.{PortNo};
ghost use Rattle.es_base.specs.Limits.{most_ports};
ghost use Rattle.link_core.specs.Counted.{one_more_if, port_no};
ghost use Rattle.link_core.specs.Ports.{AreCountsIn, TellsPorts, brought_on, newest_kept, tells_fragmented, tells_overflow, tells_too_long};
ghost use Rattle.link_core.specs.Told.{tells_delivered};
ghost use Rattle.link_core.specs.declared.port_tally.Brought.TheVariants.{Nothing};
ghost use Rattle.link_rules.specs.Deliveries.{is_same_port};

use crate::verdict::delivered_at;
use es_base::{MOST_PORTS, Net, PortNo, Verdict};

/// Arrival of a port's newest message: that of the frame that delivered it.
#[derive(Clone, Copy, Debug, PartialEq, Eq)]
pub struct Newest {
    /// When the frame came, in microseconds as given.
    pub time: u64,
    /// The network that brought it.
    pub net: Net,
}

/// What became of the messages for a port. Counts saturate at 2^64 - 1.
#[derive(Clone, Copy, Debug, PartialEq, Eq)]
pub struct PortCounts {
    /// Messages delivered.
    pub delivered: u64,
    /// Messages for which its queue had no room.
    pub overflowed: u64,
    /// Messages longer than it takes.
    pub too_long: u64,
    /// Messages joined of fragments, if it samples.
    pub fragmented: u64,
    /// Its newest message. None if none was delivered.
    pub newest: Option<Newest>,
}

/// The network that brought a port's newest message.
#[derive(Clone, Copy, Debug, PartialEq, Eq)]
pub enum Brought {
    /// None was delivered.
    Nothing,
    OnA,
    OnB,
}

/// Of each port of a link, how many messages were refused, and the newest one that was delivered.
#[derive(Drop)]
pub struct PortTally {
    pub(crate) overflowed: [u64; MOST_PORTS],
    pub(crate) too_long: [u64; MOST_PORTS],
    pub(crate) fragmented: [u64; MOST_PORTS],
    pub(crate) brought: [Brought; MOST_PORTS],
    /// When the frame of the newest message came, in microseconds; 0 if none was delivered.
    pub(crate) latest: [u64; MOST_PORTS],
}

impl PortTally {
    /// The state before the first event.
    pub(crate) fn new() -> PortTally
        ensures { TellsPorts result [] }
    {
        PortTally {
            overflowed: [0; MOST_PORTS],
            too_long: [0; MOST_PORTS],
            fragmented: [0; MOST_PORTS],
            brought: [Brought::Nothing; MOST_PORTS],
            latest: [0; MOST_PORTS],
        }
    }

    /// Notes an event with this verdict, whose frame came on a network at `now`, in microseconds. Most events that come
    /// to it deliver a message, so they are told first.
    pub(crate) fn note(&mut self, verdict: Verdict, net: Net, now: u64)
        requires { (port : PortNo) → tells_delivered verdict port ≡ true → port.0 < most_ports }
        ensures overflowed { (port : ℕ) → port < most_ports → slice_index_or self.new.overflowed port 0 ≡ one_more_if (tells_overflow verdict (port_no port)) (slice_index_or self.old.overflowed port 0) }
        ensures too_long { (port : ℕ) → port < most_ports → slice_index_or self.new.too_long port 0 ≡ one_more_if (tells_too_long verdict (port_no port)) (slice_index_or self.old.too_long port 0) }
        ensures fragmented { (port : ℕ) → port < most_ports → slice_index_or self.new.fragmented port 0 ≡ one_more_if (tells_fragmented verdict (port_no port)) (slice_index_or self.old.fragmented port 0) }
        ensures brought { (port : ℕ) → slice_index_or self.new.brought port Nothing ≡ (if tells_delivered verdict (port_no port) then brought_on net else slice_index_or self.old.brought port Nothing) }
        ensures latest { (port : ℕ) → slice_index_or self.new.latest port 0 ≡ (if tells_delivered verdict (port_no port) then now else slice_index_or self.old.latest port 0) }
    {
        if let Some(port) = delivered_at(verdict) {
            let place = port.0 as usize;
            self.brought[place] = brought_on(net);
            self.latest[place] = now;
        } else {
            self.note_refused(verdict);
        }
    }

    /// Counts the message of an event with this verdict, if its port refused it.
    fn note_refused(&mut self, verdict: Verdict)
        ensures overflowed { (port : ℕ) → port < most_ports → slice_index_or self.new.overflowed port 0 ≡ one_more_if (tells_overflow verdict (port_no port)) (slice_index_or self.old.overflowed port 0) }
        ensures too_long { (port : ℕ) → port < most_ports → slice_index_or self.new.too_long port 0 ≡ one_more_if (tells_too_long verdict (port_no port)) (slice_index_or self.old.too_long port 0) }
        ensures fragmented { (port : ℕ) → port < most_ports → slice_index_or self.new.fragmented port 0 ≡ one_more_if (tells_fragmented verdict (port_no port)) (slice_index_or self.old.fragmented port 0) }
        ensures newest { (self.new.brought ≡ self.old.brought) × (self.new.latest ≡ self.old.latest) }
    {
        match verdict {
            Verdict::Overflow(port) => add_at(&mut self.overflowed, port),
            Verdict::TooLong(port) => add_at(&mut self.too_long, port),
            Verdict::FragmentedSample(port) => add_at(&mut self.fragmented, port),
            _ => {}
        }
    }

    /// What became of the messages for a port, of which so many were delivered.
    pub(crate) fn counts(&self, port: PortNo, delivered: u64) -> PortCounts
        requires { port.0 < most_ports }
        ensures delivered { result.delivered ≡ delivered }
        ensures rest { AreCountsIn self.now port result }
    {
        let place = port.0 as usize;
        PortCounts {
            delivered,
            overflowed: self.overflowed[place],
            too_long: self.too_long[place],
            fragmented: self.fragmented[place],
            newest: newest_of(self.brought[place], self.latest[place]),
        }
    }
}

/// The newest message is of this network.
fn brought_on(net: Net) -> Brought
    ensures { result ≡ brought_on net }
{
    match net {
        Net::A => Brought::OnA,
        Net::B => Brought::OnB,
    }
}

/// The newest message, whose frame came at this time, in microseconds.
fn newest_of(brought: Brought, time: u64) -> Option<Newest>
    ensures { result ≡ newest_kept brought time }
{
    let net = match brought {
        Brought::Nothing => return None,
        Brought::OnA => Net::A,
        Brought::OnB => Net::B,
    };
    Some(Newest { time, net })
}

/// Counts one more at a port, if there is one.
fn add_at(counts: &mut [u64; MOST_PORTS], port: PortNo)
    ensures { (at : ℕ) → at < most_ports → slice_index_or counts.new at 0 ≡ one_more_if (is_same_port port (port_no at)) (slice_index_or counts.old at 0) }
{
    let place = port.0 as usize;
    if place < MOST_PORTS {
        counts[place] = counts[place].saturating_add(1);
    }
}
