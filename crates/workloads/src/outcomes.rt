//! What became of frames, as numbers.
use crate::digest::{Digest, mixed};
use crate::partitions::add_message;
use end_system::Reply;
use es_base::{
    Event, FilterCause, LinkNo, Memory, Net, PortNo, VERDICT_KINDS, Verdict, VerdictTally,
};
use link_receiver::{Epoch, LinkState};
use std::alloc::Global;

/// A verdict: its kind, its port, and its cause or message number.
pub(crate) fn verdict_number(verdict: Verdict) -> u64 {
    let (port, more) = match verdict {
        Verdict::BadHeader(fault) => (0, fault as u64),
        Verdict::Sampled(port, number) => (port.0, number),
        Verdict::TooLong(port)
        | Verdict::FragmentedSample(port)
        | Verdict::Queued(port)
        | Verdict::Overflow(port)
        | Verdict::Exhausted(port) => (port.0, 0),
        Verdict::OutOfSequence
        | Verdict::Redundant
        | Verdict::BadFragment
        | Verdict::FragmentHeld
        | Verdict::BadUdp
        | Verdict::NoPort => (0, 0),
    };
    more << 16 | u64::from(port) << 8 | verdict.kind() as u64
}

/// Why a frame was filtered. No verdict has this number.
pub(crate) fn cause_number(cause: FilterCause) -> u64 {
    100u64.wrapping_add(cause.kind() as u64)
}

/// Adds what became of a frame of a link.
pub(crate) fn add_verdict(digest: &mut Digest, vl: LinkNo, place: u64, verdict: Verdict) {
    digest.add(u64::from(vl.0));
    digest.add(place);
    digest.add(verdict_number(verdict));
}

/// When a frame came, and on which network.
pub(crate) fn arrival_number(net: Net, time: u64) -> u64 {
    time << 1 | u64::from(net == Net::B)
}

/// Adds an event whole.
fn add_event(digest: &mut Digest, event: &Event) {
    digest.add(arrival_number(event.net, event.time));
    digest.add(verdict_number(event.verdict) << 1 | u64::from(event.room));
    digest.add_octets(event.frame.as_slice());
}

/// Adds an epoch, as one who writes it away looks at it: all but its settings, which are those of the configuration.
pub(crate) fn add_epoch(digest: &mut Digest, epoch: &Epoch) {
    digest.add(epoch.first());
    let events = epoch.events();
    for place in 0..events.len() {
        if let Some(event) = events.get(place) {
            add_event(digest, event);
        }
    }
}

/// Adds what a link's history delivered to each of its ports.
pub(crate) fn add_deliveries(
    alloc: Global,
    digest: &mut Digest,
    link: &LinkState,
    ports: u8,
) -> Result<(), Memory> {
    for port in 0..ports {
        for message in link.deliveries(alloc, PortNo(port))? {
            add_message(digest, &message);
        }
    }
    Ok(())
}

/// Adds the counts of a link, of both networks together.
pub(crate) fn add_tally(digest: &mut Digest, tally: &VerdictTally) {
    for kind in 1..=VERDICT_KINDS {
        let on_a = tally.count(Net::A, kind);
        digest.add(on_a.wrapping_add(tally.count(Net::B, kind)));
    }
}

/// Sums over the replies to both copies of each frame.
#[derive(Clone, Copy, Drop)]
pub(crate) struct Replies {
    pub verdicts: u64,
    pub places: u64,
}

impl Replies {
    pub(crate) fn new() -> Replies {
        Replies {
            verdicts: 0,
            places: 0,
        }
    }

    /// Adds the reply to a copy of the frame with this number.
    pub(crate) fn add(&mut self, frame: u64, reply: Reply) {
        match reply {
            Reply::Filtered(cause) => self.add_number(frame, cause_number(cause)),
            Reply::Link { vl, place, verdict } => self.add_event(frame, vl, place, verdict),
        }
    }

    /// Adds a reply of a system that keeps no frame.
    pub(crate) fn add_live(&mut self, frame: u64, reply: live_system::Reply) {
        match reply {
            live_system::Reply::Filtered(cause) => self.add_number(frame, cause_number(cause)),
            live_system::Reply::Link {
                at: _,
                vl,
                place,
                verdict,
            } => self.add_event(frame, vl, place, verdict),
        }
    }

    fn add_event(&mut self, frame: u64, vl: LinkNo, place: u64, verdict: Verdict) {
        let place = mixed(mixed(u64::from(vl.0)) ^ place);
        self.places = self.places.wrapping_add(place);
        self.add_number(frame, verdict_number(verdict));
    }

    fn add_number(&mut self, frame: u64, number: u64) {
        let verdict = mixed(mixed(frame) ^ number);
        self.verdicts = self.verdicts.wrapping_add(verdict);
    }
}
