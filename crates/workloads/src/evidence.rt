//! Link states that are kept for evidence: one thread brings the frames of both networks, each link's epoch is taken
//! out often, and some frames later what was delivered to each port since then is worked out. Pieces are lost, so
//! datagrams nearly always wait when an epoch is taken out.
use crate::configs::{Shape, config_of};
use crate::digest::Digest;
use crate::outcomes::{add_deliveries, add_epoch, add_verdict};
use crate::partitions::take_all;
use crate::profiles::{Profile, traffic};
use crate::refused;
use es_base::{Config, Net};
use frame_reader::read_frame;
use link_receiver::{LinkState, PortEnd};
use std::alloc::Global;
use std::io;
use std::sync::Wait;

const SHAPE: Shape = Shape {
    links: 16,
    sampling: 4,
    queuing: 4,
    redundancy: true,
};

const PROFILE: Profile = Profile {
    sampled: true,
    queued: true,
    fragments: true,
    flawed: true,
};

/// Number of frames sent between two epochs: some 20 on each link, each of which comes twice.
const SPAN: u64 = 320;

/// Number of frames sent after an epoch before what was delivered is worked out.
const LATER: u64 = 80;

/// Number of epochs of a round.
const EPOCHS: u64 = 11;

/// A link, and the ends of its ports.
#[derive(Drop)]
struct Link {
    state: LinkState,
    ends: Vec<PortEnd>,
}

/// The links of a configuration.
fn open(alloc: Global, config: &Config) -> io::Result<Vec<Link>> {
    let mut links = Vec::new(alloc);
    for settings in config.links() {
        let (state, ends) = LinkState::new(alloc, settings)?;
        links.push(Link { state, ends })?;
    }
    Ok(links)
}

impl Link {
    /// Takes a frame, if it is one of this link.
    fn take<R: Wait>(
        &mut self,
        rt: &R,
        alloc: Global,
        constant: [u8; 4],
        net: Net,
        time: u64,
        octets: &[u8],
        digest: &mut Digest,
    ) -> io::Result<()> {
        let frame = match read_frame(constant, octets) {
            Ok(frame) => frame,
            Err(fault) => {
                digest.add(fault as u64);
                return Ok(());
            }
        };
        if frame.vl != self.state.settings().vl() {
            return Err(refused());
        }
        let verdict = self.state.take(rt, alloc, net, time, &frame)?;
        let place = self.state.history().len() as u64;
        add_verdict(digest, frame.vl, place, verdict);
        Ok(())
    }

    /// Takes all messages of the queues.
    fn take_queues<R: Wait>(&mut self, rt: &R, digest: &mut Digest) {
        for end in self.ends.iter_mut() {
            if let PortEnd::Queuing { taker, .. } = end {
                take_all(rt, taker, digest);
            }
        }
    }

    /// Adds the messages that were delivered since the last epoch, and those that wait in the queues.
    fn look<R: Wait>(&mut self, rt: &R, alloc: Global, digest: &mut Digest) -> io::Result<()> {
        let ports = SHAPE.sampling + SHAPE.queuing;
        add_deliveries(alloc, digest, &self.state, ports)?;
        self.take_queues(rt, digest);
        Ok(())
    }

    /// Takes its epoch out.
    fn take_epoch(&mut self, alloc: Global, digest: &mut Digest) -> io::Result<()> {
        match self.state.take_epoch(alloc) {
            Ok(epoch) => {
                add_epoch(digest, &epoch);
                Ok(())
            }
            Err(_) => Err(refused()),
        }
    }
}

/// Adds the messages that were delivered to the ports of all links.
fn look_at_all<R: Wait>(
    rt: &R,
    alloc: Global,
    links: &mut [Link],
    digest: &mut Digest,
) -> io::Result<()> {
    for link in links {
        link.look(rt, alloc, digest)?;
    }
    Ok(())
}

/// Takes the epochs of all links out.
fn take_epochs(alloc: Global, links: &mut [Link], digest: &mut Digest) -> io::Result<()> {
    for link in links {
        link.take_epoch(alloc, digest)?;
    }
    Ok(())
}

/// All frames, each on both networks, and the epochs.
pub(crate) fn run<R: Wait>(rt: &R, alloc: Global, seed: u64, rounds: u64) -> io::Result<Digest> {
    let mut digest = Digest::new();
    let config = config_of(alloc, SHAPE)?;
    let constant = config.constant();
    let mut links = open(alloc, &config)?;
    let mut traffic = traffic(alloc, SHAPE, PROFILE, seed)?;
    for frame in 1..=rounds.wrapping_mul(EPOCHS).wrapping_mul(SPAN) {
        let sent = traffic.send();
        let octets = traffic.octets(sent);
        if let Some(link) = links.get_mut(sent.link) {
            let (time, later) = (sent.time, sent.later());
            link.take(rt, alloc, constant, Net::A, time, octets, &mut digest)?;
            link.take(rt, alloc, constant, Net::B, later, octets, &mut digest)?;
        }
        if frame % SPAN == LATER {
            look_at_all(rt, alloc, &mut links, &mut digest)?;
        }
        if frame % SPAN == 0 {
            take_epochs(alloc, &mut links, &mut digest)?;
        }
    }
    Ok(digest)
}
