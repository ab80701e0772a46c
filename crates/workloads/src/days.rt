//! An end system that goes on for days: one thread brings the frames of both networks, partitions read and take beside
//! it, and each link's epoch is taken out before it is long.
use crate::configs::{Shape, config_of, link_number};
use crate::digest::Digest;
use crate::outcomes::{add_deliveries, add_epoch, add_verdict, cause_number};
use crate::partitions::{first_of, read_newest, take_all};
use crate::profiles::{Profile, traffic};
use crate::refused;
use end_system::{NoGate, Reply};
use es_base::{LinkNo, Net, VERDICT_KINDS};
use link_receiver::PortEnd;
use queuing_port::Taker;
use sampling_port::Reader;
use slot_core::READERS;
use std::alloc::Global;
use std::io;
use std::sync::Wait;
use test_inputs_end_system::Running;

const SHAPE: Shape = Shape {
    links: 16,
    sampling: 4,
    queuing: 4,
    redundancy: true,
};

const PROFILE: Profile = Profile {
    sampled: true,
    queued: true,
    fragments: true,
    flawed: true,
};

/// Number of frames sent between two epochs: some 50 on each link, each of which comes twice.
const SPAN: u64 = 800;

/// Number of epochs of a round.
const EPOCHS: u64 = 11;

/// Ends of the ports that the partitions have.
#[derive(Drop)]
struct Partitions {
    readers: Vec<Reader<READERS>>,
    takers: Vec<Taker>,
}

fn add_end(partitions: &mut Partitions, end: Option<PortEnd>) -> io::Result<()> {
    match end {
        Some(PortEnd::Sampling { readers, .. }) => {
            partitions.readers.push(first_of(readers))?;
            Ok(())
        }
        Some(PortEnd::Queuing { taker, .. }) => {
            partitions.takers.push(taker)?;
            Ok(())
        }
        None => Err(refused()),
    }
}

/// The ends of all ports.
fn partitions_of(alloc: Global, running: &mut Running<NoGate>) -> io::Result<Partitions> {
    let mut partitions = Partitions {
        readers: Vec::new(alloc),
        takers: Vec::new(alloc),
    };
    for link in 0..SHAPE.links {
        for place in 0..SHAPE.sampling {
            let name = format!(in alloc; "s{link}-{place}")?;
            add_end(&mut partitions, running.take_end(name.as_str()))?;
        }
        for place in 0..SHAPE.queuing {
            let name = format!(in alloc; "q{link}-{place}")?;
            add_end(&mut partitions, running.take_end(name.as_str()))?;
        }
    }
    Ok(partitions)
}

/// Each partition reads the newest message of its port.
fn read_ports(readers: &mut [Reader<READERS>], digest: &mut Digest) {
    let mut room = [0; 1471];
    for reader in readers {
        let time = read_newest(reader, &mut room, digest);
        digest.add(time);
    }
}

/// Each partition takes all messages of its queue.
fn take_queues<R: Wait>(rt: &R, takers: &mut [Taker], digest: &mut Digest) {
    for taker in takers {
        take_all(rt, taker, digest);
    }
}

fn add_reply(digest: &mut Digest, reply: Reply) {
    match reply {
        Reply::Filtered(cause) => digest.add(cause_number(cause)),
        Reply::Link { vl, place, verdict } => add_verdict(digest, vl, place, verdict),
    }
}

/// Takes the epochs of all links out.
fn take_epochs<R: Wait>(
    rt: &R,
    alloc: Global,
    running: &mut Running<NoGate>,
    digest: &mut Digest,
) -> io::Result<()> {
    for link in 0..SHAPE.links {
        match running.take_epoch(rt, alloc, Net::A, LinkNo(link_number(link))) {
            Ok(Some(epoch)) => add_epoch(digest, &epoch),
            _ => return Err(refused()),
        }
    }
    Ok(())
}

/// Adds the counts of a system that has ended, and the messages that its last histories delivered to each port.
fn add_settled(alloc: Global, running: Running<NoGate>, digest: &mut Digest) -> io::Result<()> {
    let settled = running.settle();
    for link in settled.links.iter() {
        for kind in 1..=VERDICT_KINDS {
            digest.add(link.tally().count(Net::A, kind));
            digest.add(link.tally().count(Net::B, kind));
        }
        add_deliveries(alloc, digest, link, SHAPE.sampling + SHAPE.queuing)?;
    }
    Ok(())
}

/// The system, from its opening to its end.
pub(crate) fn run<R: Wait>(rt: &R, alloc: Global, seed: u64, rounds: u64) -> io::Result<Digest> {
    let mut digest = Digest::new();
    let mut running = Running::open(alloc, &config_of(alloc, SHAPE)?, NoGate)?;
    let mut partitions = partitions_of(alloc, &mut running)?;
    let mut traffic = traffic(alloc, SHAPE, PROFILE, seed)?;
    let frames = rounds.wrapping_mul(EPOCHS).wrapping_mul(SPAN);
    for frame in 1..=frames {
        let sent = traffic.send();
        let octets = traffic.octets(sent);
        let reply = running.receive(rt, alloc, Net::A, sent.time, octets)?;
        add_reply(&mut digest, reply);
        let reply = running.receive(rt, alloc, Net::B, sent.later(), octets)?;
        add_reply(&mut digest, reply);
        if frame % 64 == 0 {
            read_ports(&mut partitions.readers, &mut digest);
            take_queues(rt, &mut partitions.takers, &mut digest);
        }
        if frame % SPAN == 0 && frame < frames {
            take_epochs(rt, alloc, &mut running, &mut digest)?;
        }
    }
    add_settled(alloc, running, &mut digest)?;
    Ok(digest)
}
