//! An end system with a thread for each network. Both bring the same frames, a little after one another, so both ask
//! for one link at about the same time. Each thread reads half of the sampling ports and takes of half of the queues,
//! once it has brought a batch. The threads wait for each other so often that each frame is forwarded once, whichever
//! copy comes first, and so that what is read and taken is the same, whatever the schedule.
//!
//! Which copy comes first is up to the threads. So the digest has sums over both copies of each frame: over their
//! verdicts, and over their places among all events of their link. Left out are which of both verdicts and places is
//! which copy's, the order of the events, and the times of messages, which are those of the copy that came first. Of
//! the histories, which repeat what was given and replied, it has the events of the first link, and what was delivered
//! to the first queuing port of each.
ghost use Rattle.std.specs.Prelude.{◌≡◌, IfOk};
ghost use Rattle.es_base.specs.declared.place.Net.TheVariants.{A, B};
ghost use Rattle.end_system.specs.System.{IsPassOf};

use crate::configs::{DEPTH, Shape, config_of};
use crate::digest::{Digest, digest_of, mixed};
use crate::outcomes::{Replies, add_tally, arrival_number, verdict_number};
use crate::pace::{BATCH, BATCHES, SKEW, wait_for};
use crate::partitions::{first_of, read_newest};
use crate::profiles::{Profile, traffic};
use crate::traffic::Traffic;
use end_system::{EndSystem, LinkEnds, NetPass, NoGate, Opened, Settled};
use es_base::{Memory, Net, PortNo};
use link_receiver::{LinkState, PortEnd};
use queuing_port::Taker;
use sampling_port::Reader;
use slot_core::READERS;
use std::alloc::Global;
use std::io;
use std::sync::Wait;
use std::sync::atomic::{AtomicU64, Ordering};
use std::thread::{Threads, join};

const SHAPE: Shape = Shape {
    links: 16,
    sampling: 4,
    queuing: 4,
    redundancy: true,
};

const PROFILE: Profile = Profile {
    sampled: true,
    queued: true,
    fragments: true,
    flawed: true,
};

/// The end of a queue, and what was taken of it.
#[derive(Drop)]
struct Queue {
    taker: Taker,
    digest: Digest,
}

impl Queue {
    /// Takes all that waits.
    fn take_all<R: Wait>(&mut self, rt: &R) {
        for _ in 0..DEPTH {
            let Some(message) = self.taker.take(rt) else {
                return;
            };
            self.digest.add_octets(message.octets.as_slice());
        }
    }
}

/// Share of a thread, beside its network's pass: the ends of half of the ports, with digests of them and of its frames.
#[derive(Drop)]
struct Share {
    queues: Vec<Queue>,
    readers: Vec<Reader<READERS>>,
    read: Digest,
    replies: Replies,
}

impl Share {
    fn new(alloc: Global) -> Share {
        Share {
            queues: Vec::new(alloc),
            readers: Vec::new(alloc),
            read: Digest::new(),
            replies: Replies::new(),
        }
    }

    fn add_end(&mut self, end: PortEnd) -> Result<(), Memory> {
        match end {
            PortEnd::Queuing { taker, .. } => self.queues.push(Queue {
                taker,
                digest: Digest::new(),
            })?,
            PortEnd::Sampling { readers, .. } => self.readers.push(first_of(readers))?,
        }
        Ok(())
    }

    /// Takes all that waits in the queues.
    fn take_all<R: Wait>(&mut self, rt: &R) {
        for queue in self.queues.iter_mut() {
            queue.take_all(rt);
        }
    }

    /// Reads the newest message of each port.
    fn read_all(&mut self) {
        let mut room = [0; 1471];
        for reader in self.readers.iter_mut() {
            let _time = read_newest(reader, &mut room, &mut self.read);
        }
    }
}

/// The ends of every other link, for each thread.
fn shares_of(alloc: Global, ends: Vec<LinkEnds>) -> Result<(Share, Share), Memory> {
    let mut even = Share::new(alloc);
    let mut odd = Share::new(alloc);
    for link in ends {
        let is_odd = link.vl.0 % 2 == 1;
        for end in link.ports {
            let share = if is_odd { &mut odd } else { &mut even };
            share.add_end(end)?;
        }
    }
    Ok((even, odd))
}

/// Result of a thread.
#[derive(Drop)]
struct Ended {
    pass: NetPass,
    share: Share,
}

/// Gives the frames of one batch to their links.
fn give_batch<R: Wait>(
    rt: &R,
    alloc: Global,
    system: &EndSystem<NoGate>,
    pass: &mut NetPass,
    traffic: &mut Traffic,
    replies: &mut Replies,
) -> Result<(), Memory>
    requires { IsPassOf system.now pass.old }
    ensures own { IsPassOf system.now pass.new }
    ensures net { pass.new.net ≡ pass.old.net }
{
    let late = if pass.net() == Net::A { 0 } else { SKEW };
    for _ in 0..BATCH {
        let sent = traffic.send();
        let time = sent.time.wrapping_add(late);
        let reply = system.receive(rt, alloc, pass, time, traffic.octets(sent))?;
        replies.add(sent.number, reply);
    }
    Ok(())
}

/// All batches of a network.
fn give_all<R: Wait>(
    rt: &R,
    alloc: Global,
    system: &EndSystem<NoGate>,
    mut pass: NetPass,
    mut traffic: Traffic,
    mut share: Share,
    batches: u64,
    own: &AtomicU64,
    other: &AtomicU64,
) -> Result<Ended, Memory>
    requires { IsPassOf system.now pass }
    ensures own { IfOk result (λ ended. IsPassOf system.now ended.pass) }
    ensures net { IfOk result (λ ended. ended.pass.net ≡ pass.net) }
{
    for batch in 0..batches {
        wait_for(rt, other, batch);
        give_batch(
            rt,
            alloc,
            system,
            &mut pass,
            &mut traffic,
            &mut share.replies,
        )?;
        share.take_all(rt);
        share.read_all();
        own.store(batch + 1, Ordering::SeqCst);
    }
    Ok(Ended { pass, share })
}

/// The same. The other thread waits for this one no more, memory or not.
fn run_network<R: Wait>(
    rt: &R,
    alloc: Global,
    system: &EndSystem<NoGate>,
    pass: NetPass,
    traffic: Traffic,
    share: Share,
    batches: u64,
    own: &AtomicU64,
    other: &AtomicU64,
) -> Result<Ended, Memory>
    requires { IsPassOf system.now pass }
    ensures own { IfOk result (λ ended. IsPassOf system.now ended.pass) }
    ensures net { IfOk result (λ ended. ended.pass.net ≡ pass.net) }
{
    let ended = give_all(rt, alloc, system, pass, traffic, share, batches, own, other);
    own.store(u64::MAX, Ordering::SeqCst);
    ended
}

/// The events of a link as two sums: over frames with their arrivals, and over frames with their verdicts.
fn add_events(digest: &mut Digest, link: &LinkState) {
    let (mut arrivals, mut verdicts) = (0u64, 0u64);
    let history = link.history();
    for place in 0..history.len() {
        if let Some(event) = history.get(place) {
            let frame = digest_of(event.frame.as_slice());
            let arrival = mixed(frame ^ mixed(arrival_number(event.net, event.time)));
            let verdict = verdict_number(event.verdict) << 1 | u64::from(event.room);
            let verdict = mixed(frame ^ mixed(verdict));
            arrivals = arrivals.wrapping_add(arrival);
            verdicts = verdicts.wrapping_add(verdict);
        }
    }
    digest.add(arrivals);
    digest.add(verdicts);
}

/// Counts of both networks together, and what was delivered to the first queuing port of the link.
fn add_link(alloc: Global, digest: &mut Digest, link: &LinkState) -> Result<(), Memory> {
    add_tally(digest, link.tally());
    digest.add(link.history().len() as u64);
    for message in link.deliveries(alloc, PortNo(SHAPE.sampling))? {
        digest.add_octets(message.octets.as_slice());
    }
    Ok(())
}

fn add_settled(alloc: Global, digest: &mut Digest, settled: &Settled) -> Result<(), Memory> {
    for link in settled.links.iter() {
        add_link(alloc, digest, link)?;
    }
    if let Some(first) = settled.links.first() {
        add_events(digest, first);
    }
    Ok(())
}

/// Adds the digests of both threads' ports, and of all frames.
fn add_shares(digest: &mut Digest, a: Share, b: Share) {
    for queue in a.queues.iter().chain(b.queues.iter()) {
        digest.add(queue.digest.sum);
    }
    digest.add(a.read.sum);
    digest.add(b.read.sum);
    digest.add(a.replies.verdicts.wrapping_add(b.replies.verdicts));
    digest.add(a.replies.places.wrapping_add(b.replies.places));
}

/// Both networks, to their end.
pub(crate) fn run<R: Threads + Wait + Sync>(
    rt: &R,
    alloc: Global,
    seed: u64,
    rounds: u64,
) -> io::Result<Digest> {
    let Opened {
        system,
        a: pass_a,
        b: pass_b,
        ends,
    } = EndSystem::open(alloc, &config_of(alloc, SHAPE)?, NoGate)?;
    let (share_a, share_b) = shares_of(alloc, ends)?;
    let sent_a = traffic(alloc, SHAPE, PROFILE, seed)?;
    let sent_b = traffic(alloc, SHAPE, PROFILE, seed)?;
    let batches = rounds.wrapping_mul(BATCHES);
    let shared = &system;
    let (ended_a, ended_b) = (AtomicU64::new(0), AtomicU64::new(0));
    let (at_a, at_b) = (&ended_a, &ended_b);
    let (a, b) = join(
        rt,
        move ||
            requires { IsPassOf shared.now pass_a × (pass_a.net ≡ A) }
            ensures { IfOk result (λ ended. IsPassOf shared.entry.now ended.pass × (ended.pass.net ≡ A)) }
        {
            run_network(
                rt, alloc, shared, pass_a, sent_a, share_a, batches, at_a, at_b,
            )
        },
        move ||
            requires { IsPassOf shared.now pass_b × (pass_b.net ≡ B) }
            ensures { IfOk result (λ ended. IsPassOf shared.entry.now ended.pass × (ended.pass.net ≡ B)) }
        {
            run_network(
                rt, alloc, shared, pass_b, sent_b, share_b, batches, at_b, at_a,
            )
        },
    );
    let (a, b) = (a?, b?);
    let mut digest = Digest::new();
    let settled = system.settle(a.pass, b.pass);
    add_shares(&mut digest, a.share, b.share);
    add_settled(alloc, &mut digest, &settled)?;
    Ok(digest)
}
