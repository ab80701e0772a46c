//! A system that keeps no frame, with a thread for each network. Both bring the same frames, a little after one another,
//! in turn one by one and in bursts. Each thread reads half of the sampling ports and takes of half of the queues, once
//! it has brought a batch. What the digest has of them is the same, whatever the schedule, as in `networks`: sums over
//! both copies of each frame, what was read and taken but for its times, and both networks' counts together.
ghost use Rattle.std.specs.Prelude.{◌≡◌, IfOk};
ghost use Rattle.es_base.specs.declared.place.Net.TheVariants.{A, B};
ghost use Rattle.live_system.specs.System.{IsPassOf};

use crate::configs::{DEPTH, Shape, config_of};
use crate::digest::Digest;
use crate::outcomes::Replies;
use crate::pace::{BATCH, BATCHES, SKEW, wait_for};
use crate::profiles::{Profile, traffic};
use crate::refused;
use crate::traffic::{Sent, Traffic};
use es_base::{FilterCause, LinkNo, Memory, Net, VERDICT_KINDS};
use live_system::{
    LinkEnds, LiveSystem, MailboxReader, NetPass, Opened, PartitionEnd, ReaderCount, Reply,
    RingTaker, Settled,
};
use receiver::Reading;
use std::alloc::Global;
use std::io;
use std::sync::Wait;
use std::sync::atomic::{AtomicU64, Ordering};
use std::thread::{Threads, join};

const SHAPE: Shape = Shape {
    links: 16,
    sampling: 4,
    queuing: 4,
    redundancy: true,
};

const PROFILE: Profile = Profile {
    sampled: true,
    queued: true,
    fragments: true,
    flawed: true,
};

/// Number of frames of a burst.
const BURST: usize = 32;

/// Number of bursts of a batch.
const BURSTS: u64 = BATCH / BURST as u64;

/// How many times as many batches come in a round as in `networks`, whose frames take longer.
const TIMES: u64 = 4;

/// Room for the longest message, in octets.
const ROOM: usize = 8192;

/// Reply of an entry that wasn't written.
const NOTHING: Reply = Reply::Filtered(FilterCause::TooShort);

/// The end of a queue, and what was taken of it.
#[derive(Drop)]
struct Queue {
    taker: RingTaker,
    digest: Digest,
}

impl Queue {
    /// Takes all that waits.
    fn take_all(&mut self, room: &mut [u8]) {
        if room.len() < self.taker.max() {
            return;
        }
        for _ in 0..DEPTH {
            self.take(room);
        }
    }

    /// Takes a message, if one waits.
    fn take(&mut self, room: &mut [u8]) {
        if room.len() < self.taker.max() {
            return;
        }
        let Some(taken) = self.taker.take(room) else {
            return;
        };
        if let Some(octets) = room.get(..taken.len) {
            self.digest.add_octets(octets);
        }
    }
}

/// Adds the newest message of a port.
fn add_newest(digest: &mut Digest, reader: &mut MailboxReader, room: &mut [u8]) {
    match reader.read(0, room) {
        Reading::Message { number, len, .. } => {
            digest.add(number);
            if let Some(octets) = room.get(..len) {
                digest.add_octets(octets);
            }
        }
        Reading::Empty => digest.add(1),
    }
}

/// Share of a thread, beside its network's pass: the ends of half of the ports, with digests of them and of its frames.
#[derive(Drop)]
struct Share {
    queues: Vec<Queue>,
    readers: Vec<MailboxReader>,
    room: Vec<u8>,
    read: Digest,
    replies: Replies,
}

impl Share {
    fn new(alloc: Global) -> Result<Share, Memory> {
        Ok(Share {
            queues: Vec::new(alloc),
            readers: Vec::new(alloc),
            room: vec![in alloc; 0u8; ROOM]?,
            read: Digest::new(),
            replies: Replies::new(),
        })
    }

    fn add_end(&mut self, end: PartitionEnd) -> Result<(), Memory> {
        let mut end = end;
        if let Some(reader) = end.take_reader() {
            self.readers.push(reader)?;
        }
        if let Some(taker) = end.take_taker() {
            self.queues.push(Queue {
                taker,
                digest: Digest::new(),
            })?;
        }
        Ok(())
    }

    /// Takes all that waits in the queues.
    fn take_all(&mut self) {
        for queue in self.queues.iter_mut() {
            queue.take_all(&mut self.room);
        }
    }

    /// Reads the newest message of each port.
    fn read_all(&mut self) {
        for reader in self.readers.iter_mut() {
            add_newest(&mut self.read, reader, &mut self.room);
        }
    }
}

/// The ends of every other link, for each thread.
fn shares_of(alloc: Global, ends: Vec<LinkEnds<PartitionEnd>>) -> Result<(Share, Share), Memory> {
    let mut even = Share::new(alloc)?;
    let mut odd = Share::new(alloc)?;
    for link in ends {
        let is_odd = link.vl.0 % 2 == 1;
        for end in link.ports {
            let share = if is_odd { &mut odd } else { &mut even };
            share.add_end(end.reads)?;
        }
    }
    Ok((even, odd))
}

/// How much later than on network A the frames of a network come, in microseconds.
fn late_on(net: Net) -> u64 {
    if net == Net::A { 0 } else { SKEW }
}

/// Gives the frames of one batch to their links, one by one.
fn give_each<R: Wait>(
    rt: &R,
    system: &LiveSystem,
    pass: &mut NetPass,
    traffic: &mut Traffic,
    replies: &mut Replies,
)
    requires { IsPassOf system.now pass.old }
    ensures own { IsPassOf system.now pass.new }
    ensures net { pass.new.net ≡ pass.old.net }
{
    let late = late_on(pass.net());
    'frames: for _ in 0..BATCH {
        let sent = traffic.send();
        let time = sent.time.wrapping_add(late);
        let reply = system.receive(rt, pass, time, traffic.octets(sent));
        replies.add_live(sent.number, reply);
    }
}

/// Sends the frames of a burst. No link sends one of its templates twice in so few frames, so their octets stay.
fn send_burst(traffic: &mut Traffic) -> [Sent; BURST] {
    let mut burst = [Sent::NOTHING; BURST];
    for sent in burst.iter_mut() {
        *sent = traffic.send();
    }
    burst
}

/// The frames of a burst, each at its time.
fn frames_of<'a>(
    traffic: &'a Traffic,
    burst: &[Sent; BURST],
    late: u64,
) -> [(u64, &'a [u8]); BURST] {
    let nothing: &[u8] = &[];
    let mut frames = [(0u64, nothing); BURST];
    for place in 0..BURST {
        let sent = burst[place];
        frames[place] = (sent.time.wrapping_add(late), traffic.octets(sent));
    }
    frames
}

/// Gives the frames of one burst to their links.
fn give_burst<R: Wait>(
    rt: &R,
    system: &LiveSystem,
    pass: &mut NetPass,
    traffic: &mut Traffic,
    replies: &mut Replies,
)
    requires { IsPassOf system.now pass.old }
    ensures own { IsPassOf system.now pass.new }
    ensures net { pass.new.net ≡ pass.old.net }
{
    let burst = send_burst(traffic);
    let frames = frames_of(traffic, &burst, late_on(pass.net()));
    let mut answers = [NOTHING; BURST];
    system.receive_all(rt, pass, &frames, &mut answers);
    for place in 0..BURST {
        replies.add_live(burst[place].number, answers[place]);
    }
}

/// Gives the frames of one batch to their links, in bursts.
fn give_bursts<R: Wait>(
    rt: &R,
    system: &LiveSystem,
    pass: &mut NetPass,
    traffic: &mut Traffic,
    replies: &mut Replies,
)
    requires { IsPassOf system.now pass.old }
    ensures own { IsPassOf system.now pass.new }
    ensures net { pass.new.net ≡ pass.old.net }
{
    'bursts: for _ in 0..BURSTS {
        give_burst(rt, system, pass, traffic, replies);
    }
}

/// Gives the frames of the batch with this number: one by one, or in bursts, in turn.
fn give_batch<R: Wait>(
    rt: &R,
    system: &LiveSystem,
    pass: &mut NetPass,
    traffic: &mut Traffic,
    replies: &mut Replies,
    batch: u64,
)
    requires { IsPassOf system.now pass.old }
    ensures own { IsPassOf system.now pass.new }
    ensures net { pass.new.net ≡ pass.old.net }
{
    if batch % 2 == 0 {
        give_each(rt, system, pass, traffic, replies);
    } else {
        give_bursts(rt, system, pass, traffic, replies);
    }
}

/// Result of a thread.
#[derive(Drop)]
struct Ended {
    pass: NetPass,
    share: Share,
}

/// All batches of a network.
fn give_all<R: Wait>(
    rt: &R,
    system: &LiveSystem,
    mut pass: NetPass,
    mut traffic: Traffic,
    mut share: Share,
    batches: u64,
    own: &AtomicU64,
    other: &AtomicU64,
) -> Ended
    requires { IsPassOf system.now pass }
    ensures own { IsPassOf system.now result.pass }
    ensures net { result.pass.net ≡ pass.net }
{
    'batches: for batch in 0..batches {
        wait_for(rt, other, batch);
        let replies = &mut share.replies;
        give_batch(rt, system, &mut pass, &mut traffic, replies, batch);
        share.take_all();
        share.read_all();
        own.store(batch + 1, Ordering::SeqCst);
    }
    Ended { pass, share }
}

/// Adds the counts of each link.
fn add_settled(digest: &mut Digest, settled: &Settled) {
    for link in settled.links.iter() {
        add_counts(digest, settled, link.settings().vl());
        digest.add(link.received());
        digest.add(link.given_up());
    }
}

/// Adds the counts of the link with this number, of both networks together.
fn add_counts(digest: &mut Digest, settled: &Settled, vl: LinkNo) {
    for kind in 1..=VERDICT_KINDS {
        let on_a = settled.a.count(vl, kind);
        digest.add(on_a.wrapping_add(settled.b.count(vl, kind)));
    }
}

/// Adds the digests of both threads' ports, and of all frames.
fn add_shares(digest: &mut Digest, a: &Share, b: &Share) {
    for queue in a.queues.iter().chain(b.queues.iter()) {
        digest.add(queue.digest.sum);
    }
    digest.add(a.read.sum);
    digest.add(b.read.sum);
    digest.add(a.replies.verdicts.wrapping_add(b.replies.verdicts));
    digest.add(a.replies.places.wrapping_add(b.replies.places));
}

/// A system with one reader of each sampling port.
fn open(alloc: Global) -> io::Result<Opened>
    ensures own { IfOk result (λ opened. IsPassOf opened.system opened.a × IsPassOf opened.system opened.b) }
    ensures nets { IfOk result (λ opened. (opened.a.net ≡ A) × (opened.b.net ≡ B)) }
{
    let readers = ReaderCount::new(1).ok_or_else(refused)?;
    Ok(LiveSystem::open(alloc, &config_of(alloc, SHAPE)?, readers)?)
}

/// Both networks, to their end.
pub(crate) fn run<R: Threads + Wait + Sync>(
    rt: &R,
    alloc: Global,
    seed: u64,
    rounds: u64,
) -> io::Result<Digest> {
    let Opened {
        system,
        a: pass_a,
        b: pass_b,
        ends,
    } = open(alloc)?;
    let (share_a, share_b) = shares_of(alloc, ends)?;
    let sent_a = traffic(alloc, SHAPE, PROFILE, seed)?;
    let sent_b = traffic(alloc, SHAPE, PROFILE, seed)?;
    let batches = rounds.wrapping_mul(BATCHES).wrapping_mul(TIMES);
    let shared = &system;
    let (ended_a, ended_b) = (AtomicU64::new(0), AtomicU64::new(0));
    let (at_a, at_b) = (&ended_a, &ended_b);
    let (a, b) = join(
        rt,
        move ||
            requires { IsPassOf shared.now pass_a × (pass_a.net ≡ A) }
            ensures { IsPassOf shared.entry.now result.pass × (result.pass.net ≡ A) }
        { give_all(rt, shared, pass_a, sent_a, share_a, batches, at_a, at_b) },
        move ||
            requires { IsPassOf shared.now pass_b × (pass_b.net ≡ B) }
            ensures { IsPassOf shared.entry.now result.pass × (result.pass.net ≡ B) }
        { give_all(rt, shared, pass_b, sent_b, share_b, batches, at_b, at_a) },
    );
    let mut digest = Digest::new();
    add_shares(&mut digest, &a.share, &b.share);
    add_settled(&mut digest, &system.settle(a.pass, b.pass));
    Ok(digest)
}
