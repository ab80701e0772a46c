//! A receiver for one task on what is awkward: the longest datagrams in pieces of 8 octets, from their end, or the last
//! piece first; pieces of four datagrams in turn, with a fifth that gives one up; bursts of frames that are out of
//! sequence or of no link; and queues that nobody takes of. A partition takes what is joined of pieces.
use crate::configs::{DEPTH, QUEUING_UDP, Shape, config_of};
use crate::digest::{Digest, mixed};
use crate::frames::{Template, datagram, pieces, whole};
use crate::outcomes::{add_verdict, cause_number};
use crate::refused;
use crate::traffic::{Flow, Traffic};
use receiver::{Net, Opened, PortOutlet, ReaderCount, Receiver, Reply, RingTaker};
use std::alloc::Global;
use std::io;

const SHAPE: Shape = Shape {
    links: 8,
    sampling: 1,
    queuing: 2,
    redundancy: true,
};

/// The payload of the longest datagram.
const LONGEST: u16 = 8192;

/// Number of frames sent in a round.
const FRAMES: u64 = 40_000;

/// Number of frames sent between two looks of the partitions.
const SPAN: u64 = 1024;

/// A datagram in pieces of 8 octets: by `way` from its end, the last piece first, or each piece in its place.
fn smallest_pieces(alloc: Global, link: u8, way: u8, seed: u64) -> io::Result<Vec<Template>> {
    let octets = datagram(alloc, QUEUING_UDP, LONGEST, mixed(seed))?;
    let mut parts = pieces(alloc, link, 0, &octets, 8)?;
    match way {
        0 => parts.reverse(),
        1 if parts.len() > 1 => parts.rotate_right(1),
        _ => {}
    }
    Ok(parts)
}

/// How many datagrams come in turn: four, and one piece of a fifth.
const IN_TURN: u16 = 5;

/// The pieces of four datagrams in turn, and after half of them one of a fifth.
fn in_turn(alloc: Global, link: u8, seed: u64) -> io::Result<Vec<Template>> {
    let mut all = Vec::new(alloc);
    for place in 0..IN_TURN - 1 {
        let chance = mixed(seed.wrapping_add(u64::from(place)));
        let octets = datagram(alloc, QUEUING_UDP, 3000, chance)?;
        all.push(pieces(alloc, link, place, &octets, 104)?)?;
    }
    let octets = datagram(alloc, QUEUING_UDP, 200, mixed(seed))?;
    let mut fifth = pieces(alloc, link, IN_TURN - 1, &octets, 104)?;
    let mut frames = Vec::new(alloc);
    for turn in 0..29usize {
        for parts in all.iter_mut() {
            if let Some(part) = parts.pop() {
                frames.push(part)?;
            }
        }
        if turn == 15 {
            if let Some(part) = fifth.pop() {
                frames.push(part)?;
            }
        }
    }
    Ok(frames)
}

/// Adds frames of no link.
fn add_of_no_link(alloc: Global, flow: &mut Flow, link: u8, seed: u64) -> io::Result<()> {
    for turn in 0..100u64 {
        let mut frame = whole(alloc, link, 7000, 40, seed.wrapping_add(turn))?;
        if let Some(octet) = frame.octets.get_mut(4) {
            *octet = 0x7f;
        }
        flow.add_whole(frame)?;
    }
    Ok(())
}

/// Adds frames for the queue that is full, of which the first half are out of sequence.
fn add_bursts(alloc: Global, flow: &mut Flow, link: u8, seed: u64) -> io::Result<()> {
    for turn in 0..100u64 {
        let mut frame = whole(alloc, link, QUEUING_UDP + 1, 200, seed.wrapping_add(turn))?;
        frame.jump = if turn < 50 { 5 } else { 0 };
        flow.add_whole(frame)?;
    }
    Ok(())
}

/// Frames that the sender of a link sends.
fn flow(alloc: Global, link: u8, seed: u64) -> io::Result<Flow> {
    let mut flow = Flow::new(alloc, false);
    let seed = mixed(seed).wrapping_add(u64::from(link));
    flow.add(smallest_pieces(alloc, link, link % 3, seed)?, 1)?;
    flow.add(in_turn(alloc, link, seed)?, IN_TURN)?;
    add_of_no_link(alloc, &mut flow, link, seed)?;
    add_bursts(alloc, &mut flow, link, seed)?;
    Ok(flow)
}

/// The senders of all links.
fn traffic(alloc: Global, seed: u64) -> io::Result<Traffic> {
    let mut traffic = Traffic::new(alloc, seed);
    for link in 0..SHAPE.links {
        traffic.add(flow(alloc, link, seed)?)?;
    }
    Ok(traffic)
}

fn add_reply(digest: &mut Digest, reply: Reply) {
    match reply {
        Reply::Filtered(cause) => digest.add(cause_number(cause)),
        Reply::Link {
            at,
            vl,
            place,
            verdict,
        } => {
            digest.add(at as u64);
            add_verdict(digest, vl, place, verdict);
        }
    }
}

/// The ends of the queues of datagrams that are joined of pieces.
fn takers_of(alloc: Global, opened: &mut Opened<PortOutlet>) -> io::Result<Vec<RingTaker>> {
    let mut takers = Vec::new(alloc);
    for link in 0..SHAPE.links {
        let name = format!(in alloc; "q{link}-0")?;
        match opened.take_taker(name.as_str()) {
            Some(taker) => takers.push(taker)?,
            None => return Err(refused()),
        }
    }
    Ok(takers)
}

/// Takes the oldest message of a queue, and adds it. False if there is none.
fn take_one(taker: &mut RingTaker, room: &mut [u8], digest: &mut Digest) -> bool {
    if room.len() < taker.max() {
        return false;
    }
    let Some(taken) = taker.take(room) else {
        return false;
    };
    digest.add(taken.time);
    if let Some(octets) = room.get(..taken.len) {
        digest.add_octets(octets);
    }
    true
}

/// Takes all that waits in a queue.
fn take_all(taker: &mut RingTaker, room: &mut [u8], digest: &mut Digest) {
    for _ in 0..DEPTH {
        if !take_one(taker, room, digest) {
            return;
        }
    }
}

/// Each partition takes all that waits in its queue.
fn take_queues(takers: &mut [RingTaker], room: &mut [u8], digest: &mut Digest) {
    for taker in takers {
        take_all(taker, room, digest);
    }
}

/// All frames, each on both networks.
pub(crate) fn run(alloc: Global, seed: u64, rounds: u64) -> io::Result<Digest> {
    let mut digest = Digest::new();
    let mut opened = Receiver::<PortOutlet>::open(
        alloc,
        &config_of(alloc, SHAPE)?,
        ReaderCount::most(),
    )?;
    let mut takers = takers_of(alloc, &mut opened)?;
    let mut room = vec![in alloc; 0u8; 8192]?;
    let mut traffic = traffic(alloc, seed)?;
    for frame in 1..=rounds.wrapping_mul(FRAMES) {
        let sent = traffic.send();
        let octets = traffic.octets(sent);
        let receiver = &mut opened.receiver;
        add_reply(&mut digest, receiver.receive(Net::A, sent.time, octets));
        add_reply(&mut digest, receiver.receive(Net::B, sent.later(), octets));
        if frame % SPAN == 0 {
            take_queues(&mut takers, &mut room, &mut digest);
        }
    }
    take_queues(&mut takers, &mut room, &mut digest);
    Ok(digest)
}
