//! A receiver for one task, by the slots that programs in C have of it: both copies of each frame, and partitions that
//! read, look and take, most of them with nothing newer. With one link of 8 ports, and with 64 links of 32.
use crate::configs::{Shape, config_text};
use crate::digest::Digest;
use crate::profiles::{Profile, traffic};
use crate::refused;
use crate::traffic::Traffic;
use receiver::{Freshness, Latest, MailboxReader, Reading};
use receiver_slots::{FaultReply, FrameReply, ReaderSlot, ReceiverSlot, TakeReply, TakerSlot};
use std::alloc::Global;
use std::io;

const ONE_LINK: Shape = Shape {
    links: 1,
    sampling: 4,
    queuing: 4,
    redundancy: true,
};

const ALL_LINKS: Shape = Shape {
    links: 64,
    sampling: 16,
    queuing: 16,
    redundancy: true,
};

const PROFILE: Profile = Profile {
    sampled: true,
    queued: true,
    fragments: true,
    flawed: true,
};

/// Number of frames sent in a round, with each configuration.
const FRAMES: u64 = 7000;

/// A receiver, and the ends of its ports that partitions have.
#[derive(Drop)]
struct Receiving {
    receiver: ReceiverSlot,
    readers: Vec<MailboxReader>,
    takers: Vec<TakerSlot>,
    /// Room for a message.
    room: Vec<u8>,
}

/// The code of a call that did what was asked for.
const DONE: u32 = 0;

fn nothing_taken() -> TakeReply {
    TakeReply {
        found: 0,
        time: 0,
        len: 0,
        lost: 0,
    }
}

fn no_frame() -> FrameReply {
    FrameReply {
        kind: 0,
        cause: 0,
        link: 0,
        vl: 0,
        port: 0,
        place: 0,
        number: 0,
    }
}

fn no_fault() -> FaultReply {
    FaultReply {
        fault: 0,
        key: 0,
        level: 0,
        link: 0,
        port: 0,
        line: 0,
    }
}

/// One partition reads each sampling port.
const READERS: usize = 1;

/// Opens the receiver of a configuration, and has the ends of all ports handed out.
fn open(alloc: Global, shape: Shape) -> io::Result<Receiving> {
    let mut receiving = Receiving {
        receiver: ReceiverSlot::new(),
        readers: Vec::new(alloc),
        takers: Vec::new(alloc),
        room: vec![in alloc; 0u8; 8192]?,
    };
    let text = config_text(alloc, shape)?;
    let mut fault = no_fault();
    if receiving
        .receiver
        .open_text(alloc, text.as_bytes(), READERS, &mut fault)
        != DONE
    {
        return Err(refused());
    }
    for link in 0..shape.links {
        hand_ends(alloc, &mut receiving, shape, link)?;
    }
    Ok(receiving)
}

/// The ends of the ports of a link.
fn hand_ends(alloc: Global, receiving: &mut Receiving, shape: Shape, link: u8) -> io::Result<()> {
    for place in 0..shape.sampling {
        let name = format!(in alloc; "s{link}-{place}")?;
        let mut slot = ReaderSlot::new();
        let code = receiving.receiver.hand_reader(&mut slot, name.as_bytes());
        match slot.into_reader() {
            Some(reader) if code == DONE => receiving.readers.push(reader)?,
            _ => return Err(refused()),
        }
    }
    for place in 0..shape.queuing {
        let name = format!(in alloc; "q{link}-{place}")?;
        let mut slot = TakerSlot::new();
        if receiving.receiver.hand_taker(&mut slot, name.as_bytes()) != DONE {
            return Err(refused());
        }
        receiving.takers.push(slot)?;
    }
    Ok(())
}

/// Adds the reply to a frame whole. Kind, cause, port and link number stand beside one another.
fn add_reply(digest: &mut Digest, code: u32, reply: &FrameReply) {
    let kind = u64::from(reply.kind) << 56 ^ u64::from(reply.cause) << 48;
    let port = u64::from(reply.port) << 32 ^ u64::from(reply.vl);
    digest.add(kind ^ port);
    digest.add((reply.link as u64) << 32 ^ u64::from(code));
    digest.add(reply.place);
    digest.add(reply.number);
}

/// A frame that came on a network.
fn receive(receiving: &mut Receiving, net: u32, time: u64, octets: &[u8], digest: &mut Digest) {
    let mut reply = no_frame();
    let code = receiving.receiver.receive(net, time, octets, &mut reply);
    add_reply(digest, code, &reply);
}

/// A partition reads its port.
fn read(receiving: &mut Receiving, at: usize, now: u64, digest: &mut Digest) {
    let Some(reader) = receiving.readers.get_mut(at) else {
        return;
    };
    match reader.read(now, &mut receiving.room) {
        Reading::Message {
            number,
            time,
            len,
            validity,
        } => {
            digest.add(number << 1 | u64::from(validity == Freshness::Fresh));
            digest.add(time);
            if let Some(octets) = receiving.room.get(..len) {
                digest.add_octets(octets);
            }
        }
        Reading::Empty => digest.add(1),
    }
}

/// Adds a message that stands in its place, with its octets.
fn add_latest(digest: &mut Digest, latest: &Latest, fresh: bool) {
    digest.add(latest.number() << 1 | u64::from(fresh));
    digest.add(latest.time());
    digest.add_octets(latest.octets());
}

/// A partition looks at the newest message, all of it, in place.
fn look(receiving: &mut Receiving, at: usize, now: u64, digest: &mut Digest) {
    let Some(reader) = receiving.readers.get_mut(at) else {
        return;
    };
    reader.update();
    match reader.latest() {
        Some(latest) => {
            let fresh = reader.validity(now, latest) == Freshness::Fresh;
            add_latest(digest, latest, fresh);
        }
        None => digest.add(3),
    }
}

/// A partition takes all that waits in its queue.
fn take(receiving: &mut Receiving, at: usize, digest: &mut Digest) {
    let Some(taker) = receiving.takers.get_mut(at) else {
        return;
    };
    for _ in 0..64 {
        let mut reply = nothing_taken();
        let code = taker.take(&mut receiving.room, &mut reply);
        digest.add(u64::from(code) << 32 ^ u64::from(reply.found));
        if reply.found == 0 {
            return;
        }
        digest.add(reply.time);
        if let Some(octets) = receiving.room.get(..reply.len) {
            digest.add_octets(octets);
        }
    }
}

/// A step of the partitions after a frame: some read or look, and one takes.
fn step(receiving: &mut Receiving, frame: u64, draw: u64, now: u64, digest: &mut Digest) {
    let (readers, takers) = (receiving.readers.len(), receiving.takers.len());
    if readers == 0 || takers == 0 {
        return;
    }
    let at = (draw >> 8) as usize;
    read(receiving, at % readers, now, digest);
    if frame % 4 == 0 {
        look(receiving, (at >> 8) % readers, now, digest);
    }
    take(receiving, frame as usize % takers, digest);
}

/// So many frames, each on both networks.
fn give(receiving: &mut Receiving, traffic: &mut Traffic, frames: u64, digest: &mut Digest) {
    for frame in 0..frames {
        let sent = traffic.send();
        let octets = traffic.octets(sent);
        receive(receiving, 0, sent.time, octets, digest);
        receive(receiving, 1, sent.later(), octets, digest);
        step(receiving, frame, sent.draw, sent.later(), digest);
    }
}

/// Both configurations, one after the other.
pub(crate) fn run(alloc: Global, seed: u64, rounds: u64) -> io::Result<Digest> {
    let mut digest = Digest::new();
    for shape in [ONE_LINK, ALL_LINKS] {
        let mut receiving = open(alloc, shape)?;
        let mut sent = traffic(alloc, shape, PROFILE, seed)?;
        let frames = rounds.wrapping_mul(FRAMES);
        give(&mut receiving, &mut sent, frames, &mut digest);
    }
    Ok(digest)
}
