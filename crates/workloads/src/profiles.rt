//! What senders send, by what it is for.
use crate::configs::{QUEUING_UDP, SAMPLING_UDP, Shape};
use crate::digest::mixed;
use crate::frames::{datagram, pieces, whole};
use crate::traffic::{Flow, Traffic};
use std::alloc::Global;
use std::io;

/// The most octets of a fragment.
const FRAGMENT: u16 = 1472;

/// Which frames a profile has.
#[derive(Clone, Copy)]
pub(crate) struct Profile {
    pub sampled: bool,
    pub queued: bool,
    pub fragments: bool,
    /// Some frames that are turned away.
    pub flawed: bool,
}

/// The length of a message by chance: mostly short, one of eight long.
fn some_len(chance: u64) -> u16 {
    let most = if chance % 8 == 0 { 1455 } else { 200 };
    17 + ((chance >> 8) % most) as u16
}

fn add_wholes(
    alloc: Global,
    flow: &mut Flow,
    link: u8,
    (first, ports): (u16, u8),
    seed: u64,
) -> io::Result<()> {
    for place in 0..ports {
        let udp = first.wrapping_add(u16::from(place));
        let chance = mixed(seed.wrapping_mul(64).wrapping_add(u64::from(place)));
        flow.add_whole(whole(alloc, link, udp, some_len(chance), chance)?)?;
    }
    Ok(())
}

/// Datagrams in pieces, one after another; the last one comes from its end.
fn add_fragments(
    alloc: Global,
    flow: &mut Flow,
    link: u8,
    queues: u8,
    seed: u64,
) -> io::Result<()> {
    for turn in 0..4u16 {
        let udp = QUEUING_UDP.wrapping_add(turn % u16::from(queues.max(1)));
        let chance = mixed(seed.wrapping_mul(16).wrapping_add(u64::from(turn)));
        let len = if turn == 3 {
            8192
        } else {
            1500 + (chance % 5000) as u16
        };
        let octets = datagram(alloc, udp, len, chance)?;
        let mut parts = pieces(alloc, link, 0, &octets, FRAGMENT)?;
        if turn == 3 {
            parts.reverse();
        }
        flow.add(parts, 1)?;
    }
    Ok(())
}

/// Frames that are turned away: for no port, with another checksum, no IPv4, and of another network.
fn add_flawed(alloc: Global, flow: &mut Flow, link: u8, seed: u64) -> io::Result<()> {
    for (place, octet) in [(0usize, 0u8), (24, 1), (13, 6), (0, 1)] {
        let mut frame = whole(alloc, link, 7000, 40, seed)?;
        if let Some(changed) = frame.octets.get_mut(place) {
            *changed ^= octet;
        }
        flow.add_whole(frame)?;
    }
    Ok(())
}

/// Frames that the sender of a link sends, in turn.
pub(crate) fn flow(
    alloc: Global,
    link: u8,
    shape: Shape,
    profile: Profile,
    seed: u64,
) -> io::Result<Flow> {
    let mut flow = Flow::new(alloc, true);
    for turn in 0..4u64 {
        let seed = mixed(seed.wrapping_add(turn)).wrapping_add(u64::from(link));
        if profile.sampled {
            add_wholes(alloc, &mut flow, link, (SAMPLING_UDP, shape.sampling), seed)?;
        }
        if profile.queued {
            add_wholes(
                alloc,
                &mut flow,
                link,
                (QUEUING_UDP, shape.queuing),
                seed.wrapping_add(1),
            )?;
        }
        if profile.flawed && turn == 1 {
            add_flawed(alloc, &mut flow, link, seed)?;
        }
        if profile.fragments && turn % 2 == 0 {
            add_fragments(alloc, &mut flow, link, shape.queuing, seed)?;
        }
    }
    Ok(flow)
}

/// The senders of all links of a configuration, all with one profile.
pub(crate) fn traffic(
    alloc: Global,
    shape: Shape,
    profile: Profile,
    seed: u64,
) -> io::Result<Traffic> {
    let mut traffic = Traffic::new(alloc, seed);
    for link in 0..shape.links {
        traffic.add(flow(alloc, link, shape, profile, seed)?)?;
    }
    Ok(traffic)
}
