//! Two traces in memory, each played in a thread of its own. Both networks bring samples of eight links that tell no
//! copies apart, and each has four links more of its own.
//!
//! Which network's frame a shared link takes first is up to the threads, and so are two fields of its line: the place
//! of its event, and the number of its message. These go into the digest as sums over all lines of the link or of the
//! port, so which line has which of them is left out. All else is taken in its order.
use crate::configs::{FIRST_LINK, Shape, config_of};
use crate::digest::{Digest, digest_of, mixed};
use crate::profiles::{Profile, flow};
use crate::refused;
use crate::texts::{Texts, lines_of};
use crate::traffic::Traffic;
use es_base::Config;
use std::alloc::Global;
use std::io;
use std::sync::Wait;
use std::thread::Threads;
use thread_player::play_threads;
use trace_player::Device;

const SHAPE: Shape = Shape {
    links: 16,
    sampling: 4,
    queuing: 4,
    redundancy: false,
};

/// Number of links that both networks share.
const SHARED: usize = 8;

const SAMPLES: Profile = Profile {
    sampled: true,
    queued: false,
    fragments: false,
    flawed: false,
};

const MIXED: Profile = Profile {
    sampled: true,
    queued: true,
    fragments: true,
    flawed: false,
};

/// Number of frames sent in a round: those of so many pairs of traces.
const FRAMES: u64 = 4000;

const PAIRS: u64 = 4;

/// Which networks bring the frames of the link at a place.
fn networks_of(link: usize) -> (bool, bool) {
    if link < SHARED {
        (true, true)
    } else {
        (link % 2 == 0, link % 2 == 1)
    }
}

fn traffic(alloc: Global, seed: u64) -> io::Result<Traffic> {
    let mut traffic = Traffic::new(alloc, seed);
    for link in 0..SHAPE.links {
        let profile = if usize::from(link) < SHARED {
            SAMPLES
        } else {
            MIXED
        };
        traffic.add(flow(alloc, link, SHAPE, profile, seed)?)?;
    }
    Ok(traffic)
}

/// Digest of an output.
#[derive(Clone, Copy, Drop)]
struct Played {
    /// Of all that is the same, whatever the schedule.
    digest: Digest,
    /// The sum over the fields that are up to the threads.
    free: u64,
}

/// Whether an octet parts two fields.
fn is_space(octet: &u8) -> bool {
    *octet == b' '
}

/// The number of a field of three digits. 0 if it isn't one.
fn number_in(field: &[u8]) -> u64 {
    let [a, b, c] = field else {
        return 0;
    };
    let mut number = 0u64;
    for digit in [*a, *b, *c] {
        let value = u64::from(digit.wrapping_sub(b'0'));
        number = number.wrapping_mul(10).wrapping_add(value);
    }
    number
}

/// Whether a line is that of a frame of a shared link: `TIME NET vl LINK PLACE VERDICT`.
fn is_of_shared(line: &[u8]) -> bool {
    let first = u64::from(FIRST_LINK);
    for (place, field) in line.split(is_space).enumerate() {
        match place {
            0 | 1 => {}
            2 if field == b"vl".as_slice() => {}
            3 => {
                let number = number_in(field);
                return first <= number && number < first.wrapping_add(SHARED as u64);
            }
            _ => return false,
        }
    }
    false
}

impl Played {
    fn new() -> Played {
        Played {
            digest: Digest::new(),
            free: 0,
        }
    }

    /// Adds the line of a frame of a shared link. The place follows the link's number, and the message number the name
    /// of the port.
    fn add_shared(&mut self, line: &[u8]) {
        let mut before: &[u8] = &[];
        for (place, field) in line.split(is_space).enumerate() {
            if place == 4 || place == 7 {
                let number = mixed(digest_of(before) ^ mixed(digest_of(field)));
                self.free = self.free.wrapping_add(number);
            } else {
                self.digest.add_octets(field);
            }
            before = field;
        }
    }

    /// Adds all lines of an output.
    fn add_lines(&mut self, output: &[u8]) {
        for line in output.split(|octet| *octet == b'\n') {
            if is_of_shared(line) {
                self.add_shared(line);
            } else {
                self.digest.add_octets(line);
            }
        }
    }
}

/// Plays two traces, and adds the output.
fn play<R: Threads + Wait + Sync>(
    rt: &R,
    alloc: Global,
    config: &Config,
    texts: &Texts,
    played: &mut Played,
) -> io::Result<()> {
    let mut a = Device::new(texts.a.as_slice());
    let mut b = Device::new(texts.b.as_slice());
    let mut out = Device::new(Vec::new(alloc));
    match play_threads(rt, alloc, config, &mut a, &mut b, &mut out, None) {
        Ok(()) => {
            played.add_lines(&out.inner);
            Ok(())
        }
        Err(_) => Err(refused()),
    }
}

/// All pairs of traces. Both copies of a frame come at one time.
pub(crate) fn run<R: Threads + Wait + Sync>(
    rt: &R,
    alloc: Global,
    seed: u64,
    rounds: u64,
) -> io::Result<Digest> {
    let mut played = Played::new();
    let config = config_of(alloc, SHAPE)?;
    let mut sent = traffic(alloc, seed)?;
    let mut lines = lines_of(alloc, &sent)?;
    let mut texts = Texts::new(alloc);
    for _ in 0..PAIRS {
        let frames = rounds.wrapping_mul(FRAMES) / PAIRS;
        texts.write(&mut lines, &mut sent, frames, 0, networks_of)?;
        play(rt, alloc, &config, &texts, &mut played)?;
    }
    let mut digest = played.digest;
    digest.add(played.free);
    Ok(digest)
}
