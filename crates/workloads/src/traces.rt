//! Two traces in memory, played by one thread.
use crate::configs::{Shape, config_of};
use crate::digest::Digest;
use crate::profiles::{Profile, traffic};
use crate::refused;
use crate::texts::{Texts, lines_of};
use std::alloc::Global;
use std::io;
use trace_player::play_texts;

const SHAPE: Shape = Shape {
    links: 64,
    sampling: 16,
    queuing: 16,
    redundancy: true,
};

/// Number of frames sent in a round: those of so many pairs of traces of each kind.
const FRAMES: u64 = 4000;

const PAIRS: u64 = 3;

/// The four kinds of traffic, each played once.
fn profiles() -> [Profile; 4] {
    let none = Profile {
        sampled: false,
        queued: false,
        fragments: false,
        flawed: false,
    };
    [
        Profile {
            sampled: true,
            ..none
        },
        Profile {
            queued: true,
            ..none
        },
        Profile {
            fragments: true,
            ..none
        },
        Profile {
            sampled: true,
            queued: true,
            fragments: true,
            flawed: true,
        },
    ]
}

/// All pairs of traces.
pub(crate) fn run(alloc: Global, seed: u64, rounds: u64) -> io::Result<Digest> {
    let mut digest = Digest::new();
    let config = config_of(alloc, SHAPE)?;
    let mut texts = Texts::new(alloc);
    let frames = rounds.wrapping_mul(FRAMES) / (4 * PAIRS);
    for profile in profiles() {
        let mut sent = traffic(alloc, SHAPE, profile, seed)?;
        let mut lines = lines_of(alloc, &sent)?;
        for _ in 0..PAIRS {
            texts.write(&mut lines, &mut sent, frames, 300, |_| (true, true))?;
            match play_texts(alloc, &config, &texts.a, &texts.b, None) {
                Ok(output) => digest.add_octets(&output),
                Err(_) => return Err(refused()),
            }
        }
    }
    Ok(digest)
}
