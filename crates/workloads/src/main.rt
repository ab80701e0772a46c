//! The jobs that users of this software wait for, each on an input that it makes by itself from a number. Each prints
//! one line: its name, and a digest of all that came of it. Two builds are compared by the time that a job takes in
//! each; docs/PERF.md says how.
//!
//!     workloads NAME SEED [ROUNDS]
//!
//! | name | the job |
//! |---|---|
//! | `networks` | an end system with a thread for each network, both at the same links; its histories are kept |
//! | `threads` | two traces in memory, each played in a thread of its own |
//! | `days` | an end system that goes on: both networks by one thread, partitions beside it, epochs that are taken out |
//! | `task` | a receiver for one task by the slots of the C library, with partitions that read, look and take |
//! | `traces` | two traces in memory, played by one thread |
//! | `pieces` | a receiver for one task on what is awkward: datagrams in pieces of 8 octets, bursts that are turned away |
//! | `evidence` | links whose epochs are taken out often, and of each port what was delivered to it since then |
//! | `live` | a system that keeps no frame, with a thread for each network, frames one by one and in bursts |
//! | `all` | all of these, one after another |
#![tactic(auto)]

mod configs;
mod days;
mod digest;
mod evidence;
mod frames;
mod live;
mod networks;
mod outcomes;
mod pace;
mod partitions;
mod pieces;
mod profiles;
mod task;
mod texts;
mod threads;
mod traces;
mod traffic;

use digest::Digest;
use std::alloc::Global;
use std::env;
use std::io::{self, ErrorKind};
use std::rt::Env;
use std::sync::Wait;
use std::thread::Threads;

/// Number of rounds of a job if none are asked for.
const ROUNDS: u64 = 100;

/// The names of all jobs.
const JOBS: [&str; 8] = [
    "networks", "threads", "days", "task", "traces", "pieces", "evidence", "live",
];

/// Error of what can't be made, or can't be so.
fn refused() -> io::Error {
    io::Error::from(ErrorKind::InvalidData)
}

/// A job, and how much of it there is.
#[derive(Drop)]
struct Job {
    name: String,
    seed: u64,
    rounds: u64,
}

/// The number that a word says, if any.
fn number_of(word: Option<String>, otherwise: u64) -> io::Result<u64> {
    let Some(word) = word else {
        return Ok(otherwise)
    };
    word.as_str().parse::<u64>().map_err(|_| refused())
}

/// The job that the words ask for.
fn asked(rt: &(impl Env + AllocGlobal)) -> io::Result<Job> {
    let mut words = env::args(rt)?;
    let _program = words.next();
    let Some(name) = words.next() else {
        return Err(refused())
    };
    Ok(Job {
        name,
        seed: number_of(words.next(), 1)?,
        rounds: number_of(words.next(), ROUNDS)?,
    })
}

/// Runs the job with this name. Each has a seed of its own.
fn run<R: Threads + Wait + Sync>(
    rt: &R,
    alloc: Global,
    name: &str,
    seed: u64,
    rounds: u64,
) -> io::Result<Digest> {
    match name {
        "networks" => networks::run(rt, alloc, seed, rounds),
        "threads" => threads::run(rt, alloc, seed, rounds),
        "days" => days::run(rt, alloc, seed, rounds),
        "task" => task::run(alloc, seed, rounds),
        "traces" => traces::run(alloc, seed, rounds),
        "pieces" => pieces::run(alloc, seed, rounds),
        "evidence" => evidence::run(rt, alloc, seed, rounds),
        "live" => live::run(rt, alloc, seed, rounds),
        _ => Err(refused()),
    }
}

fn main(rt: HostRuntime) -> io::Result<()> {
    let asked = asked(&rt)?;
    let name = asked.name.as_str();
    if name != "all" {
        let digest = run(&rt, rt.alloc(), name, asked.seed, asked.rounds)?;
        return println!(rt; "{name} {:016x}", digest.sum);
    }
    for name in JOBS {
        let digest = run(&rt, rt.alloc(), name, asked.seed, asked.rounds)?;
        println!(rt; "{name} {:016x}", digest.sum)?;
    }
    Ok(())
}
