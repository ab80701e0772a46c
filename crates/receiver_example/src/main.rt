//! A receiver for one task, built into a program: frames of both networks come in, each is replied to, and a partition
//! reads one port and takes of the other. docs/EMBEDDING.md quotes it.
#![tactic(auto)]

mod driver;
mod partition;

use driver::{GivenFrame, frames};
use partition::Partition;
use receiver::{Config, FilterCause, Net, PortOutlet, ReaderCount, Receiver, Reply, VerdictKind};
use std::alloc::Global;
use std::io::{self, ErrorKind};
use vl_config::read_config;

/// Two ports of virtual link 17.
const CONFIGURATION: &str = r#"
[[link]]
vl = 17
skew_max_us = 1000
reassembly_us = 50000

[[link.port]]
name = "pos"
kind = "sampling"
address = "224.224.0.17"
udp = 5000
refresh_us = 2000

[[link.port]]
name = "nav"
kind = "queuing"
address = "224.224.0.17"
udp = 5002
depth = 2
max = 64
"#;

/// Never happens: the configuration above has a fault, or lacks a port.
fn refused() -> io::Error {
    io::Error::from(ErrorKind::InvalidData)
}

fn configuration(alloc: Global) -> io::Result<Config> {
    match read_config(alloc, CONFIGURATION) {
        Ok(config) => Ok(config),
        Err(_) => Err(refused()),
    }
}

/// A line for each frame: its time and network, and its verdict or cause.
fn show_reply(rt: &HostRuntime, frame: &GivenFrame, reply: Reply) -> io::Result<()> {
    let (time, net) = (frame.time, frame.net);
    match reply {
        Reply::Filtered(cause) => println!(rt; "{time} {net} filtered: {cause}"),
        Reply::Link {
            vl,
            place,
            verdict,
            ..
        } => {
            let vl = vl.0;
            println!(rt; "{time} {net} link {vl}, frame {place}: {verdict:?}")
        }
    }
}

/// A step of the partition at this time: it reads the newest message of `pos`, and takes all that wait in `nav`.
fn step(rt: &HostRuntime, partition: &mut Partition, now: u64) -> io::Result<()> {
    let reading = partition.read(now);
    println!(rt; "  pos: {reading:?}")?;
    for _ in 0..2 {
        if let Some(taken) = partition.take() {
            println!(rt; "  nav: {taken:?}")?;
        }
    }
    Ok(())
}

/// Counts of a network.
fn show_counts(rt: &HostRuntime, receiver: &Receiver<PortOutlet>, net: Net) -> io::Result<()> {
    for link in receiver.links() {
        let vl = link.settings().vl().0;
        let sampled = link.count(net, VerdictKind::Sampled);
        let redundant = link.count(net, VerdictKind::Redundant);
        println!(rt; "{net} link {vl}: {sampled} sampled, {redundant} redundant")?;
    }
    let unknown = receiver.filtered(net, FilterCause::UnknownLink);
    println!(rt; "{net} {unknown} of unknown links")
}

fn main(rt: HostRuntime) -> io::Result<()> {
    let alloc = rt.alloc();
    let mut opened = Receiver::<PortOutlet>::open(
        alloc,
        &configuration(alloc)?,
        ReaderCount::most(),
    )?;
    let (Some(pos), Some(nav)) = (opened.take_reader("pos"), opened.take_taker("nav")) else {
        return Err(refused());
    };
    let mut partition = Partition::new(alloc, pos, nav)?;
    let mut receiver = opened.receiver;
    let frames = frames(alloc)?;
    // From here on no call takes memory, but for the printing.
    for frame in frames.iter() {
        let reply = receiver.receive(frame.net, frame.time, frame.octets.as_slice());
        show_reply(&rt, frame, reply)?;
        step(&rt, &mut partition, frame.time)?;
    }
    step(&rt, &mut partition, 9_000)?;
    show_counts(&rt, &receiver, Net::A)?;
    show_counts(&rt, &receiver, Net::B)
}
