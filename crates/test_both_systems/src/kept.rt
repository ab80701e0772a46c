//! The system that keeps its histories, with the ends of its ports.
use end_system::{NoGate, Reply};
use es_base::Net;
use link_receiver::PortEnd;
use queuing_port::Taker;
use sampling_port::{MOST_TRIES, Read, Reader};
use slot_core::READERS;
use std::alloc::Global;
use std::process::Abort;
use std::sync::Wait;
use test_inputs_end_system::Running;

/// The system receives a frame on this network.
pub(crate) fn receive(
    rt: &(impl Abort + Wait),
    alloc: Global,
    running: &mut Running<NoGate>,
    net: Net,
    now: u64,
    octets: &[u8],
) -> Reply {
    running
        .receive(rt, alloc, net, now, octets)
        .expect(rt, "memory")
}

/// A reader of the sampling port with this name.
pub(crate) fn reader_of(
    rt: &impl Abort,
    running: &mut Running<NoGate>,
    name: &str,
) -> Reader<READERS> {
    match running.take_end(name).expect(rt, "an end") {
        PortEnd::Sampling { readers, .. } => readers.into_iter().next().expect(rt, "a reader"),
        PortEnd::Queuing { .. } => panic!(rt; "a sampling port"),
    }
}

/// The taker of the queuing port with this name.
pub(crate) fn taker_of(rt: &impl Abort, running: &mut Running<NoGate>, name: &str) -> Taker {
    match running.take_end(name).expect(rt, "an end") {
        PortEnd::Queuing { taker, .. } => taker,
        PortEnd::Sampling { .. } => panic!(rt; "a queuing port"),
    }
}

/// The number, the time and the length of the newest message of a sampling port, whose octets are copied.
pub(crate) fn read(
    rt: &impl Abort,
    reader: &mut Reader<READERS>,
    out: &mut [u8; 1471],
) -> Option<(u64, u64, usize)> {
    match reader.read(MOST_TRIES, out) {
        Read::Message { number, time, len } => Some((number, time, len)),
        Read::Empty => None,
        Read::Busy { .. } => panic!(rt; "nobody publishes beside it"),
    }
}
