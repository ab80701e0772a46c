//! What partitions read and take at the ports of a system, each by an end that was found by its port's name.
use crate::rows::{check_frame, check_frames, check_history, opened, opened_with, packet_rows};
use end_system::{Gate, NoGate};
use es_base::FilterCause::{ForeignConstant, NotIp, TooLong, TooShort, UnknownLink};
use es_base::Net::{A, B};
use es_base::Verdict::{Overflow, Queued, Redundant, Sampled};
use link_receiver::PortEnd;
use queuing_port::Taker;
use sampling_port::{MOST_TRIES, Read, Reader};
use slot_core::READERS;
use std::alloc::Global;
use std::process::Abort;
use std::sync::Wait;
use test_inputs::rows::{
    FrameRow, NAV, NAV_UDP, POS, PacketRow, first_twice, in_order, last_first, smallest_row,
};
use test_inputs::{IP, PAYLOAD};
use test_inputs_end_system::{BUILT_IN, Running};

/// A reader reads a message of `pos` with these octets.
fn check_read(
    rt: &impl Abort,
    reader: &mut Reader<READERS>,
    (number, time): (u64, u64),
    octets: &[u8],
) {
    let mut out = [0; 1471];
    let len = octets.len();
    let wanted = Read::Message { number, time, len };
    assert_eq!(rt; reader.read(MOST_TRIES, &mut out), wanted);
    assert!(rt; out.starts_with(octets));
}

/// The end is that of the sampling port `pos`.
fn is_pos(end: &PortEnd) -> bool {
    match end {
        PortEnd::Sampling { port, name, .. } => *port == POS && name.as_str() == "pos",
        PortEnd::Queuing { .. } => false,
    }
}

/// Each reader of the end reads the message of number 1 and time 1000, with these octets.
pub(crate) fn check_readers_of(rt: &impl Abort, end: &mut PortEnd, octets: &[u8]) {
    assert!(rt; is_pos(end));
    match end {
        PortEnd::Sampling { readers, .. } => {
            for reader in readers {
                check_read(rt, reader, (1, 1000), octets);
            }
        }
        PortEnd::Queuing { .. } => panic!(rt; "a sampling port"),
    }
}

/// Each reader of the end reads that message, with the payload of the smallest frame.
fn check_readers(rt: &impl Abort, alloc: Global, end: &mut PortEnd) {
    let octets = hex::decode(alloc, PAYLOAD).expect(rt, "octets");
    check_readers_of(rt, end, &octets);
}

/// The end is moved out.
fn check_taken_end(rt: &(impl Abort + Wait), alloc: Global) {
    let mut running = opened(rt, alloc);
    let row = smallest_row((A, 1000, 0, Sampled(POS, 1)));
    let given = check_frames(rt, alloc, &mut running, &[row]);
    let mut end = running.take_end("pos").expect(rt, "an end");
    check_readers(rt, alloc, &mut end);
    check_history(rt, running, &given);
}

/// No frame was filtered on either network.
fn check_none_filtered<G: Gate + Drop>(rt: &impl Abort, running: &Running<G>) {
    for cause in [TooShort, TooLong, NotIp, ForeignConstant, UnknownLink] {
        assert!(rt; running.pass(A).filtered(cause) == 0);
        assert!(rt; running.pass(B).filtered(cause) == 0);
    }
}

/// The end is lent, and both networks go on after it.
fn check_lent_end(rt: &(impl Abort + Wait), alloc: Global) {
    let mut running = opened(rt, alloc);
    let row = smallest_row((A, 1000, 0, Sampled(POS, 1)));
    let first = check_frame(rt, alloc, &mut running, 0, row);
    let end = running.end_of("pos").expect(rt, "an end");
    check_readers(rt, alloc, end);
    check_none_filtered(rt, &running);
    let row = smallest_row((B, 1100, 0, Redundant));
    let copy = check_frame(rt, alloc, &mut running, 1, row);
    let row = smallest_row((A, 1200, 1, Sampled(POS, 2)));
    let second = check_frame(rt, alloc, &mut running, 2, row);
    check_history(rt, running, &[first, copy, second]);
}

// rule: EMB-34
#[test]
fn every_reader_of_a_port_reads_the_message(rt: HostRuntime) {
    check_taken_end(&rt, rt.alloc());
    check_lent_end(&rt, rt.alloc());
}

/// The taker of `nav`, whose end is moved out.
pub(crate) fn taker_of<G: Gate + Drop>(rt: &impl Abort, running: &mut Running<G>) -> Taker {
    match running.take_end("nav").expect(rt, "an end") {
        PortEnd::Queuing { port, name, taker } => {
            assert!(rt; port == NAV && name.as_str() == "nav");
            taker
        }
        PortEnd::Sampling { .. } => panic!(rt; "a queuing port"),
    }
}

/// The taker takes a message of this time in microseconds, with these octets.
pub(crate) fn check_taken(
    rt: &(impl Abort + Wait),
    alloc: Global,
    taker: &mut Taker,
    time: u64,
    payload: &str,
) {
    let message = taker.take(rt).expect(rt, "a message");
    let octets = hex::decode(alloc, payload).expect(rt, "octets");
    assert!(rt; message.time == time, "{}", message.time);
    assert!(rt; message.octets.as_slice() == octets.as_slice(), "{time}");
}

/// The taker finds no message.
pub(crate) fn check_none(rt: &(impl Abort + Wait), taker: &mut Taker) {
    assert!(rt; taker.take(rt).is_none());
}

/// The system receives these packets, and the taker of `nav` takes one message of the time of the last of them.
fn check_joined(
    rt: &(impl Abort + Wait),
    alloc: Global,
    rows: &[PacketRow],
    time: u64,
    payload: &str,
) {
    let mut running = opened(rt, alloc);
    let mut taker = taker_of(rt, &mut running);
    let rows = packet_rows(rt, alloc, rows);
    let given = check_frames(rt, alloc, &mut running, &rows);
    check_taken(rt, alloc, &mut taker, time, payload);
    check_none(rt, &mut taker);
    check_history(rt, running, &given);
}

/// The payload that two fragments make.
pub(crate) const JOINED: &str = "a0a1a2a3a4a5a6a7b0b1b2b3b4b5b6b7b8b9babbbcbdbebf";

/// The same with the octets of the later first fragment.
const JOINED_ANEW: &str = "c0c1c2c3c4c5c6c7b0b1b2b3b4b5b6b7b8b9babbbcbdbebf";

// rule: CONC-9
#[test]
fn a_joined_datagram_is_taken_whole(rt: HostRuntime) {
    check_joined(&rt, rt.alloc(), &in_order(), 1100, JOINED);
    check_joined(&rt, rt.alloc(), &last_first(), 1100, JOINED);
    check_joined(&rt, rt.alloc(), &first_twice(), 1200, JOINED_ANEW);
}

/// Two messages for a queue of one place.
fn two_for_one_place() -> [FrameRow<'static>; 2] {
    [
        (A, 1000, 1, IP, NAV_UDP, PAYLOAD, Queued(NAV)),
        (A, 1100, 2, IP, NAV_UDP, PAYLOAD, Overflow(NAV)),
    ]
}

fn check_overflow(rt: &(impl Abort + Wait), alloc: Global) {
    let begin = BUILT_IN.strip_suffix("depth = 4\n").expect(rt, "a depth");
    let mut running = opened_with(rt, alloc, &[begin, "depth = 1\n"], NoGate);
    let mut taker = taker_of(rt, &mut running);
    let given = check_frames(rt, alloc, &mut running, &two_for_one_place());
    check_taken(rt, alloc, &mut taker, 1000, PAYLOAD);
    check_none(rt, &mut taker);
    check_history(rt, running, &given);
}

// rule: CONC-9
#[test]
fn what_a_full_queue_refuses_is_lost(rt: HostRuntime) {
    check_overflow(&rt, rt.alloc());
}

/// An end is lent as often as it is asked for.
fn check_lent(rt: &impl Abort, alloc: Global) {
    let mut opened = opened(rt, alloc).apart();
    assert!(rt; opened.end_of("none").is_none());
    assert!(rt; opened.end_of("").is_none());
    assert!(rt; opened.end_of("nav").is_some());
    assert!(rt; opened.end_of("nav").is_some());
    assert!(rt; opened.take_end("nav").is_some());
    assert!(rt; opened.end_of("nav").is_none());
    assert!(rt; opened.end_of("pos").is_some());
}

/// An end is moved out once.
fn check_moved(rt: &(impl Abort + Wait), alloc: Global) {
    let mut running = opened(rt, alloc);
    assert!(rt; running.take_end("none").is_none());
    let mut taker = taker_of(rt, &mut running);
    assert!(rt; running.take_end("nav").is_none());
    let row = (A, 1000, 1, IP, NAV_UDP, PAYLOAD, Queued(NAV));
    check_frame(rt, alloc, &mut running, 0, row);
    check_taken(rt, alloc, &mut taker, 1000, PAYLOAD);
    assert!(rt; running.take_end("pos").is_some());
    assert!(rt; running.take_end("pos").is_none());
}

// rule: EMB-34
#[test]
fn an_end_is_lent_by_its_name_and_moved_out_once(rt: HostRuntime) {
    check_lent(&rt, rt.alloc());
    check_moved(&rt, rt.alloc());
}
