//! Partitions that read on threads of their own, while the link takes frames.
use crate::frames::receive;
use crate::partitions::opened_with_readers;
use es_base::{Net, Verdict};
use link_receiver::LinkState;
use sampling_port::{MOST_TRIES, Read, Reader};
use slot_core::READERS;
use std::alloc::Global;
use std::process::Abort;
use std::sync::Wait;
use std::thread::{Threads, join, map_vec};
use test_inputs::rows::POS;
use test_inputs::{ETHERNET, IP, UDP, frame_of};

/// How many frames the link takes, and how often each reader reads.
const MANY: u64 = 1000;

/// All octets of the message of this number.
fn octet_of(number: u64) -> u8 {
    (number % 251) as u8
}

/// The frame that brings the message of this number.
fn frame(rt: &impl Abort, alloc: Global, number: u64) -> Vec<u8> {
    let octet = octet_of(number);
    let mut frame = frame_of(alloc, &[ETHERNET, IP, UDP], octet).expect(rt, "octets");
    for _ in 1..17 {
        frame.push(octet).expect(rt, "memory");
    }
    let sequence_number = (number % 255) as u8 + 1;
    frame.push(sequence_number).expect(rt, "memory");
    frame
}

/// The link takes all frames, one after another, each as many microseconds after the start as its number.
fn take_many(rt: &(impl Abort + Wait), alloc: Global, mut state: LinkState) -> LinkState {
    for number in 1..MANY + 1 {
        let frame = frame(rt, alloc, number);
        let verdict = receive(rt, alloc, &mut state, Net::A, number, &frame);
        assert!(rt; verdict == Verdict::Sampled(POS, number), "{number}");
    }
    state
}

/// The number that a read gives, or 0. A message is whole.
fn read_one(rt: &impl Abort, reader: &mut Reader<READERS>) -> u64 {
    let mut out = [0; 1471];
    match reader.read(MOST_TRIES, &mut out) {
        Read::Message { number, time, len } => {
            assert!(rt; time == number && len == 17, "{number}");
            assert!(rt; out.starts_with(&[octet_of(number); 17]), "{number}");
            number
        }
        Read::Empty => 0,
        Read::Busy { number } => number,
    }
}

/// The numbers that are read never fall.
fn read_many(rt: &impl Abort, mut reader: Reader<READERS>) -> Reader<READERS> {
    let mut last = 0;
    for _ in 0..MANY {
        let number = read_one(rt, &mut reader);
        assert!(rt; last <= number, "{last}, {number}");
        last = number;
    }
    reader
}

/// Each of the readers reads on a thread of its own.
fn read_all<R: Abort + Threads + Sync>(
    rt: &R,
    readers: Vec<Reader<READERS>>,
) -> Vec<Reader<READERS>> {
    let each = |reader: Reader<READERS>| read_many(rt, reader);
    map_vec(rt, readers, &each).expect(rt, "threads")
}

fn check_beside<R: Abort + Wait + Threads + Sync>(rt: &R, alloc: Global) {
    let (state, readers) = opened_with_readers(rt, alloc);
    let readers = Vec::from_array(alloc, readers).expect(rt, "memory");
    let take = move || take_many(rt, alloc, state);
    let read = move || read_all(rt, readers);
    let (_, readers) = join(rt, take, read);
    for mut reader in readers {
        assert_eq!(rt; read_one(rt, &mut reader), MANY);
    }
}

// rule: PORT-7, PORT-8
#[test]
fn eight_partitions_read_whole_messages_while_the_link_takes_frames(rt: HostRuntime) {
    check_beside(&rt, rt.alloc());
}
