//! The threads of the partitions. Each has ends of ports, and shares nothing else with the receiver; they stop once
//! they are told that no frame comes any more.
use queuing_port::Taker;
use sampling_port::{Freshness, MOST_TRIES, Read, Reader, freshness};
use slot_core::READERS;
use std::sync::Wait;
use std::sync::atomic::{AtomicBool, Ordering};
use std::thread;

/// How long a message of `pos` is fresh, in microseconds, as the configuration says.
pub(crate) const REFRESH: u64 = 20_000;

/// How late it is for the partitions, in microseconds: 10 milliseconds after the last frame was sent.
pub(crate) const NOW: u64 = 110_000;

/// A message that a partition saw last.
#[derive(Clone, Copy, Debug, PartialEq, Eq)]
pub(crate) struct Seen {
    pub number: u64,
    pub len: usize,
    /// Its first eight octets, the first one most significant.
    pub first: u64,
    pub freshness: Freshness,
}

/// The first eight octets of some, the first one most significant.
fn first_word(octets: &[u8; 1471]) -> u64 {
    let mut first = [0; 8];
    first.copy_from_slice(&octets[..8]);
    u64::from_be_bytes(first)
}

/// A partition that copies the newest message. None if there is none; each look that finds a newer message than the
/// one before is a try, and `MOST_TRIES` of them may fail in a row: then the partition looks again at its next turn.
fn read_newest(reader: &mut Reader<READERS>, out: &mut [u8; 1471]) -> Option<Seen> {
    match reader.read(MOST_TRIES, out) {
        Read::Message { number, time, len } => Some(Seen {
            number,
            len,
            first: first_word(out),
            freshness: freshness(NOW, time, REFRESH),
        }),
        Read::Empty | Read::Busy { .. } => None,
    }
}

/// A partition that looks at the newest message in place, without a copy.
fn hold_newest(reader: Reader<READERS>) -> (Reader<READERS>, Option<Seen>) {
    match reader.hold(MOST_TRIES) {
        Ok(mut held) => {
            let (number, time, len) = (held.number(), held.time(), held.len());
            let first = if len > 0 { held.word(0) } else { 0 };
            let freshness = freshness(NOW, time, REFRESH);
            let seen = Seen {
                number,
                len,
                first,
                freshness,
            };
            (held.release(), Some(seen))
        }
        Err((reader, _)) => (reader, None),
    }
}

/// Copies the newest message, turn by turn. Returns what it saw last.
pub(crate) fn run_reader(mut reader: Reader<READERS>, ended: &AtomicBool) -> Option<Seen> {
    let mut out = [0; 1471];
    let mut seen = None;
    for _ in 0..u64::MAX {
        let is_last = ended.load(Ordering::SeqCst);
        seen = read_newest(&mut reader, &mut out);
        if is_last {
            break;
        }
        thread::yield_now();
    }
    seen
}

/// Holds the newest message and gives it back, turn by turn. Returns what it saw last.
pub(crate) fn run_holder(mut reader: Reader<READERS>, ended: &AtomicBool) -> Option<Seen> {
    let mut seen = None;
    for _ in 0..u64::MAX {
        let is_last = ended.load(Ordering::SeqCst);
        let (back, held) = hold_newest(reader);
        reader = back;
        seen = held;
        if is_last {
            break;
        }
        thread::yield_now();
    }
    seen
}

/// Takes all messages of a queue, each once and in order. Returns their number.
pub(crate) fn run_taker<R: Wait>(rt: &R, mut taker: Taker, ended: &AtomicBool) -> u64 {
    let mut count = 0u64;
    for _ in 0..u64::MAX {
        let is_last = ended.load(Ordering::SeqCst);
        match taker.take(rt) {
            Some(_message) => count = count.saturating_add(1),
            None if is_last => break,
            None => thread::yield_now(),
        }
    }
    count
}
