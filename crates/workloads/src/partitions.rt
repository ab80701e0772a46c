//! What partitions do with the ends of ports.
use crate::configs::DEPTH;
use crate::digest::Digest;
use es_base::Message;
use queuing_port::Taker;
use sampling_port::{MOST_TRIES, Read, Reader};
use slot_core::READERS;
use std::sync::Wait;

/// The first reader of a port. The others are given up.
pub(crate) fn first_of(readers: [Reader<READERS>; READERS]) -> Reader<READERS> {
    let [first, b, c, d, e, f, g, h] = readers;
    drop((b, c, d, e, f, g, h));
    first
}

/// Reads the newest message of a port, and adds its number and its octets. Returns its time in microseconds, 0 if there
/// is none.
pub(crate) fn read_newest(
    reader: &mut Reader<READERS>,
    room: &mut [u8; 1471],
    digest: &mut Digest,
) -> u64 {
    match reader.read(MOST_TRIES, room) {
        Read::Message { number, time, len } => {
            digest.add(number);
            if let Some(octets) = room.get(..len) {
                digest.add_octets(octets);
            }
            time
        }
        Read::Empty => {
            digest.add(1);
            0
        }
        Read::Busy { number } => {
            digest.add(number);
            digest.add(2);
            0
        }
    }
}

/// Adds a message whole.
pub(crate) fn add_message(digest: &mut Digest, message: &Message) {
    digest.add(message.time);
    digest.add_octets(message.octets.as_slice());
}

/// Takes all messages of a queue, and adds them.
pub(crate) fn take_all<R: Wait>(rt: &R, taker: &mut Taker, digest: &mut Digest) {
    for _ in 0..DEPTH {
        let Some(message) = taker.take(rt) else {
            return;
        };
        add_message(digest, &message);
    }
}
