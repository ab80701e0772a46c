//! Messages for a queue, each put and taken with its result compared.
ghost use Rattle.std.specs.Prelude.{◌≡◌};

use es_base::{DEEPEST_QUEUE, Message, Octets};
use queuing_port::{Putter, Taker, open_queue};
use std::alloc::Global;
use std::process::Abort;
use std::sync::Wait;

/// Opens a queue of a depth that is within its limits.
pub(crate) fn open(rt: &impl Abort, alloc: Global, depth: u8) -> (Putter, Taker)
    ensures { result.1.queue ≡ result.0.queue }
{
    assert!(rt; 1 <= depth && depth <= DEEPEST_QUEUE);
    open_queue(alloc, depth).expect(rt, "memory")
}

/// A message of this many octets, all of them `octet`, that came at `time` microseconds.
pub(crate) fn message(rt: &impl Abort, alloc: Global, time: u64, octet: u8, len: usize) -> Message {
    let octets = Vec::from_elem(alloc, octet, len).expect(rt, "memory");
    Message {
        time,
        octets: Octets::from(octets),
    }
}

/// A message with no octets.
pub(crate) fn empty_message(alloc: Global, time: u64) -> Message {
    Message {
        time,
        octets: Octets::from(Vec::new(alloc)),
    }
}

/// A message that is put at `time` microseconds has two of these octets.
fn octet_of(time: u64) -> u8 {
    (time % 256) as u8
}

/// The message that is put at `time` microseconds.
fn message_at(rt: &impl Abort, alloc: Global, time: u64) -> Message {
    message(rt, alloc, time, octet_of(time), 2)
}

/// The message has the time and the octets that are wanted.
pub(crate) fn check_same(rt: &impl Abort, message: &Message, wanted: &Message) {
    let is_same = message.octets.as_slice() == wanted.octets.as_slice();
    assert!(rt; is_same && message.time == wanted.time, "{wanted:?}");
}

/// Puts a message. If the queue is full it is handed back.
pub(crate) fn put_message(rt: &impl Wait, putter: &mut Putter, message: Message) -> Option<Message>
    ensures { putter.new.queue ≡ putter.old.queue }
{
    putter.put(rt, message).err()
}

/// Puts the message of this time: it is put, or handed back.
pub(crate) fn put(
    rt: &(impl Abort + Wait),
    alloc: Global,
    putter: &mut Putter,
    time: u64,
    has_room: bool,
)
    ensures { putter.new.queue ≡ putter.old.queue }
{
    let back = put_message(rt, putter, message_at(rt, alloc, time));
    assert!(rt; back.is_none() == has_room, "{time}");
    if let Some(back) = back {
        check_same(rt, &back, &message_at(rt, alloc, time));
    }
}

/// Puts a message at each time, each of which has room or not.
pub(crate) fn put_each(
    rt: &(impl Abort + Wait),
    alloc: Global,
    putter: &mut Putter,
    rows: &[(u64, bool)],
) {
    for (time, has_room) in rows {
        put(rt, alloc, putter, *time, *has_room);
    }
}

/// Takes a message.
pub(crate) fn take_message(rt: &(impl Abort + Wait), taker: &mut Taker) -> Message
    ensures { taker.new.queue ≡ taker.old.queue }
{
    taker.take(rt).expect(rt, "a message")
}

/// Takes the message of this time.
pub(crate) fn take(rt: &(impl Abort + Wait), alloc: Global, taker: &mut Taker, time: u64)
    ensures { taker.new.queue ≡ taker.old.queue }
{
    check_same(rt, &take_message(rt, taker), &message_at(rt, alloc, time));
}

/// Takes the messages of these times.
pub(crate) fn take_each(rt: &(impl Abort + Wait), alloc: Global, taker: &mut Taker, times: &[u64]) {
    for time in times {
        take(rt, alloc, taker, *time);
    }
}

/// Finds the queue empty.
pub(crate) fn take_nothing(rt: &(impl Abort + Wait), taker: &mut Taker) {
    assert!(rt; taker.take(rt).is_none());
}
