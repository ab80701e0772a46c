//! Readers and takers, in slots of their own.
use crate::given::{NOTHING_READ, NOTHING_TAKEN, bring, frame, opened, reply};
use receiver_slots::codes::{
    ALREADY_OPEN, DONE, HOLDS_NONE, HOLDS_ONE, NO_NAME, NONE_LEFT, NOT_OPEN, OUT_OF_RANGE,
    TOO_SHORT,
};
use receiver_slots::{LimitReply, ReadReply, ReaderSlot, ReceiverSlot, TakeReply, TakerSlot};
use std::alloc::Global;
use std::process::Abort;

/// The octets of the messages.
const OCTETS: [u8; 17] = [1, 2, 3, 4, 5, 6, 7, 8, 9, 10, 11, 12, 13, 14, 15, 16, 17];

/// The verdict Sampled.
const SAMPLED: u32 = 10;

/// The verdict Queued.
const QUEUED: u32 = 11;

/// A reader of `pos`.
fn reader(rt: &impl Abort, slot: &mut ReceiverSlot) -> ReaderSlot {
    let mut reader = ReaderSlot::new();
    let code = slot.hand_reader(&mut reader, b"pos");
    assert!(rt; code == DONE);
    reader
}

/// Reply for the message with this number, which came at as many milliseconds.
fn message(number: u64, valid: u32) -> ReadReply {
    ReadReply {
        found: 1,
        valid,
        number,
        time: number.wrapping_mul(1000),
        len: 17,
    }
}

/// Why a slot gets no reader.
fn refusal(slot: &mut ReceiverSlot, name: &[u8]) -> u32 {
    let mut to = ReaderSlot::new();
    let code = slot.hand_reader(&mut to, name);
    let _ = to.into_reader();
    code
}

fn check_readers_handed(rt: &impl Abort, alloc: Global) {
    let mut slot = opened(rt, alloc);
    assert!(rt; refusal(&mut slot, b"po") == NO_NAME && refusal(&mut slot, &[255]) == NO_NAME);
    assert!(rt; refusal(&mut slot, b"nav") == NONE_LEFT);
    for _ in 0..8 {
        let mut to = reader(rt, &mut slot);
        let code = slot.hand_reader(&mut to, b"pos");
        let is_there = to.into_reader().is_some();
        assert!(rt; code == ALREADY_OPEN && is_there);
    }
    assert!(rt; refusal(&mut slot, b"pos") == NONE_LEFT && refusal(&mut slot, b"alt") == DONE);
    slot.close();
    assert!(rt; refusal(&mut slot, b"pos") == NOT_OPEN);
}

// rule: EMB-12
#[test]
fn eight_readers_are_handed_out_by_the_name_of_a_port(rt: HostRuntime) {
    check_readers_handed(&rt, rt.alloc());
}

/// A read at this time, in microseconds: what is answered, and what is told.
pub(crate) fn read(slot: &mut ReaderSlot, now: u64, out: &mut [u8]) -> (u32, ReadReply) {
    let mut told = NOTHING_READ;
    let code = slot.read(now, out, &mut told);
    (code, told)
}

/// A hold at this time, in microseconds: what is answered, and what is told.
fn hold(slot: &mut ReaderSlot, now: u64) -> (u32, ReadReply) {
    let mut told = NOTHING_READ;
    let code = slot.hold(now, &mut told);
    (code, told)
}

/// A reader finds nothing, and then the newest message.
fn newest_is_read(
    rt: &impl Abort,
    alloc: Global,
    slot: &mut ReceiverSlot,
    pos: &mut ReaderSlot,
) -> bool {
    let mut out = [0; 18];
    let nothing = read(pos, 0, &mut out) == (DONE, NOTHING_READ)
        && hold(pos, 0) == (DONE, NOTHING_READ);
    let received = bring(rt, alloc, slot, false, 1) == SAMPLED
        && bring(rt, alloc, slot, false, 2) == SAMPLED;
    let fresh = read(pos, 22_000, &mut out) == (DONE, message(2, 1));
    let stale = read(pos, 22_001, &mut out) == (DONE, message(2, 0));
    nothing && received && fresh && stale && out.starts_with(&OCTETS) && out.last() == Some(&0)
}

/// The message is held while twenty more come, is copied, and is released.
fn message_is_held(
    rt: &impl Abort,
    alloc: Global,
    slot: &mut ReceiverSlot,
    pos: &mut ReaderSlot,
) -> bool {
    let mut part = [0; 3];
    let before = pos.copy(0, &mut part) == HOLDS_NONE && pos.release() == HOLDS_NONE;
    let nowhere = pos.octets() == None;
    let stale = hold(pos, 22_001) == (DONE, message(2, 0)) && pos.release() == DONE;
    let held = hold(pos, 22_000) == (DONE, message(2, 1));
    let mut received = 0;
    for number in 3..23u8 {
        received = bring(rt, alloc, slot, false, number);
    }
    let again = hold(pos, 0).0 == HOLDS_ONE && read(pos, 0, &mut part).0 == HOLDS_ONE;
    let in_place = pos.octets() == Some(&OCTETS[..]);
    let copied = pos.copy(14, &mut part) == DONE && part == [15, 16, 17];
    let too_far = pos.copy(15, &mut part) == OUT_OF_RANGE
        && pos.copy(usize::MAX, &mut part) == OUT_OF_RANGE;
    let released = pos.release() == DONE && pos.release() == HOLDS_NONE;
    let newest = read(pos, 22_000, &mut part) == (DONE, message(22, 1));
    let is_told = before && stale && held && again && released && newest;
    is_told && received == SAMPLED && nowhere && in_place && copied && too_far
}

/// The limits of `pos`; a reader that holds a message is closed.
fn reader_is_closed(pos: &mut ReaderSlot) -> bool {
    let mut limits = LimitReply { max: 0, limit: 0 };
    let told = pos.limits(&mut limits) == DONE && limits.max == 1471 && limits.limit == 20_000;
    let held = hold(pos, 0).0 == DONE && pos.limits(&mut limits) == HOLDS_ONE;
    pos.close();
    let closed = read(pos, 0, &mut [0; 3]).0 == NOT_OPEN && hold(pos, 0).0 == NOT_OPEN;
    let still = pos.copy(0, &mut [0; 3]) == HOLDS_NONE && pos.limits(&mut limits) == NOT_OPEN;
    told && held && closed && still
}

fn check_reads(rt: &impl Abort, alloc: Global) {
    let mut slot = opened(rt, alloc);
    let mut pos = reader(rt, &mut slot);
    let is_read = newest_is_read(rt, alloc, &mut slot, &mut pos);
    let is_held = message_is_held(rt, alloc, &mut slot, &mut pos);
    let is_closed = reader_is_closed(&mut pos);
    let is_gone = pos.into_reader().is_none();
    assert!(rt; is_read, "read");
    assert!(rt; is_held, "held");
    assert!(rt; is_closed && is_gone, "closed");
}

// rule: EMB-15, EMB-18, EMB-23
#[test]
fn a_reader_reads_holds_and_copies_the_newest_message(rt: HostRuntime) {
    check_reads(&rt, rt.alloc());
}

/// A take: what is answered, and what is told.
pub(crate) fn take(slot: &mut TakerSlot, out: &mut [u8]) -> (u32, TakeReply) {
    let mut told = NOTHING_TAKEN;
    let code = slot.take(out, &mut told);
    (code, told)
}

fn check_taker_handed(rt: &impl Abort, slot: &mut ReceiverSlot, nav: &mut TakerSlot) {
    let mut out = [0; 8192];
    assert!(rt; take(nav, &mut out).0 == NOT_OPEN && nav.longest(&mut 0) == NOT_OPEN);
    assert!(rt; nav.waiting(&mut 0) == NOT_OPEN);
    assert!(rt;
        slot.hand_taker(nav, b"pos") == NONE_LEFT && slot.hand_taker(nav, b"na") == NO_NAME
    );
    assert!(rt;
        slot.hand_taker(nav, b"nav") == DONE && slot.hand_taker(nav, b"nav") == ALREADY_OPEN
    );
    let mut other = TakerSlot::new();
    assert!(rt; slot.hand_taker(&mut other, b"nav") == NONE_LEFT);
    assert!(rt; ReceiverSlot::new().hand_taker(&mut other, b"nav") == NOT_OPEN);
}

fn check_takes(rt: &impl Abort, alloc: Global) {
    let (mut slot, mut nav) = (opened(rt, alloc), TakerSlot::new());
    check_taker_handed(rt, &mut slot, &mut nav);
    let mut out = [0; 8192];
    assert!(rt; take(&mut nav, &mut out) == (DONE, NOTHING_TAKEN));
    for number in 1..=2 {
        assert!(rt; bring(rt, alloc, &mut slot, true, number) == QUEUED);
    }
    let mut waiting = 9;
    assert!(rt; nav.waiting(&mut waiting) == DONE && waiting == 2);
    let mut short = [0; 8191];
    assert!(rt; take(&mut nav, &mut short).0 == TOO_SHORT);
    for number in 1..=2u64 {
        let wanted = TakeReply {
            found: 1,
            time: number * 1000,
            len: 17,
            lost: 0,
        };
        assert!(rt; take(&mut nav, &mut out) == (DONE, wanted) && out.starts_with(&OCTETS));
    }
    assert!(rt; take(&mut nav, &mut out) == (DONE, NOTHING_TAKEN));
    let mut max = 0;
    assert!(rt; nav.longest(&mut max) == DONE && max == 8192);
    nav.close();
    assert!(rt; take(&mut nav, &mut out).0 == NOT_OPEN);
}

// rule: EMB-12, EMB-15, EMB-19
#[test]
fn a_taker_takes_each_message_once_and_in_order(rt: HostRuntime) {
    check_takes(&rt, rt.alloc());
}

/// A sample comes at this time, and then a message for `nav`: both have it.
fn check_time(rt: &impl Abort, alloc: Global, time: u64) {
    let (mut slot, mut nav) = (opened(rt, alloc), TakerSlot::new());
    let mut pos = reader(rt, &mut slot);
    assert!(rt; slot.hand_taker(&mut nav, b"nav") == DONE);
    let sampled = reply(rt, &mut slot, (0, time), &frame(rt, alloc, false, 1)).kind;
    let queued = reply(rt, &mut slot, (0, time), &frame(rt, alloc, true, 2)).kind;
    assert!(rt; sampled == SAMPLED && queued == QUEUED);
    let (mut out, found, len, lost) = ([0; 8192], 1, 17, 0);
    let taken = TakeReply {
        found,
        time,
        len,
        lost,
    };
    assert!(rt; take(&mut nav, &mut out) == (DONE, taken));
    let mut newest = message(1, 1);
    newest.time = time;
    assert!(rt; read(&mut pos, time, &mut out) == (DONE, newest));
    let _ = pos.into_reader();
}

// rule: EMB-18, EMB-19
#[test]
fn times_of_64_bits_are_told_whole(rt: HostRuntime) {
    check_time(&rt, rt.alloc(), (1 << 48) + 7);
    check_time(&rt, rt.alloc(), u64::MAX);
}
