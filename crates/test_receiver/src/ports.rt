//! What partitions find at the ports.
use crate::opened::{Given, check_count, check_frames, opened};
use receiver::Net::A;
use receiver::Verdict::{Overflow, Queued, Sampled};
use receiver::{Freshness, MailboxReader, Reading, RingTaker, Verdict};
use std::alloc::Global;
use std::process::Abort;
use test_inputs::rows::{FrameRow, NAV, NAV_UDP, POS};
use test_inputs::{IP, PAYLOAD, UDP};

/// The octets of `PAYLOAD`.
pub(crate) const OCTETS: [u8; 17] = [1, 2, 3, 4, 5, 6, 7, 8, 9, 10, 11, 12, 13, 14, 15, 16, 17];

/// A reader reads this message at its time: its number, and its time in microseconds. `pos` has a refresh period of
/// 20 milliseconds.
fn check_read(rt: &impl Abort, reader: &mut MailboxReader, (number, time): (u64, u64)) {
    let mut out = [0; 17];
    for (now, validity) in [
        (time, Freshness::Fresh),
        (time.saturating_add(20_000), Freshness::Fresh),
        (time.saturating_add(20_001), Freshness::Stale),
    ] {
        let len = 17;
        let wanted = Reading::Message {
            number,
            time,
            len,
            validity,
        };
        assert!(rt; reader.read(now, &mut out) == wanted);
        assert!(rt; out == OCTETS);
    }
}

/// A datagram for `pos`, a millisecond after the one before.
fn bring_sample(rt: &impl Abort, alloc: Global, given: &mut Given, number: u8) {
    let time = u64::from(number) * 1000;
    let verdict = Sampled(POS, u64::from(number));
    let row: FrameRow<'static> = (A, time, number, IP, UDP, PAYLOAD, verdict);
    check_frames(rt, alloc, &mut given.receiver, &[row]);
}

fn check_all_read(rt: &impl Abort, alloc: Global) {
    let mut given = opened(rt, alloc);
    for reader in &mut given.readers {
        assert!(rt; reader.max() == 1471 && reader.refresh() == 20_000);
        assert!(rt; reader.read(0, &mut [0; 17]) == Reading::Empty);
    }
    bring_sample(rt, alloc, &mut given, 1);
    bring_sample(rt, alloc, &mut given, 2);
    for reader in &mut given.readers {
        check_read(rt, reader, (2, 2000));
    }
}

// rule: PORT-7, EMB-2, EMB-4
#[test]
fn every_reader_of_a_port_reads_the_newest_message(rt: HostRuntime) {
    check_all_read(&rt, rt.alloc());
}

/// The taker takes the message of this time, right before which so many were lost.
fn take_after(rt: &impl Abort, taker: &mut RingTaker, time: u64, lost: u64) {
    let mut out = [0; 8192];
    assert!(rt; taker.max() <= out.len());
    let got = taker.take(&mut out).expect(rt, "a message");
    assert!(rt; got.time == time && got.len == 17 && got.lost == lost);
    assert!(rt; out.starts_with(&OCTETS));
}

/// The taker takes the message of this time, right before which none was lost.
pub(crate) fn take(rt: &impl Abort, taker: &mut RingTaker, time: u64) {
    take_after(rt, taker, time, 0);
}

/// The taker finds no message.
fn check_empty(rt: &impl Abort, taker: &mut RingTaker) {
    let mut out = [0; 8192];
    assert!(rt; taker.max() <= out.len());
    assert!(rt; taker.take(&mut out).is_none());
}

/// A datagram for `nav`, a millisecond after the one before.
pub(crate) fn bring(
    rt: &impl Abort,
    alloc: Global,
    given: &mut Given,
    number: u8,
    verdict: Verdict,
) {
    let time = u64::from(number) * 1000;
    let row: FrameRow<'static> = (A, time, number, IP, NAV_UDP, PAYLOAD, verdict);
    check_frames(rt, alloc, &mut given.receiver, &[row]);
}

/// The queue of `nav` holds four messages.
fn check_queue(rt: &impl Abort, alloc: Global) {
    let mut given = opened(rt, alloc);
    check_empty(rt, &mut given.taker);
    for number in 1..=4 {
        bring(rt, alloc, &mut given, number, Queued(NAV));
    }
    bring(rt, alloc, &mut given, 5, Overflow(NAV));
    take(rt, &mut given.taker, 1000);
    bring(rt, alloc, &mut given, 6, Queued(NAV));
    bring(rt, alloc, &mut given, 7, Overflow(NAV));
    for time in [2000, 3000, 4000] {
        take(rt, &mut given.taker, time);
    }
    take_after(rt, &mut given.taker, 6000, 1);
    check_empty(rt, &mut given.taker);
    check_count(rt, &given, A, Queued(NAV), 5);
    check_count(rt, &given, A, Overflow(NAV), 2);
}

// rule: PORT-7, PORT-17, EMB-10
#[test]
fn a_taker_takes_in_order_and_makes_room(rt: HostRuntime) {
    check_queue(&rt, rt.alloc());
}

/// The queue of `nav` holds four messages.
fn check_losses(rt: &impl Abort, alloc: Global) {
    let mut given = opened(rt, alloc);
    assert!(rt; given.taker.waiting() == 0);
    for number in 1..=4 {
        bring(rt, alloc, &mut given, number, Queued(NAV));
    }
    bring(rt, alloc, &mut given, 5, Overflow(NAV));
    bring(rt, alloc, &mut given, 6, Overflow(NAV));
    assert!(rt; given.taker.waiting() == 4);
    take(rt, &mut given.taker, 1000);
    bring(rt, alloc, &mut given, 7, Queued(NAV));
    bring(rt, alloc, &mut given, 8, Overflow(NAV));
    for time in [2000, 3000, 4000] {
        take(rt, &mut given.taker, time);
    }
    take_after(rt, &mut given.taker, 7000, 2);
    assert!(rt; given.taker.waiting() == 0);
    bring(rt, alloc, &mut given, 9, Queued(NAV));
    bring(rt, alloc, &mut given, 10, Queued(NAV));
    assert!(rt; given.taker.waiting() == 2);
    take_after(rt, &mut given.taker, 9000, 1);
    take(rt, &mut given.taker, 10_000);
    check_empty(rt, &mut given.taker);
}

// rule: PORT-19, EMB-10
#[test]
fn a_taker_is_told_what_was_lost_before_each_message(rt: HostRuntime) {
    check_losses(&rt, rt.alloc());
}
