//! Worked frames, frames that come to no link, and many frames of all kinds.
use crate::opened::{Given, check_count, check_frames, octets_of, opened};
use receiver::Net::{A, B};
use receiver::{FilterCause, Net, Reply, Verdict, VerdictKind};
use std::alloc::Global;
use std::process::Abort;
use test_inputs::rows::{
    FrameRow, NAV, POS, bad_and_good, copy_after_skew_max, copy_at_skew_max, copy_before_its_first,
    first_twice, five_begin, in_order, joined_for_a_sampling_port, last_first, packet_row,
    reset_after_255, smallest_row, turn, two_frames_late, window,
};
use test_inputs::{longest, smallest};

/// A new receiver gives these frames these verdicts.
fn check_rows(rt: &impl Abort, alloc: Global, rows: &[FrameRow<'_>]) {
    let mut given = opened(rt, alloc);
    check_frames(rt, alloc, &mut given.receiver, rows);
}

fn check_worked(rt: &impl Abort, alloc: Global) {
    check_rows(rt, alloc, &window().map(smallest_row));
    check_rows(rt, alloc, &turn().map(smallest_row));
    check_rows(rt, alloc, &copy_at_skew_max().map(smallest_row));
    check_rows(rt, alloc, &copy_after_skew_max().map(smallest_row));
    check_rows(rt, alloc, &two_frames_late().map(smallest_row));
    check_rows(rt, alloc, &reset_after_255().map(smallest_row));
    check_rows(rt, alloc, &copy_before_its_first().map(smallest_row));
    check_rows(rt, alloc, &bad_and_good());
    check_rows(rt, alloc, &in_order().map(packet_row));
    check_rows(rt, alloc, &last_first().map(packet_row));
    check_rows(rt, alloc, &first_twice().map(packet_row));
    check_rows(rt, alloc, &five_begin().map(packet_row));
    check_rows(rt, alloc, &joined_for_a_sampling_port().map(packet_row));
}

// rule: HIST-1, EMB-4
#[test]
fn worked_frames_have_their_verdicts(rt: HostRuntime) {
    check_worked(&rt, rt.alloc());
}

/// These octets are filtered for this cause.
fn filter(rt: &impl Abort, given: &mut Given, net: Net, octets: &[u8], cause: FilterCause) {
    match given.receiver.receive(net, 1, octets) {
        Reply::Filtered(found) => assert!(rt; found == cause),
        Reply::Link { .. } => panic!(rt; "a frame that comes to no link"),
    }
}

/// So many frames on this network were filtered for this cause.
fn check_filtered(rt: &impl Abort, given: &Given, net: Net, cause: FilterCause, wanted: u64) {
    let count = given.receiver.filtered(net, cause);
    assert!(rt; count == wanted, "{net} {cause}: {count}");
    assert!(rt; given.receiver.filter_tally().count(net, cause.kind()) == wanted);
}

/// A smallest frame of link 99.
fn of_another_link(rt: &impl Abort, alloc: Global) -> Vec<u8> {
    let mut octets = smallest(alloc, 0).expect(rt, "octets");
    if let Some(octet) = octets.get_mut(5) {
        *octet = 99;
    }
    octets
}

fn check_causes(rt: &impl Abort, alloc: Global) {
    let mut given = opened(rt, alloc);
    let other = of_another_link(rt, alloc);
    let mut long = longest(alloc, 0).expect(rt, "octets");
    long.push(0).expect(rt, "memory");
    for _ in 0..3 {
        filter(rt, &mut given, A, &other, FilterCause::UnknownLink);
        filter(rt, &mut given, B, &long, FilterCause::TooLong);
        filter(rt, &mut given, B, &[3; 59], FilterCause::TooShort);
    }
    check_filtered(rt, &given, A, FilterCause::UnknownLink, 3);
    check_filtered(rt, &given, B, FilterCause::UnknownLink, 0);
    check_filtered(rt, &given, B, FilterCause::TooLong, 3);
    check_filtered(rt, &given, B, FilterCause::TooShort, 3);
}

// rule: COUNT-2, EMB-5
#[test]
fn filtered_frames_are_counted_by_network_and_cause(rt: HostRuntime) {
    check_causes(&rt, rt.alloc());
}

/// The frames of these rows, for many rounds.
fn kinds(rt: &impl Abort, alloc: Global) -> Vec<Vec<u8>> {
    let mut frames = octets_of(rt, alloc, &window().map(smallest_row));
    for octets in octets_of(rt, alloc, &in_order().map(packet_row)) {
        frames.push(octets).expect(rt, "memory");
    }
    for octets in octets_of(rt, alloc, &five_begin().map(packet_row)) {
        frames.push(octets).expect(rt, "memory");
    }
    frames
}

/// The next sequence number and the next time, a millisecond later.
fn next((number, time): (u8, u64)) -> (u8, u64) {
    let number = if number == 255 { 1 } else { number + 1 };
    (number, time.wrapping_add(1000))
}

/// Gives each frame on A with the next sequence number, then its copy on B, and then octets that are filtered.
fn give_all(given: &mut Given, frames: &mut [Vec<u8>], last: (u8, u64)) -> (u8, u64) {
    let mut at = last;
    for octets in frames.iter_mut() {
        at = next(at);
        if let Some(number) = octets.last_mut() {
            *number = at.0;
        }
        let _ = given.receiver.receive(A, at.1, octets);
        let _ = given.receiver.receive(B, at.1, octets);
        let _ = given.receiver.receive(B, at.1, &[3; 59]);
    }
    at
}

/// Takes a message, and reads one.
fn take_and_read(rt: &impl Abort, given: &mut Given) -> bool {
    let mut out = [0; 8192];
    assert!(rt; given.taker.max() <= out.len());
    if let Some(reader) = given.readers.last_mut() {
        let _ = reader.read(0, &mut [0; 16]);
    }
    given.taker.take(&mut out).is_some()
}

/// All kinds of verdicts, by their numbers.
fn all_kinds() -> [VerdictKind; 13] {
    [
        VerdictKind::OutOfSequence,
        VerdictKind::Redundant,
        VerdictKind::BadHeader,
        VerdictKind::BadFragment,
        VerdictKind::FragmentHeld,
        VerdictKind::BadUdp,
        VerdictKind::NoPort,
        VerdictKind::TooLong,
        VerdictKind::FragmentedSample,
        VerdictKind::Sampled,
        VerdictKind::Queued,
        VerdictKind::Overflow,
        VerdictKind::Exhausted,
    ]
}

/// Number of frames of link 17 that came.
fn count_all(rt: &impl Abort, given: &Given) -> u64 {
    let link = given.receiver.link(0).expect(rt, "a link");
    let mut all = 0u64;
    let mut number = 0usize;
    for kind in all_kinds() {
        number = number.wrapping_add(1);
        assert!(rt; kind.number() == number);
        all = all.wrapping_add(link.count(A, kind));
        all = all.wrapping_add(link.count(B, kind));
    }
    assert!(rt; link.received() == all);
    all
}

/// A thousand rounds of thirteen frames on both networks: sampled, queued and full, joined, given up, redundant. After
/// every third round a message is taken: 334, and three more wait at the end.
fn check_many(rt: &impl Abort, alloc: Global) {
    let mut frames = kinds(rt, alloc);
    let mut given = opened(rt, alloc);
    let mut taken = 0u64;
    let mut last = (0, 0);
    for round in 0..1000u64 {
        last = give_all(&mut given, &mut frames, last);
        if round % 3 == 0 && take_and_read(rt, &mut given) {
            taken = taken.wrapping_add(1);
        }
    }
    assert!(rt; taken == 334, "{taken}");
    check_filtered(rt, &given, B, FilterCause::TooShort, 13_000);
    check_count(rt, &given, A, Verdict::Sampled(POS, 1), 5000);
    check_count(rt, &given, A, Verdict::Queued(NAV), 337);
    check_count(rt, &given, B, Verdict::Redundant, 13_000);
    assert!(rt; count_all(rt, &given) == 26_000);
}

// rule: COUNT-1, EMB-1, EMB-5
#[test]
fn many_frames_of_all_kinds_are_counted(rt: HostRuntime) {
    check_many(&rt, rt.alloc());
}
