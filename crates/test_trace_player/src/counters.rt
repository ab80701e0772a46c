//! Counts of events and of filtered frames, and their lines.
use es_base::Net::{A, B};
use es_base::{FILTER_CAUSES, FilterCause, FilterTally, Net, VERDICT_KINDS, VerdictTally};
use output_lines::{write_counts, write_filtered};
use std::alloc::Global;
use std::process::Abort;
use test_inputs::LINK;

/// One more event on this network with a verdict of this kind.
fn add(rt: &impl Abort, tally: &mut VerdictTally, net: Net, kind: usize) {
    assert!(rt; 1 <= kind && kind <= VERDICT_KINDS);
    tally.add(net, kind);
}

/// The network and the kind of each event.
fn events() -> [(Net, usize); 6] {
    [(A, 10), (B, 2), (A, 10), (A, 1), (B, 13), (A, 13)]
}

/// The tally has these counts of events on a network, from kind 1 on.
fn check_counts(rt: &impl Abort, tally: &VerdictTally, net: Net, wanted: [u64; VERDICT_KINDS]) {
    for before in 0..VERDICT_KINDS {
        let count = tally.count(net, before + 1);
        assert!(rt; count == wanted[before], "{net:?} {before}");
    }
}

fn check_events(rt: &impl Abort) {
    let mut tally = VerdictTally::opening();
    for (net, kind) in events() {
        add(rt, &mut tally, net, kind);
    }
    check_counts(rt, &tally, A, [1, 0, 0, 0, 0, 0, 0, 0, 0, 2, 0, 0, 1]);
    check_counts(rt, &tally, B, [0, 1, 0, 0, 0, 0, 0, 0, 0, 0, 0, 0, 1]);
}

// rule: COUNT-1, REP-8
#[test]
fn events_are_counted_by_network_and_kind(rt: HostRuntime) {
    check_events(&rt);
}

/// The network and the cause of each filtered frame.
fn filtered() -> [(Net, FilterCause); 4] {
    [
        (A, FilterCause::TooShort),
        (B, FilterCause::UnknownLink),
        (A, FilterCause::NotIp),
        (A, FilterCause::TooShort),
    ]
}

/// The tally has these counts of filtered frames on a network, from kind 1 on.
fn check_filtered(rt: &impl Abort, tally: &FilterTally, net: Net, wanted: [u64; FILTER_CAUSES]) {
    for before in 0..FILTER_CAUSES {
        let count = tally.count(net, before + 1);
        assert!(rt; count == wanted[before], "{net:?} {before}");
    }
}

fn check_causes(rt: &impl Abort) {
    let mut tally = FilterTally::opening();
    for (net, cause) in filtered() {
        tally.add(net, cause.kind());
    }
    check_filtered(rt, &tally, A, [2, 0, 1, 0, 0]);
    check_filtered(rt, &tally, B, [0, 0, 0, 0, 1]);
}

// rule: COUNT-2, REP-9
#[test]
fn filtered_frames_are_counted_by_network_and_cause(rt: HostRuntime) {
    check_causes(&rt);
}

/// The counts of link 17 and of filtered frames, before any frame came, are these four lines.
fn check_zeros(rt: &impl Abort, alloc: Global) {
    let link = LINK.settings(alloc).expect(rt, "settings");
    let mut text = Vec::new(alloc);
    let counts = write_counts(&mut text, &link, &VerdictTally::opening());
    let filtered = write_filtered(&mut text, &FilterTally::opening());
    assert!(rt; counts.is_ok() && filtered.is_ok());
    assert!(rt; text.as_slice() == ZEROS.as_bytes());
}

const ZEROS: &str = "count 17 A 0 0 0 0 0 0 0 0 0 0 0 0 0
count 17 B 0 0 0 0 0 0 0 0 0 0 0 0 0
filtered A 0 0 0 0 0
filtered B 0 0 0 0 0
";

// rule: REP-8, REP-9
#[test]
fn counts_stand_by_network(rt: HostRuntime) {
    check_zeros(&rt, rt.alloc());
}
