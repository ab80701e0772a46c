//! What became of the messages for a port.
use crate::opened::{Given, check_frames, opened};
use crate::ports::bring;
use receiver::Net::{A, B};
use receiver::Verdict::{OutOfSequence, Overflow, Queued, Redundant, Sampled};
use receiver::{Net, Newest, PortCounts, PortNo};
use std::alloc::Global;
use std::process::Abort;
use test_inputs::rows::{
    NAV, POS, SmallestRow, joined_for_a_sampling_port, packet_row, smallest_row,
};

/// A port to which nothing came.
const NOTHING: PortCounts = PortCounts {
    delivered: 0,
    overflowed: 0,
    too_long: 0,
    fragmented: 0,
    newest: None,
};

/// The first link has these counts of this port.
fn check_counts(rt: &impl Abort, given: &Given, port: PortNo, wanted: PortCounts) {
    let link = given.receiver.link(0).expect(rt, "a link");
    assert!(rt; link.port_counts(port) == Some(wanted));
}

/// So many messages were delivered, the newest at this time on this network.
fn delivered(delivered: u64, time: u64, net: Net) -> PortCounts {
    PortCounts {
        delivered,
        newest: Some(Newest { time, net }),
        ..NOTHING
    }
}

/// A sample comes on A, and its copy on B; one with a number too far ahead on A; the next one on B, at an earlier time.
fn samples() -> [SmallestRow; 4] {
    [
        (A, 1000, 1, Sampled(POS, 1)),
        (B, 1100, 1, Redundant),
        (A, 1050, 9, OutOfSequence),
        (B, 900, 2, Sampled(POS, 2)),
    ]
}

fn check_samples(rt: &impl Abort, alloc: Global) {
    let mut given = opened(rt, alloc);
    check_counts(rt, &given, POS, NOTHING);
    let rows = samples().map(smallest_row);
    check_frames(rt, alloc, &mut given.receiver, &rows[..3]);
    check_counts(rt, &given, POS, delivered(1, 1000, A));
    check_frames(rt, alloc, &mut given.receiver, &rows[3..]);
    check_counts(rt, &given, POS, delivered(2, 900, B));
    check_counts(rt, &given, NAV, NOTHING);
    let link = given.receiver.link(0).expect(rt, "a link");
    assert!(rt; link.port_counts(PortNo(2)).is_none());
}

// rule: EMB-45
#[test]
fn a_copy_that_is_dropped_counts_at_no_port(rt: HostRuntime) {
    check_samples(&rt, rt.alloc());
}

fn check_refused(rt: &impl Abort, alloc: Global) {
    let mut given = opened(rt, alloc);
    for number in 1..=4 {
        bring(rt, alloc, &mut given, number, Queued(NAV));
    }
    for number in 5..=6 {
        bring(rt, alloc, &mut given, number, Overflow(NAV));
    }
    let wanted = PortCounts {
        overflowed: 2,
        ..delivered(4, 4000, A)
    };
    check_counts(rt, &given, NAV, wanted);
    let mut other = opened(rt, alloc);
    let rows = joined_for_a_sampling_port().map(packet_row);
    check_frames(rt, alloc, &mut other.receiver, &rows);
    let wanted = PortCounts {
        fragmented: 1,
        ..NOTHING
    };
    check_counts(rt, &other, POS, wanted);
}

// rule: EMB-45
#[test]
fn messages_that_a_port_refuses_are_counted(rt: HostRuntime) {
    check_refused(&rt, rt.alloc());
}
