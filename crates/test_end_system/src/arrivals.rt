//! A frame whose octets the system keeps comes to the same as one that it copies.
use crate::histories::check_events;
use crate::rows::{LINK_17, octets_of, opened, packet_rows, receive, rows_of};
use end_system::{NoGate, PassCounts};
use es_base::Net::A;
use es_base::{FilterCause, Octets};
use std::alloc::Global;
use std::process::Abort;
use std::sync::Wait;
use test_inputs::rows::{FrameRow, in_order, two_frames_late};
use test_inputs_end_system::{Given, Running};

/// Both systems receive the frame, one of which keeps its octets, with the same reply. Returns what link 17 was given.
fn check_both(
    rt: &(impl Abort + Wait),
    alloc: Global,
    copies: &mut Running<NoGate>,
    keeps: &mut Running<NoGate>,
    place: u64,
    row: FrameRow<'_>,
) -> Given {
    let (net, time, _, _, _, _, verdict) = row;
    let frame = octets_of(rt, alloc, row);
    let reply = receive(rt, alloc, copies, net, time, &frame);
    let octets = Octets::from(octets_of(rt, alloc, row));
    let kept = keeps.receive_arrival(rt, alloc, net, time, octets);
    assert!(rt; kept.expect(rt, "memory") == reply, "{place}");
    Given {
        net,
        time,
        frame,
        place,
        verdict,
    }
}

/// Both systems filter a frame of 59 octets.
fn check_filtered(
    rt: &(impl Abort + Wait),
    alloc: Global,
    copies: &mut Running<NoGate>,
    keeps: &mut Running<NoGate>,
) {
    let short = [3; 59];
    let reply = receive(rt, alloc, copies, A, 1000, &short);
    let octets = Octets::copy_of(alloc, &short).expect(rt, "memory");
    let kept = keeps.receive_arrival(rt, alloc, A, 1000, octets);
    assert!(rt; kept.expect(rt, "memory") == reply);
}

fn check_counts(rt: &impl Abort, copied: &PassCounts, kept: &PassCounts) {
    let cause = FilterCause::TooShort;
    assert!(rt; copied.filtered(cause) == kept.filtered(cause));
    assert!(rt; copied.calls(LINK_17) == kept.calls(LINK_17));
}

/// Two systems receive these frames, one of which keeps their octets: replies, histories and counts are the same.
fn check_rows(rt: &(impl Abort + Wait), alloc: Global, rows: &[FrameRow<'_>]) {
    let mut copies = opened(rt, alloc);
    let mut keeps = opened(rt, alloc);
    let mut given = Vec::new(alloc);
    for row in rows {
        let place = given.len() as u64;
        let one = check_both(rt, alloc, &mut copies, &mut keeps, place, *row);
        given.push(one).expect(rt, "memory");
    }
    check_filtered(rt, alloc, &mut copies, &mut keeps);
    let copied = copies.settle();
    let kept = keeps.settle();
    check_counts(rt, &copied.a, &kept.a);
    check_counts(rt, &copied.b, &kept.b);
    for (copied, kept) in copied.links.iter().zip(&kept.links) {
        check_events(rt, 0, copied.history(), &given);
        check_events(rt, 0, kept.history(), &given);
    }
}

// rule: CONC-5
#[test]
fn a_frame_that_is_kept_comes_to_the_same_as_one_that_is_copied(rt: HostRuntime) {
    let smallest = rows_of(&rt, rt.alloc(), &two_frames_late());
    check_rows(&rt, rt.alloc(), &smallest);
    let packets = packet_rows(&rt, rt.alloc(), &in_order());
    check_rows(&rt, rt.alloc(), &packets);
}
