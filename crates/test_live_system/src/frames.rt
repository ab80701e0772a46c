//! Worked frames, each with its reply, and frames that come to no link.
use crate::running::{LINK_17, check_counts, check_frame, open};
use es_base::Net::{A, B};
use es_base::Verdict::{Redundant, Sampled};
use es_base::{FilterCause, LinkNo};
use live_system::Reply;
use std::alloc::Global;
use std::process::Abort;
use std::sync::Wait;
use test_inputs::rows::{
    FrameRow, POS, bad_and_good, copy_after_skew_max, copy_at_skew_max, copy_before_its_first,
    first_twice, five_begin, in_order, joined_for_a_sampling_port, last_first, packet_row,
    reset_after_255, smallest_row, turn, two_frames_late, window,
};

/// A new system gives these frames these verdicts, and the places from 0 on.
fn check_rows(rt: &(impl Abort + Wait), alloc: Global, rows: &[FrameRow<'_>]) {
    let mut running = open(rt, alloc);
    let mut place = 0u64;
    for row in rows {
        check_frame(rt, alloc, &mut running, place, *row);
        place = place.wrapping_add(1);
    }
    let settled = running.settle();
    assert!(rt; settled.links.len() == 1);
    for link in &settled.links {
        assert!(rt; link.settings().vl() == LINK_17 && link.received() == place);
    }
}

fn check_worked(rt: &(impl Abort + Wait), alloc: Global) {
    check_rows(rt, alloc, &window().map(smallest_row));
    check_rows(rt, alloc, &turn().map(smallest_row));
    check_rows(rt, alloc, &copy_at_skew_max().map(smallest_row));
    check_rows(rt, alloc, &copy_after_skew_max().map(smallest_row));
    check_rows(rt, alloc, &two_frames_late().map(smallest_row));
    check_rows(rt, alloc, &reset_after_255().map(smallest_row));
    check_rows(rt, alloc, &copy_before_its_first().map(smallest_row));
    check_rows(rt, alloc, &bad_and_good());
    check_rows(rt, alloc, &in_order().map(packet_row));
    check_rows(rt, alloc, &last_first().map(packet_row));
    check_rows(rt, alloc, &first_twice().map(packet_row));
    check_rows(rt, alloc, &five_begin().map(packet_row));
    check_rows(rt, alloc, &joined_for_a_sampling_port().map(packet_row));
}

// rule: EMB-29, EMB-30
#[test]
fn worked_frames_have_their_replies(rt: HostRuntime) {
    check_worked(&rt, rt.alloc());
}

/// Two frames of A, and two copies on B that come too late: each pass counts its own, and no other link's.
fn check_both_passes(rt: &(impl Abort + Wait), alloc: Global) {
    let mut running = open(rt, alloc);
    let mut place = 0u64;
    for row in &two_frames_late() {
        check_frame(rt, alloc, &mut running, place, smallest_row(*row));
        place = place.wrapping_add(1);
    }
    assert!(rt; running.pass(A).calls(LINK_17) == 2 && running.pass(B).calls(LINK_17) == 2);
    let settled = running.settle();
    assert!(rt; settled.a.net() == A && settled.b.net() == B);
    check_counts(rt, &settled.a, Sampled(POS, 1), 2, 0);
    check_counts(rt, &settled.b, Redundant, 2, 0);
    assert!(rt; settled.a.calls(LinkNo(18)) == 0 && settled.a.count(LinkNo(18), 10) == 0);
}

// rule: EMB-33
#[test]
fn each_pass_counts_its_own_frames(rt: HostRuntime) {
    check_both_passes(&rt, rt.alloc());
}

/// Frames that are too short: of each network so many.
fn check_too_short(rt: &(impl Abort + Wait), alloc: Global) {
    let mut running = open(rt, alloc);
    let wanted = Reply::Filtered(FilterCause::TooShort);
    for net in [A, B] {
        assert!(rt; running.receive(rt, net, 1, &[3; 59]) == wanted);
    }
    assert!(rt; running.try_receive(B, 1, &[3; 59]) == Some(wanted));
    assert!(rt; running.pass(A).filtered(FilterCause::TooShort) == 1);
    assert!(rt; running.pass(B).filtered(FilterCause::TooShort) == 2);
    assert!(rt; running.pass(A).calls(LINK_17) == 0 && running.pass(B).calls(LINK_17) == 0);
    let settled = running.settle();
    assert!(rt; settled.b.filtered(FilterCause::TooShort) == 2);
    assert!(rt; settled.b.filtered(FilterCause::UnknownLink) == 0);
    for link in &settled.links {
        assert!(rt; link.received() == 0);
    }
}

// rule: CONC-5, EMB-31
#[test]
fn filtered_frames_come_to_no_link(rt: HostRuntime) {
    check_too_short(&rt, rt.alloc());
}
