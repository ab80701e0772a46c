//! What a pass counts, before the system ends and after.
use crate::histories::check_events;
use crate::rows::{LINK_17, check_frame, check_frames, opened, rows_of};
use end_system::{NetPass, PassCounts, Settled};
use es_base::Net::{A, B};
use es_base::{LinkNo, Net, VERDICT_KINDS};
use std::alloc::Global;
use std::process::Abort;
use std::sync::Wait;
use test_inputs::rows::two_frames_late;
use test_inputs_end_system::Given;

/// So many frames of a kind were given to the link with this number.
pub(crate) type Count = (u16, usize, u64);

fn check_count(rt: &impl Abort, pass: &NetPass, count: Count) {
    let (vl, kind, wanted) = count;
    assert!(rt; 1 <= kind && kind <= VERDICT_KINDS);
    let found = pass.count(LinkNo(vl), kind);
    assert!(rt; found == wanted, "{vl} {kind}: {found}");
}

fn check_settled_count(rt: &impl Abort, counts: &PassCounts, count: Count) {
    let (vl, kind, wanted) = count;
    assert!(rt; 1 <= kind && kind <= VERDICT_KINDS);
    let found = counts.count(LinkNo(vl), kind);
    assert!(rt; found == wanted, "{vl} {kind}: {found}");
}

/// On the link with this number so many frames were given, all of one kind.
pub(crate) fn check_pass(rt: &impl Abort, pass: &NetPass, vl: u16, kind: usize, frames: u64) {
    assert!(rt; pass.calls(LinkNo(vl)) == frames, "{vl}");
    for other in 1..=VERDICT_KINDS {
        let wanted = if other == kind { frames } else { 0 };
        check_count(rt, pass, (vl, other, wanted));
    }
}

/// The same once the system has ended.
pub(crate) fn check_counts(
    rt: &impl Abort,
    counts: &PassCounts,
    vl: u16,
    kind: usize,
    frames: u64,
) {
    assert!(rt; counts.calls(LinkNo(vl)) == frames, "{vl}");
    for other in 1..=VERDICT_KINDS {
        let wanted = if other == kind { frames } else { 0 };
        check_settled_count(rt, counts, (vl, other, wanted));
    }
}

/// Two frames of network A became samples, and their copies on B are redundant. The link's history is what it was
/// given.
fn check_settled(rt: &impl Abort, settled: &Settled, given: &[Given]) {
    let Settled { links, a, b } = settled;
    assert!(rt; links.len() == 1 && a.net() == A && b.net() == B);
    check_counts(rt, a, 17, 10, 2);
    check_counts(rt, b, 17, 2, 2);
    check_counts(rt, a, 18, 1, 0);
    check_counts(rt, b, 18, 1, 0);
    for link in links {
        check_events(rt, 0, link.history(), given);
    }
}

fn check_two_frames(rt: &(impl Abort + Wait), alloc: Global) {
    let mut running = opened(rt, alloc);
    assert!(rt; running.pass(A).net() == A && running.pass(B).net() == B);
    check_pass(rt, running.pass(A), 17, 1, 0);
    let rows = rows_of(rt, alloc, &two_frames_late());
    let given = check_frames(rt, alloc, &mut running, &rows);
    check_pass(rt, running.pass(A), 17, 10, 2);
    check_pass(rt, running.pass(B), 17, 2, 2);
    check_pass(rt, running.pass(A), 18, 1, 0);
    check_pass(rt, running.pass(B), 18, 1, 0);
    check_settled(rt, &running.settle(), &given);
}

// rule: EMB-38
#[test]
fn each_pass_counts_its_own_calls(rt: HostRuntime) {
    check_two_frames(&rt, rt.alloc());
}
