//! Frames that come to no link, the longest frame that comes to one, and how often the gate is entered.
use crate::counts::{check_counts, check_pass};
use crate::histories::check_events;
use crate::ports::check_readers_of;
use crate::rows::{LINK_17, opened_with, receive};
use end_system::{Gate, Reply};
use es_base::FilterCause::{ForeignConstant, NotIp, TooLong, TooShort, UnknownLink};
use es_base::Net::{A, B};
use es_base::Verdict::Sampled;
use es_base::{FilterCause, LinkNo};
use std::alloc::Global;
use std::process::Abort;
use std::sync::Wait;
use std::sync::atomic::{AtomicU64, Ordering};
use test_inputs::longest;
use test_inputs::rows::POS;
use test_inputs_end_system::{BUILT_IN, Given, Running, filtered_frames};

/// Counts how often it is entered, and asks for link 17.
#[derive(Clone, Copy)]
struct CountingGate<'a> {
    entries: &'a AtomicU64,
    others: &'a AtomicU64,
}

impl Gate for CountingGate<'_> {
    fn enter<R: Wait>(&self, _rt: &R, vl: LinkNo) {
        let count = if vl == LINK_17 {
            self.entries
        } else {
            self.others
        };
        count.fetch_add(1, Ordering::SeqCst);
    }
}

/// The frame is filtered for this cause, which the pass of network A counts.
fn check_filtered<G: Gate + Drop>(
    rt: &(impl Abort + Wait),
    alloc: Global,
    running: &mut Running<G>,
    cause: FilterCause,
    frame: &[u8],
) {
    assert!(rt; running.pass(A).filtered(cause) == 0);
    let reply = receive(rt, alloc, running, A, 1000, frame);
    assert!(rt; reply == Reply::Filtered(cause), "{reply:?}");
    assert!(rt; running.pass(A).filtered(cause) == 1);
}

/// Five frames are filtered, one for each cause. Link 18 isn't configured.
fn check_all_filtered<G: Gate + Drop>(
    rt: &(impl Abort + Wait),
    alloc: Global,
    running: &mut Running<G>,
) {
    let frames = filtered_frames(alloc, 18).expect(rt, "octets");
    for (cause, frame) in &frames {
        check_filtered(rt, alloc, running, *cause, frame);
    }
}

/// The longest frame becomes the first message of `pos`. Returns what link 17 was given.
fn check_longest<G: Gate + Drop>(
    rt: &(impl Abort + Wait),
    alloc: Global,
    running: &mut Running<G>,
) -> Given {
    let frame = longest(alloc, 0).expect(rt, "octets");
    let reply = receive(rt, alloc, running, A, 1000, &frame);
    let (place, verdict) = (0, Sampled(POS, 1));
    let vl = LINK_17;
    let wanted = Reply::Link { vl, place, verdict };
    assert!(rt; reply == wanted, "{reply:?}");
    Given {
        net: A,
        time: 1000,
        frame,
        place,
        verdict,
    }
}

/// Each reader of `pos` reads all 1471 octets of it.
fn check_longest_read<G: Gate + Drop>(rt: &impl Abort, running: &mut Running<G>) {
    let mut end = running.take_end("pos").expect(rt, "an end");
    check_readers_of(rt, &mut end, &[0x5a; 1471]);
}

/// One frame is filtered for each cause, all on network A, and the longest frame is the only event.
fn check_settled<G: Gate + Drop>(rt: &impl Abort, running: Running<G>, given: Given) {
    let settled = running.settle();
    for cause in [TooShort, TooLong, NotIp, ForeignConstant, UnknownLink] {
        assert!(rt; settled.a.filtered(cause) == 1 && settled.b.filtered(cause) == 0);
    }
    check_counts(rt, &settled.a, 17, 10, 1);
    check_counts(rt, &settled.b, 17, 10, 0);
    let given = [given];
    for link in &settled.links {
        check_events(rt, 0, link.history(), &given);
    }
}

fn check_gate(rt: &(impl Abort + Wait), alloc: Global) {
    let entries = AtomicU64::new(0);
    let others = AtomicU64::new(0);
    let gate = CountingGate {
        entries: &entries,
        others: &others,
    };
    let mut running = opened_with(rt, alloc, &[BUILT_IN], gate);
    check_all_filtered(rt, alloc, &mut running);
    check_pass(rt, running.pass(A), 17, 10, 0);
    assert!(rt; entries.load(Ordering::SeqCst) == 0);
    let given = check_longest(rt, alloc, &mut running);
    assert!(rt; entries.load(Ordering::SeqCst) == 1);
    assert!(rt; others.load(Ordering::SeqCst) == 0);
    check_longest_read(rt, &mut running);
    check_settled(rt, running, given);
}

// rule: COUNT-2, CONC-5, CONC-8
#[test]
fn a_filtered_frame_is_counted_and_enters_no_gate(rt: HostRuntime) {
    check_gate(&rt, rt.alloc());
}
