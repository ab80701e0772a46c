//! The program of which the law of all calls is proved: run on a frame, and on its copy as a burst.
use crate::running::{LINK_17, built_in, octets_of};
use es_base::Net::{A, B};
use es_base::Verdict::Sampled;
use live_system::Reply;
use std::alloc::Global;
use std::process::Abort;
use std::sync::Wait;
use std::thread::Threads;
use system_examples::live::{Ended, run};
use test_inputs::rows::{POS, smallest_row};

/// Whether a reply is of link 17.
fn is_of_link_17(reply: Reply) -> bool {
    match reply {
        Reply::Link { vl, .. } => vl == LINK_17,
        Reply::Filtered(_) => false,
    }
}

/// Whichever came first was sampled, and the other one is redundant.
fn check_example<R: Abort + Threads + Wait + Sync>(rt: &R, alloc: Global) {
    let config = built_in(rt, alloc);
    let frame = octets_of(rt, alloc, smallest_row((A, 1000, 1, Sampled(POS, 1))));
    let Ended {
        settled,
        to_a,
        to_b,
    } = run(rt, alloc, &config, &frame, &[(1001, frame.as_slice())]).expect(rt, "memory");
    let [to_b, ..] = to_b;
    assert!(rt; is_of_link_17(to_a) && is_of_link_17(to_b));
    assert!(rt; settled.a.calls(LINK_17) == 1 && settled.b.calls(LINK_17) == 1);
    let (a, b) = (&settled.a, &settled.b);
    let sampled = a.count(LINK_17, 10).wrapping_add(b.count(LINK_17, 10));
    let redundant = a.count(LINK_17, 2).wrapping_add(b.count(LINK_17, 2));
    assert!(rt; sampled == 1 && redundant == 1);
    for link in &settled.links {
        assert!(rt; link.received() == 2);
    }
}

// rule: CONC-9
#[test]
fn the_example_takes_a_frame_and_its_copy(rt: HostRuntime) {
    check_example(&rt, rt.alloc());
}
