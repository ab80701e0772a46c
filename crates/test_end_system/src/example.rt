//! The program of which the law of all calls is proved: run on a frame and its copy, whose epoch it takes out.
use crate::counts::check_counts;
use crate::rows::{LINK_17, octets_of};
use end_system::Reply;
use es_base::Net::A;
use es_base::Verdict;
use es_base::Verdict::{Redundant, Sampled};
use std::alloc::Global;
use std::process::Abort;
use std::sync::Wait;
use system_examples::histories::{Ended, run};
use test_inputs::rows::{POS, smallest_row};
use test_inputs_end_system::{BUILT_IN, config_of};

/// Reply to the frame at this place of link 17.
fn reply_of(place: u64, verdict: Verdict) -> Reply {
    Reply::Link {
        vl: LINK_17,
        place,
        verdict,
    }
}

/// The program, with the same frame on both networks.
fn run_on_copies(rt: &(impl Abort + Wait), alloc: Global) -> Ended {
    let config = config_of(alloc, &[BUILT_IN]).expect(rt, "a configuration");
    let row = smallest_row((A, 1000, 1, Sampled(POS, 1)));
    let frame = octets_of(rt, alloc, row);
    let (on_a, on_b) = (frame.as_slice(), frame.as_slice());
    run(rt, alloc, &config, on_a, on_b, LINK_17).expect(rt, "memory")
}

/// The frame of A was sampled, that of B is redundant, as they were replied; both were taken out, and the history is empty.
fn check_example(rt: &(impl Abort + Wait), alloc: Global) {
    let Ended {
        settled,
        to_a,
        to_b,
        epoch,
    } = run_on_copies(rt, alloc);
    assert!(rt; to_a == reply_of(0, Sampled(POS, 1)) && to_b == reply_of(1, Redundant));
    assert!(rt; epoch.is_some_and(|epoch| epoch.first() == 0 && epoch.events().len() == 2));
    assert!(rt; settled.links.len() == 1);
    for link in &settled.links {
        assert!(rt; link.taken() == 2 && link.history().is_empty());
    }
    check_counts(rt, &settled.a, 17, 10, 1);
    check_counts(rt, &settled.b, 17, 2, 1);
}

// rule: CONC-9, EMB-35
#[test]
fn the_example_ends_with_both_frames_taken_out(rt: HostRuntime) {
    check_example(&rt, rt.alloc());
}
