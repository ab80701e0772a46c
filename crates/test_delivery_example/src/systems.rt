//! Both kinds of end systems.
use crate::frames::{Example, LINK_17, MESSAGE, NAV, given};
use delivery_example::{keeping, two_threads};
use es_base::Verdict::{self, FragmentHeld, Queued, Redundant};
use network_calls::Reply;
use std::alloc::Global;
use std::process::Abort;
use std::sync::Wait;
use std::thread::Threads;

/// Whether a system that keeps no frame replied this.
fn is_live_reply(reply: live_system::Reply, place: u64, verdict: Verdict) -> bool {
    let at = 0;
    let vl = LINK_17;
    reply
        == live_system::Reply::Link {
            at,
            vl,
            place,
            verdict,
        }
}

/// Whether a system with histories replied this.
fn is_reply(reply: Reply, wanted_place: u64, wanted: Verdict) -> bool {
    let vl = LINK_17;
    reply
        == Reply::Link {
            vl,
            place: wanted_place,
            verdict: wanted,
        }
}

/// Whichever thread was first has its copy held, the other's is redundant, and B's second fragment completes the message.
fn check_threads<R: Abort + Threads + Wait + Sync>(rt: &R, alloc: Global) {
    let Example {
        config,
        on_a,
        first_on_b,
        second_on_b,
    } = given(rt, alloc);
    let ran = two_threads::run(rt, alloc, &config, &on_a, &first_on_b, &second_on_b).expect(
        rt, "memory",
    );
    let a_is_first = is_live_reply(ran.on_a, 0, FragmentHeld)
        && is_live_reply(ran.first_on_b, 1, Redundant);
    let b_is_first = is_live_reply(ran.on_a, 1, Redundant)
        && is_live_reply(ran.first_on_b, 0, FragmentHeld);
    assert!(rt; a_is_first || b_is_first);
    assert!(rt; is_live_reply(ran.second_on_b, 2, Queued(NAV)));
    assert!(rt; ran.settled.a.calls(LINK_17) == 1 && ran.settled.b.calls(LINK_17) == 2);
}

/// The same of a task with both passes, in the order of its calls; and the message is whole though the events of its
/// first fragment were taken out.
fn check_keeping(rt: &(impl Abort + Wait), alloc: Global) {
    let Example {
        config,
        on_a,
        first_on_b,
        second_on_b,
    } = given(rt, alloc);
    let ran = keeping::run(rt, alloc, &config, &on_a, &first_on_b, &second_on_b).expect(
        rt, "memory",
    );
    assert!(rt; is_reply(ran.on_a, 0, FragmentHeld));
    assert!(rt; is_reply(ran.first_on_b, 1, Redundant));
    assert!(rt; is_reply(ran.second_on_b, 2, Queued(NAV)));
    for link in &ran.settled.links {
        assert!(rt; link.taken() == 2 && link.history().len() == 1);
        let messages = link.deliveries(alloc, NAV).expect(rt, "memory");
        assert!(rt; messages.len() == 1);
        for message in &messages {
            assert!(rt; message.time == 10_500 && message.octets.as_slice() == MESSAGE.as_slice());
        }
    }
}

// rule: DELIV-14
#[test]
fn two_threads_bring_the_message_once(rt: HostRuntime) {
    check_threads(&rt, rt.alloc());
}

// rule: DELIV-14
#[test]
fn a_message_is_whole_after_an_epoch(rt: HostRuntime) {
    check_keeping(&rt, rt.alloc());
}
