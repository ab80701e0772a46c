//! The receiver for one task.
use crate::frames::{Example, LINK_17, MESSAGE, NAV, given};
use delivery_example::one_task::run;
use es_base::Verdict::{self, FragmentHeld, Queued, Redundant};
use receiver::Reply;
use std::alloc::Global;
use std::process::Abort;

fn is_reply(reply: Reply, wanted_place: u64, wanted: Verdict) -> bool {
    match reply {
        Reply::Filtered(_) => false,
        Reply::Link {
            at,
            vl,
            place,
            verdict,
        } => at == 0 && vl == LINK_17 && place == wanted_place && verdict == wanted,
    }
}

/// The second copy is redundant, and the other network's second fragment completes the message.
fn check_task(rt: &impl Abort, alloc: Global) {
    let Example {
        config,
        on_a,
        first_on_b,
        second_on_b,
    } = given(rt, alloc);
    let ran = run(alloc, &config, &on_a, &first_on_b, &second_on_b).expect(rt, "memory");
    assert!(rt; is_reply(ran.on_a, 0, FragmentHeld));
    assert!(rt; is_reply(ran.first_on_b, 1, Redundant));
    assert!(rt; is_reply(ran.second_on_b, 2, Queued(NAV)));
    let mut opened = ran.opened;
    let mut nav = opened.take_taker("nav").expect(rt, "a taker");
    let mut out = [0u8; 100];
    assert!(rt; nav.max() == 100);
    let taken = nav.take(&mut out).expect(rt, "a message");
    assert!(rt; taken.time == 10_500 && taken.len == 16 && out[..16] == MESSAGE[..]);
    assert!(rt; nav.max() == 100);
    assert!(rt; nav.take(&mut out).is_none());
}

// rule: DELIV-14
#[test]
fn a_partition_takes_the_message_once(rt: HostRuntime) {
    check_task(&rt, rt.alloc());
}
