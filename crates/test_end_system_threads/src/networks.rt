//! Both networks give frames of one link, each on a thread of its own.
ghost use Rattle.std.specs.Prelude.{◌≡◌};
ghost use Rattle.es_base.specs.declared.place.Net.TheVariants.{A, B};
ghost use Rattle.end_system.specs.System.{IsPassOf};

use crate::calls::Calls;
use end_system::{EndSystem, Gate, NetPass, NoGate, Opened, PassCounts, Settled};
use es_base::{LinkNo, VERDICT_KINDS};
use link_receiver::LinkState;
use std::alloc::Global;
use std::process::Abort;
use std::sync::Wait;
use std::thread::{Threads, join};
use test_inputs::smallest;
use test_inputs_end_system::{BUILT_IN, Running, config_of};

/// Number of frames that each network gives.
const MANY: u8 = 200;

/// Gives the smallest frames with the sequence numbers from 1 on, one each 10 microseconds.
fn give_many<R: Abort + Wait, G: Gate>(
    rt: &R,
    alloc: Global,
    system: &EndSystem<G>,
    mut pass: NetPass,
) -> (NetPass, Calls)
    requires { IsPassOf system.now pass }
    ensures { IsPassOf system.now result.0 × (result.0.net ≡ pass.net) }
{
    let mut calls = Calls::new(alloc);
    for number in 1..=MANY {
        let frame = smallest(alloc, number).expect(rt, "octets");
        calls.receive(rt, alloc, system, &mut pass, u64::from(number) * 10, frame);
    }
    (pass, calls)
}

/// Both networks give their frames. Returns the system when it has ended, and the calls of both.
fn given<R: Abort + Threads + Wait + Sync>(
    rt: &R,
    alloc: Global,
    running: Running<NoGate>,
) -> (Settled, Calls, Calls) {
    let Opened {
        system,
        a,
        b,
        ends: _,
    } = running.apart();
    let shared = &system;
    let ((a, first), (b, second)) = join(
        rt,
        move ||
            requires { IsPassOf shared.now a × (a.net ≡ A) }
            ensures { IsPassOf shared.entry.now result.0 × (result.0.net ≡ A) }
        { give_many(rt, alloc, shared, a) },
        move ||
            requires { IsPassOf shared.now b × (b.net ≡ B) }
            ensures { IsPassOf shared.entry.now result.0 × (result.0.net ≡ B) }
        { give_many(rt, alloc, shared, b) },
    );
    (system.settle(a, b), first, second)
}

/// Frames of kind 2, that are redundant, and of kind 10, that became samples, are all that the pass counted.
fn check_counts(rt: &impl Abort, counts: &PassCounts) {
    let vl = LinkNo(17);
    let mut others = 0_u64;
    for kind in 1..=VERDICT_KINDS {
        if kind != 2 && kind != 10 {
            others = others.wrapping_add(counts.count(vl, kind));
        }
    }
    let both = counts.count(vl, 2).wrapping_add(counts.count(vl, 10));
    assert!(rt; counts.calls(vl) == u64::from(MANY), "{}", counts.calls(vl));
    assert!(rt; both == u64::from(MANY) && others == 0, "{both} {others}");
}

/// The link counts the same on each network.
fn check_tally(rt: &impl Abort, link: &LinkState, counts: &PassCounts) {
    for kind in 1..=VERDICT_KINDS {
        let counted = counts.count(LinkNo(17), kind);
        assert!(rt; link.tally().count(counts.net(), kind) == counted, "{kind}");
    }
}

/// Each call has the event at its place.
fn check_places(rt: &impl Abort, link: &LinkState, calls: &Calls) {
    assert!(rt; calls.calls.len() == usize::from(MANY));
    for call in &calls.calls {
        assert!(rt; call.vl == LinkNo(17));
        assert!(rt;
            call.given.stands_in(0, link.history()),
            "{}",
            call.given.place
        );
    }
}

fn check_both<R: Abort + Threads + Wait + Sync>(rt: &R, alloc: Global) {
    let config = config_of(alloc, &[BUILT_IN]).expect(rt, "a configuration");
    let running = Running::open(alloc, &config, NoGate).expect(rt, "memory");
    let (settled, first, second) = given(rt, alloc, running);
    check_counts(rt, &settled.a);
    check_counts(rt, &settled.b);
    for link in &settled.links {
        assert!(rt; link.history().len() == 2 * usize::from(MANY));
        check_tally(rt, link, &settled.a);
        check_tally(rt, link, &settled.b);
        check_places(rt, link, &first);
        check_places(rt, link, &second);
    }
}

// rule: CONC-2, CONC-9
#[test]
fn no_call_of_two_threads_is_lost(rt: HostRuntime) {
    check_both(&rt, rt.alloc());
}
