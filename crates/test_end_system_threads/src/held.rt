//! While one link is held, frames of the other network come to all other links, or are filtered.
ghost use Rattle.std.specs.Prelude.{◌≡◌};
ghost use Rattle.end_system.specs.System.{IsPassOf};

use crate::gate::{Flags, HoldingGate, MOST_TURNS};
use end_system::{EndSystem, Gate, NetPass, Opened, Reply};
use es_base::Verdict::Sampled;
use es_base::{Config, LinkNo, PortNo};
use std::alloc::Global;
use std::process::Abort;
use std::sync::Wait;
use std::sync::atomic::Ordering;
use std::thread::{Threads, join};
use test_inputs::{SECOND_LINK, smallest};
use test_inputs_end_system::{
    BUILT_IN, Running, config_of, filtered_frames, sampling_links, smallest_for,
};

/// A frame, and the reply that is wanted.
pub(crate) type Row = (Vec<u8>, Reply);

/// The system receives a frame at 1000 microseconds, with this reply.
pub(crate) fn check_reply<R: Abort + Wait, G: Gate>(
    rt: &R,
    alloc: Global,
    system: &EndSystem<G>,
    pass: &mut NetPass,
    row: &Row,
)
    requires { IsPassOf system.now pass.old }
    ensures { IsPassOf system.now pass.new }
{
    let (frame, wanted) = row;
    let reply = system.receive(rt, alloc, pass, 1000, frame);
    let reply = reply.expect(rt, "memory");
    assert!(rt; reply == *wanted, "{reply:?}");
}

/// The system receives these frames once the other thread holds its link, and then lets it go.
fn check_beside<R: Abort + Wait, G: Gate>(
    rt: &R,
    alloc: Global,
    system: &EndSystem<G>,
    mut pass: NetPass,
    rows: &[Row],
    flags: &Flags,
)
    requires { IsPassOf system.now pass }
{
    flags.wait_for(&flags.is_held, MOST_TURNS);
    for row in rows {
        check_reply(rt, alloc, system, &mut pass, row);
    }
    flags.is_done.store(true, Ordering::SeqCst);
}

/// A frame of the link with this number, whose first message it brings.
pub(crate) fn first_row(rt: &impl Abort, alloc: Global, vl: u16) -> Row {
    let frame = smallest_for(alloc, vl, 0).expect(rt, "octets");
    let reply = Reply::Link {
        vl: LinkNo(vl),
        place: 0,
        verdict: Sampled(PortNo(0), 1),
    };
    (frame, reply)
}

/// Network A's frame is held at its link; meanwhile all of these frames come on B, each with its reply.
fn check_held<R: Abort + Threads + Wait + Sync>(
    rt: &R,
    alloc: Global,
    config: &Config,
    held: u16,
    rows: &[Row],
) {
    let flags = Flags::new();
    let gate = HoldingGate {
        vl: LinkNo(held),
        most_turns: MOST_TURNS,
        flags: &flags,
    };
    let running = Running::open(alloc, config, gate).expect(rt, "memory");
    let first = first_row(rt, alloc, held);
    check_threads(rt, alloc, running, &first, rows, &flags);
    assert!(rt; !flags.is_late.load(Ordering::SeqCst), "{held}");
}

/// One thread receives the frame that is held, and another these frames.
fn check_threads<R: Abort + Threads + Wait + Sync>(
    rt: &R,
    alloc: Global,
    running: Running<HoldingGate<'_>>,
    first: &Row,
    rows: &[Row],
    flags: &Flags,
) {
    let Opened {
        system,
        mut a,
        b,
        ends: _,
    } = running.apart();
    let shared = &system;
    join(
        rt,
        move ||
            requires { IsPassOf shared.now a }
        { check_reply(rt, alloc, shared, &mut a, first) },
        move ||
            requires { IsPassOf shared.now b }
        { check_beside(rt, alloc, shared, b, rows, flags) },
    );
}

fn check_second_link<R: Abort + Threads + Wait + Sync>(rt: &R, alloc: Global) {
    let config = config_of(alloc, &[BUILT_IN, SECOND_LINK]).expect(rt, "a configuration");
    let row = first_row(rt, alloc, 18);
    check_held(rt, alloc, &config, 17, &[row]);
}

// rule: CONC-3, CONC-8
#[test]
fn a_frame_of_one_link_is_received_while_another_link_is_held(rt: HostRuntime) {
    check_second_link(&rt, rt.alloc());
}

/// Numbers that differ by 1, 2, 16 and 256 from the first.
const NUMBERS: [u16; 5] = [17, 18, 19, 33, 273];

/// While this link is held, the others receive a frame each.
fn check_others<R: Abort + Threads + Wait + Sync>(
    rt: &R,
    alloc: Global,
    config: &Config,
    held: u16,
) {
    let mut rows = Vec::new(alloc);
    for vl in NUMBERS {
        if vl != held {
            let row = first_row(rt, alloc, vl);
            rows.push(row).expect(rt, "memory");
        }
    }
    check_held(rt, alloc, config, held, &rows);
}

fn check_each<R: Abort + Threads + Wait + Sync>(rt: &R, alloc: Global) {
    let config = sampling_links(alloc, &NUMBERS).expect(rt, "a configuration");
    for held in NUMBERS {
        check_others(rt, alloc, &config, held);
    }
}

// rule: CONC-1, CONC-3
#[test]
fn each_link_has_a_lock_of_its_own(rt: HostRuntime) {
    check_each(&rt, rt.alloc());
}

/// While this link is held, a frame is filtered for each cause. Link 19 isn't configured.
fn check_filtered<R: Abort + Threads + Wait + Sync>(rt: &R, alloc: Global, held: u16) {
    let config = config_of(alloc, &[BUILT_IN, SECOND_LINK]).expect(rt, "a configuration");
    let mut rows = Vec::new(alloc);
    for (cause, frame) in filtered_frames(alloc, 19).expect(rt, "octets") {
        rows.push((frame, Reply::Filtered(cause)))
            .expect(rt, "memory");
    }
    check_held(rt, alloc, &config, held, &rows);
}

// rule: COUNT-2, CONC-5
#[test]
fn a_filtered_frame_waits_for_no_link(rt: HostRuntime) {
    check_filtered(&rt, rt.alloc(), 17);
    check_filtered(&rt, rt.alloc(), 18);
}

/// The second frame of link 17.
fn second_row(rt: &impl Abort, alloc: Global) -> Row {
    let frame = smallest(alloc, 1).expect(rt, "octets");
    let reply = Reply::Link {
        vl: LinkNo(17),
        place: 1,
        verdict: Sampled(PortNo(0), 2),
    };
    (frame, reply)
}

/// While network A's frame is held, a frame of the same link on B waits: it is the second, and the gate holds the
/// first for as many turns as it may.
fn check_same_link<R: Abort + Threads + Wait + Sync>(rt: &R, alloc: Global) {
    let flags = Flags::new();
    let gate = HoldingGate {
        vl: LinkNo(17),
        most_turns: 100_000,
        flags: &flags,
    };
    let config = config_of(alloc, &[BUILT_IN]).expect(rt, "a configuration");
    let running = Running::open(alloc, &config, gate).expect(rt, "memory");
    let first = first_row(rt, alloc, 17);
    let second = second_row(rt, alloc);
    check_threads(rt, alloc, running, &first, &[second], &flags);
    assert!(rt; flags.is_late.load(Ordering::SeqCst));
}

// rule: CONC-1, CONC-8
#[test]
fn a_link_that_is_held_takes_no_other_frame(rt: HostRuntime) {
    check_same_link(&rt, rt.alloc());
}
