//! What a frame brings can't be read while the frame is in the gate.
ghost use Rattle.std.specs.Prelude.{◌≡◌};
ghost use Rattle.end_system.specs.System.{IsPassOf};

use crate::gate::{Flags, HoldingGate, MOST_TURNS};
use crate::held::{Row, check_reply, first_row};
use end_system::{Gate, Opened};
use es_base::LinkNo;
use link_receiver::PortEnd;
use sampling_port::{MOST_TRIES, Read, Reader};
use slot_core::READERS;
use std::alloc::Global;
use std::process::Abort;
use std::sync::Wait;
use std::sync::atomic::Ordering;
use std::thread::{Threads, join};
use test_inputs_end_system::{BUILT_IN, Running, config_of};

/// One of the readers of the built-in sampling port.
fn reader_of<G: Gate + Drop>(rt: &impl Abort, opened: &mut Opened<G>) -> Reader<READERS>
    ensures { (opened.new.system ≡ opened.old.system) × (opened.new.a ≡ opened.old.a) }
{
    match opened.take_end("pos") {
        Some(PortEnd::Sampling { readers, .. }) => {
            let [first, b, c, d, e, f, g, h] = readers;
            drop((b, c, d, e, f, g, h));
            first
        }
        _ => panic!(rt; "a sampling port"),
    }
}

/// The reader finds nothing once the other thread is in the gate, and lets it go on.
fn check_unread(rt: &impl Abort, reader: &mut Reader<READERS>, flags: &Flags) {
    flags.wait_for(&flags.is_held, MOST_TURNS);
    let mut out = [0; 1471];
    let found = reader.read(MOST_TRIES, &mut out);
    assert_eq!(rt; found, Read::Empty);
    flags.is_done.store(true, Ordering::SeqCst);
}

/// One thread receives the frame that is held, and another reads its port.
fn check_threads<R: Abort + Threads + Wait + Sync>(
    rt: &R,
    alloc: Global,
    running: Running<HoldingGate<'_>>,
    first: &Row,
    flags: &Flags,
) {
    let mut opened = running.apart();
    let mut reader = reader_of(rt, &mut opened);
    let Opened {
        system,
        mut a,
        b: _,
        ends: _,
    } = opened;
    let shared = &system;
    join(
        rt,
        move ||
            requires { IsPassOf shared.now a }
        { check_reply(rt, alloc, shared, &mut a, first) },
        move || { check_unread(rt, &mut reader, flags) },
    );
}

fn check_gate<R: Abort + Threads + Wait + Sync>(rt: &R, alloc: Global) {
    let flags = Flags::new();
    let gate = HoldingGate {
        vl: LinkNo(17),
        most_turns: MOST_TURNS,
        flags: &flags,
    };
    let config = config_of(alloc, &[BUILT_IN]).expect(rt, "a configuration");
    let running = Running::open(alloc, &config, gate).expect(rt, "memory");
    let first = first_row(rt, alloc, 17);
    check_threads(rt, alloc, running, &first, &flags);
    assert!(rt; !flags.is_late.load(Ordering::SeqCst));
}

// rule: CONC-8
#[test]
fn a_message_is_not_read_before_its_frame_has_passed_the_gate(rt: HostRuntime) {
    check_gate(&rt, rt.alloc());
}
