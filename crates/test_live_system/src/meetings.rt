//! Ends of ports are had by name, and meet their ports.
ghost use Rattle.std.specs.Prelude.{◌≡◌, ℕ};
ghost use Rattle.es_base.specs.Port.{Port};
ghost use Rattle.live_system.specs.System.{AreOfNewLinks, IsPassOf};

use crate::running::{built_in, octets_of};
use es_base::Net::A;
use live_system::{LiveSystem, Opened, ReaderCount};
use receiver::{Freshness, Reading, Taken};
use std::alloc::Global;
use std::process::Abort;
use std::sync::Wait;
use test_inputs::rows::{FOR_NAV, FrameRow, NAV_UDP, POS};
use test_inputs::{IP, PAYLOAD, UDP};

/// The octets of a datagram for `pos`, or for `nav`.
fn datagram(rt: &impl Abort, alloc: Global, is_sample: bool) -> Vec<u8> {
    let udp = if is_sample { UDP } else { NAV_UDP };
    let row: FrameRow<'static> = (A, 1000, 1, IP, udp, PAYLOAD, FOR_NAV);
    octets_of(rt, alloc, row)
}

fn opened(rt: &impl Abort, alloc: Global) -> Opened
    ensures own { IsPassOf result.system result.a }
    ensures links { (readers : Port → ℕ) × AreOfNewLinks readers result.system.config result.a result.b result.ends.items }
{
    let config = built_in(rt, alloc);
    LiveSystem::open(alloc, &config, ReaderCount::most()).expect(rt, "memory")
}

/// A sample comes, a reader meets its port, and then reads it.
fn meet_reader(rt: &(impl Abort + Wait), alloc: Global) {
    let octets = datagram(rt, alloc, true);
    let mut opened = opened(rt, alloc);
    let (place, port) = opened.place_of("pos").expect(rt, "a port");
    assert!(rt; port == POS);
    let reader = opened.take_reader("pos").expect(rt, "a reader");
    let Opened { system, mut a, .. } = opened;
    let _reply = system.receive(rt, &mut a, 1000, octets.as_slice());
    let mut reader = system.meet_reader(rt, &mut a, place, port, reader);
    let wanted = Reading::Message {
        number: 1,
        time: 1000,
        len: 17,
        validity: Freshness::Fresh,
    };
    assert!(rt; reader.read(1000, &mut [0; 17]) == wanted);
}

// rule: PORT-18
#[test]
fn a_reader_that_met_its_port_reads_what_came(rt: HostRuntime) {
    meet_reader(&rt, rt.alloc());
}

/// A message comes, the taker meets its queue, and takes it.
fn meet_taker(rt: &(impl Abort + Wait), alloc: Global) {
    let octets = datagram(rt, alloc, false);
    let mut out = [0; 8192];
    let mut opened = opened(rt, alloc);
    let (place, port) = opened.place_of("nav").expect(rt, "a port");
    let taker = opened.take_taker("nav").expect(rt, "a taker");
    let Opened { system, mut a, .. } = opened;
    let _reply = system.receive(rt, &mut a, 1000, octets.as_slice());
    let mut taker = system.meet_taker(rt, &mut a, place, port, taker);
    assert!(rt; taker.max() <= out.len());
    let wanted = Taken {
        time: 1000,
        len: 17,
        lost: 0,
    };
    assert!(rt; taker.take(&mut out) == Some(wanted));
}

// rule: PORT-18
#[test]
fn a_taker_that_met_its_queue_takes_what_came(rt: HostRuntime) {
    meet_taker(&rt, rt.alloc());
}

/// Eight readers of `pos`, and one taker of `nav`; no end of another kind, or of a name that no port has.
fn check_names(rt: &impl Abort, alloc: Global) {
    let mut opened = opened(rt, alloc);
    for _ in 0..8 {
        assert!(rt; opened.take_reader("pos").is_some());
    }
    assert!(rt; opened.take_reader("pos").is_none() && opened.take_reader("nav").is_none());
    assert!(rt; opened.take_taker("nav").is_some() && opened.take_taker("nav").is_none());
    assert!(rt; opened.take_taker("pos").is_none() && opened.place_of("alt").is_none());
}

// rule: EMB-29
#[test]
fn ends_are_had_by_name_and_no_oftener_than_there_are(rt: HostRuntime) {
    check_names(&rt, rt.alloc());
}
