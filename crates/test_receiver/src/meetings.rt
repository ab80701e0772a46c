//! Ends of ports meet their outlets.
ghost use Rattle.receiver.specs.Taking.{AreEndsOf};

use crate::opened::{config, octets_of};
use crate::ports::take;
use receiver::Net::A;
use receiver::{Freshness, Opened, PortOutlet, ReaderCount, Reading, Receiver};
use std::alloc::Global;
use std::process::Abort;
use test_inputs::rows::{FOR_NAV, FrameRow, NAV_UDP, POS};
use test_inputs::{IP, PAYLOAD, UDP};

/// The octets of a datagram for `pos`, or for `nav`, with this sequence number.
fn datagram(rt: &impl Abort, alloc: Global, is_sample: bool, number: u8) -> Vec<u8> {
    let udp = if is_sample { UDP } else { NAV_UDP };
    let row: FrameRow<'static> = (A, 1000, number, IP, udp, PAYLOAD, FOR_NAV);
    octets_of(rt, alloc, &[row]).pop().expect(rt, "octets")
}

fn opened(rt: &impl Abort, alloc: Global) -> Opened<PortOutlet>
    ensures { AreEndsOf result.receiver result.ends.items }
{
    let config = config(rt, alloc);
    Receiver::<PortOutlet>::open(alloc, &config, ReaderCount::most()).expect(rt, "memory")
}

/// A sample comes, a reader meets its port, and then reads it.
fn meet_reader(rt: &impl Abort, alloc: Global) {
    let octets = datagram(rt, alloc, true, 1);
    let mut opened = opened(rt, alloc);
    let (place, port) = opened.place_of("pos").expect(rt, "a port");
    assert!(rt; port == POS);
    let mut reader = opened.take_reader("pos").expect(rt, "a reader");
    let _reply = opened.receiver.receive(A, 1000, octets.as_slice());
    opened.receiver.meet_reader(place, port, &mut reader);
    let wanted = Reading::Message {
        number: 1,
        time: 1000,
        len: 17,
        validity: Freshness::Fresh,
    };
    assert!(rt; reader.read(1000, &mut [0; 17]) == wanted);
}

// rule: PORT-18, EMB-11
#[test]
fn a_reader_that_met_its_port_reads_what_came(rt: HostRuntime) {
    meet_reader(&rt, rt.alloc());
}

/// A message comes, the taker meets its queue, and takes it. The next one comes to the same queue.
fn meet_taker(rt: &impl Abort, alloc: Global) {
    let first = datagram(rt, alloc, false, 1);
    let second = datagram(rt, alloc, false, 2);
    let mut opened = opened(rt, alloc);
    let (place, port) = opened.place_of("nav").expect(rt, "a port");
    let mut taker = opened.take_taker("nav").expect(rt, "a taker");
    let _reply = opened.receiver.receive(A, 1000, first.as_slice());
    opened.receiver.meet_taker(place, port, &mut taker);
    take(rt, &mut taker, 1000);
    let _reply = opened.receiver.receive(A, 2000, second.as_slice());
    take(rt, &mut taker, 2000);
}

// rule: PORT-18, EMB-11
#[test]
fn a_taker_that_met_its_queue_takes_what_came(rt: HostRuntime) {
    meet_taker(&rt, rt.alloc());
}
