//! What outlets of plain memory keep.
use crate::opened::{check_frames, config};
use crate::ports::OCTETS;
use es_base::Net::A;
use es_base::PortNo;
use es_base::Verdict::{Overflow, Queued, Sampled};
use kept_messages::{KeptOutlet, first_at, newest_at, queued_at};
use receiver::{LinkWithPorts, Opened, ReaderCount, Receiver};
use std::alloc::Global;
use std::process::Abort;
use test_inputs::rows::{FrameRow, NAV, NAV_UDP, POS};
use test_inputs::{IP, PAYLOAD, UDP};

/// Three messages for `pos`, and six for `nav`, whose queue holds four.
fn rows() -> [FrameRow<'static>; 9] {
    [
        (A, 1000, 1, IP, NAV_UDP, PAYLOAD, Queued(NAV)),
        (A, 2000, 2, IP, UDP, PAYLOAD, Sampled(POS, 1)),
        (A, 3000, 3, IP, NAV_UDP, PAYLOAD, Queued(NAV)),
        (A, 4000, 4, IP, NAV_UDP, PAYLOAD, Queued(NAV)),
        (A, 5000, 5, IP, NAV_UDP, PAYLOAD, Queued(NAV)),
        (A, 6000, 6, IP, NAV_UDP, PAYLOAD, Overflow(NAV)),
        (A, 7000, 7, IP, UDP, PAYLOAD, Sampled(POS, 2)),
        (A, 8000, 8, IP, UDP, PAYLOAD, Sampled(POS, 3)),
        (A, 9000, 9, IP, NAV_UDP, PAYLOAD, Overflow(NAV)),
    ]
}

/// The message at this place of the queue of `nav` came at this time.
fn check_queued(rt: &impl Abort, link: &LinkWithPorts<KeptOutlet>, place: usize, time: u64) {
    let message = queued_at(link, NAV, place).expect(rt, "a message");
    assert!(rt; message.time == time && message.octets == OCTETS.as_slice());
}

fn check_link(rt: &impl Abort, link: &LinkWithPorts<KeptOutlet>) {
    let newest = newest_at(link, POS).expect(rt, "a sample");
    assert!(rt; newest.number == 3 && newest.time == 8000);
    assert!(rt; newest.octets == OCTETS.as_slice());
    check_queued(rt, link, 0, 1000);
    check_queued(rt, link, 1, 3000);
    check_queued(rt, link, 2, 4000);
    check_queued(rt, link, 3, 5000);
    assert!(rt; queued_at(link, NAV, 4).is_none());
    assert!(rt; first_at(link, NAV).expect(rt, "a queue").len() == 4);
}

/// Ports that the link doesn't have, or of the other kind.
fn check_others(rt: &impl Abort, link: &LinkWithPorts<KeptOutlet>) {
    let none = PortNo(2);
    assert!(rt; newest_at(link, NAV).is_none() && newest_at(link, none).is_none());
    assert!(rt; queued_at(link, POS, 0).is_none() && queued_at(link, none, 0).is_none());
    assert!(rt; first_at(link, POS).is_none() && first_at(link, none).is_none());
}

fn check_kept(rt: &impl Abort, alloc: Global) {
    let config = config(rt, alloc);
    let readers = ReaderCount::most();
    let Opened { mut receiver, ends } = Receiver::<KeptOutlet>::open(
        alloc, &config, readers,
    ).expect(rt, "memory");
    assert!(rt; ends.len() == 2);
    assert!(rt; newest_at(receiver.link(0).expect(rt, "a link"), POS).is_none());
    check_frames(rt, alloc, &mut receiver, &rows());
    check_link(rt, receiver.link(0).expect(rt, "a link"));
    check_others(rt, receiver.link(0).expect(rt, "a link"));
    assert!(rt; newest_at(receiver.link(1).expect(rt, "a link"), POS).is_none());
    assert!(rt; receiver.link(2).is_none());
}

// rule: PORT-4, EMB-4, OUT-8, REP-5, REP-7
#[test]
fn plain_memory_keeps_the_newest_sample_and_the_first_messages(rt: HostRuntime) {
    check_kept(&rt, rt.alloc());
}
