//! Many links side by side: each frame comes to its own.
use crate::counts::check_pass;
use crate::histories::check_events;
use crate::rows::receive;
use end_system::{NoGate, Reply};
use es_base::Net::{A, B};
use es_base::Verdict::{Queued, Redundant, Sampled};
use es_base::{LinkNo, PortNo, Verdict};
use link_receiver::{LinkState, PortEnd};
use queuing_port::Taker;
use sampling_port::{MOST_TRIES, Read, Reader};
use slot_core::READERS;
use std::alloc::Global;
use std::process::Abort;
use std::sync::Wait;
use test_inputs::{
    GREATEST_PORTS, greatest_frame, greatest_payload, greatest_samples, greatest_text,
};
use test_inputs_end_system::{Given, Running, config_of, sampling_links, smallest_for};

/// The first port of a link, which samples.
const FIRST: PortNo = PortNo(0);

/// A new system of links with these numbers.
fn opened_links(rt: &impl Abort, alloc: Global, numbers: &[u16]) -> Running<NoGate> {
    let config = sampling_links(alloc, numbers).expect(rt, "a configuration");
    Running::open(alloc, &config, NoGate).expect(rt, "memory")
}

/// A frame on network A becomes the first message of its link, and no frame was given to the link before.
fn check_first(rt: &(impl Abort + Wait), alloc: Global, running: &mut Running<NoGate>, vl: u16) {
    check_pass(rt, running.pass(A), vl, 10, 0);
    let frame = smallest_for(alloc, vl, 7).expect(rt, "octets");
    let reply = receive(rt, alloc, running, A, 1000, &frame);
    check_reply(rt, reply, vl, 0, Sampled(FIRST, 1));
    check_pass(rt, running.pass(A), vl, 10, 1);
}

/// Its copy on network B is redundant.
fn check_copy(rt: &(impl Abort + Wait), alloc: Global, running: &mut Running<NoGate>, vl: u16) {
    check_pass(rt, running.pass(B), vl, 2, 0);
    let frame = smallest_for(alloc, vl, 7).expect(rt, "octets");
    let reply = receive(rt, alloc, running, B, 1100, &frame);
    check_reply(rt, reply, vl, 1, Redundant);
    check_pass(rt, running.pass(B), vl, 2, 1);
}

fn check_reply(rt: &impl Abort, reply: Reply, vl: u16, place: u64, verdict: Verdict) {
    let vl = LinkNo(vl);
    let wanted = Reply::Link { vl, place, verdict };
    assert!(rt; reply == wanted, "{vl}: {reply:?}");
}

/// The link has this number, and the events of its own two frames.
fn check_link(rt: &impl Abort, alloc: Global, link: &LinkState, vl: u16) {
    assert!(rt; link.settings().vl() == LinkNo(vl), "{vl}");
    let first = Given {
        net: A,
        time: 1000,
        frame: smallest_for(alloc, vl, 7).expect(rt, "octets"),
        place: 0,
        verdict: Sampled(FIRST, 1),
    };
    let copy = Given {
        net: B,
        time: 1100,
        frame: smallest_for(alloc, vl, 7).expect(rt, "octets"),
        place: 1,
        verdict: Redundant,
    };
    check_events(rt, 0, link.history(), &[first, copy]);
}

/// Each link receives a frame on network A, in their order, and a copy of it on B, the last link first.
fn check_links(rt: &(impl Abort + Wait), alloc: Global, numbers: &[u16]) {
    let mut running = opened_links(rt, alloc, numbers);
    for vl in numbers {
        check_first(rt, alloc, &mut running, *vl);
    }
    for vl in numbers.iter().rev() {
        check_copy(rt, alloc, &mut running, *vl);
    }
    let settled = running.settle();
    assert!(rt; settled.links.len() == numbers.len());
    for (link, vl) in settled.links.iter().zip(numbers) {
        check_link(rt, alloc, link, *vl);
    }
}

// rule: CONC-5
#[test]
fn links_with_like_numbers_are_told_apart(rt: HostRuntime) {
    check_links(&rt, rt.alloc(), &[17, 18, 19, 33, 273]);
    check_links(&rt, rt.alloc(), &[273, 19, 50_000, 17, 0]);
}

/// The numbers of 64 links, of both octets: 19, 276, 533 and so on.
fn many_numbers(rt: &impl Abort, alloc: Global) -> Vec<u16> {
    let mut numbers = Vec::new(alloc);
    for place in 0..64_u16 {
        numbers.push(place * 257 + 19).expect(rt, "memory");
    }
    numbers
}

// rule: CONC-5, EMB-38
#[test]
fn sixty_four_links_are_told_apart(rt: HostRuntime) {
    let numbers = many_numbers(&rt, rt.alloc());
    check_links(&rt, rt.alloc(), &numbers);
}

/// A new system of the greatest configuration, whose last link, 65535, has 32 ports.
fn opened_greatest(rt: &impl Abort, alloc: Global) -> Running<NoGate> {
    let text = greatest_text(alloc).expect(rt, "memory");
    let config = config_of(alloc, &[text.as_str()]).expect(rt, "a configuration");
    Running::open(alloc, &config, NoGate).expect(rt, "memory")
}

/// A frame comes for this port, after one for each port before it.
fn check_port(rt: &(impl Abort + Wait), alloc: Global, running: &mut Running<NoGate>, port: u16) {
    let frame = greatest_frame(alloc, u16::MAX, port, (port % 256) as u8).expect(rt, "octets");
    let time = u64::from(port) + 100;
    let reply = receive(rt, alloc, running, A, time, &frame);
    let no = PortNo((port % 256) as u8);
    let verdict = if greatest_samples(port) {
        Sampled(no, 1)
    } else {
        Queued(no)
    };
    check_reply(rt, reply, u16::MAX, u64::from(port), verdict);
}

/// The octets of the message for this port.
fn message_of(rt: &impl Abort, alloc: Global, port: u16) -> Vec<u8> {
    let payload = greatest_payload(alloc, port).expect(rt, "memory");
    hex::decode(alloc, payload.as_str()).expect(rt, "octets")
}

/// Each reader reads this message, which is the first of its port.
fn check_readers(rt: &impl Abort, readers: &mut [Reader<READERS>], time: u64, octets: &[u8]) {
    for reader in readers.iter_mut() {
        let mut out = [0; 1471];
        let (number, len) = (1, octets.len());
        let wanted = Read::Message { number, time, len };
        assert!(rt; reader.read(MOST_TRIES, &mut out) == wanted, "{time}");
        assert!(rt; out.starts_with(octets), "{time}");
    }
}

/// The taker takes this message.
fn check_taken(rt: &(impl Abort + Wait), taker: &mut Taker, time: u64, octets: &[u8]) {
    let message = taker.take(rt).expect(rt, "a message");
    assert!(rt;
        message.time == time && message.octets.as_slice() == octets,
        "{time}"
    );
}

/// The end of this port has its own message.
fn check_end(rt: &(impl Abort + Wait), alloc: Global, running: &mut Running<NoGate>, port: u16) {
    let name = format!(in alloc; "p{port}").expect(rt, "memory");
    let octets = message_of(rt, alloc, port);
    let time = u64::from(port) + 100;
    match running.end_of(name.as_str()).expect(rt, "an end") {
        PortEnd::Sampling { readers, .. } => check_readers(rt, readers, time, &octets),
        PortEnd::Queuing { taker, .. } => check_taken(rt, taker, time, &octets),
    }
}

fn check_ports(rt: &(impl Abort + Wait), alloc: Global) {
    let mut running = opened_greatest(rt, alloc);
    for port in 0..GREATEST_PORTS {
        check_port(rt, alloc, &mut running, port);
    }
    for port in 0..GREATEST_PORTS {
        check_end(rt, alloc, &mut running, port);
    }
}

// rule: PORT-7, EMB-34
#[test]
fn thirty_two_ports_of_a_link_are_told_apart(rt: HostRuntime) {
    check_ports(&rt, rt.alloc());
}
