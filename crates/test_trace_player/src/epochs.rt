//! The epochs of a link, written out as traces and played as one.
use crate::configurations::Document::BuiltIn;
use crate::configurations::config_of;
use crate::played::{NAV, SMALLEST, Step, texts_of};
use crate::queues::fragments;
use es_base::Net;
use es_base::Net::{A, B};
use frame_reader::read_frame;
use link_receiver::{Epoch, Event, LinkState};
use output_lines::add_event;
use std::alloc::Global;
use std::process::Abort;
use std::sync::Wait;
use test_inputs::frame_of;
use trace_player::{Device, play};
use vl_config::Config;

/// Frames of link 17 with rising times: a copy, a datagram in fragments, lost frames on each network, and one
/// message more than the queue of `nav` holds.
fn steps() -> [Step; 10] {
    let [first, last] = fragments();
    [
        (A, 100, SMALLEST, 0),
        (B, 200, SMALLEST, 0),
        first,
        last,
        (A, 3000, NAV, 3),
        (B, 3100, NAV, 3),
        (B, 3200, NAV, 4),
        (A, 3300, NAV, 9),
        (A, 3400, NAV, 10),
        (A, 3500, NAV, 11),
    ]
}

/// Lines of the output that they give.
const LINES: &str = "100 A vl 17 0 sampled pos 1\n\
    200 B vl 17 1 redundant\n\
    1000 A vl 17 2 fragment-held\n\
    1100 A vl 17 3 queued nav\n\
    3000 A vl 17 4 queued nav\n\
    3100 B vl 17 5 out-of-sequence\n\
    3200 B vl 17 6 queued nav\n\
    3300 A vl 17 7 out-of-sequence\n\
    3400 A vl 17 8 queued nav\n\
    3500 A vl 17 9 overflow nav\n";

/// The link takes a frame.
fn take(rt: &(impl Abort + Wait), alloc: Global, state: &mut LinkState, step: Step) {
    let (net, time, frame, sequence_number) = step;
    let octets = frame_of(alloc, &texts_of(frame), sequence_number).expect(rt, "a frame");
    let frame = read_frame([3, 0, 0, 0], &octets).expect(rt, "a frame");
    if frame.vl == state.settings().vl() {
        state
            .take(rt, alloc, net, time, &frame)
            .expect(rt, "memory");
    }
}

/// The epochs of link 17, one after every third of these frames, and one more at the end.
fn epochs(rt: &(impl Abort + Wait), alloc: Global, config: &Config) -> Vec<Epoch> {
    let settings = config.links().first().expect(rt, "a link");
    let (mut state, _) = LinkState::new(alloc, settings).expect(rt, "memory");
    let mut epochs = Vec::new(alloc);
    for step in steps() {
        take(rt, alloc, &mut state, step);
        if state.history().len() == 3 {
            let epoch = state.take_epoch(alloc).expect(rt, "memory");
            epochs.push(epoch).expect(rt, "memory");
        }
    }
    let last = state.take_epoch(alloc).expect(rt, "memory");
    epochs.push(last).expect(rt, "memory");
    epochs
}

/// Adds the lines of an epoch's events on one network.
fn add_events(rt: &impl Abort, alloc: Global, trace: &mut String, net: Net, epoch: &Epoch) {
    let events = epoch.events();
    for place in 0..events.len() {
        let event = events.get(place).expect(rt, "an event");
        if event.net == net {
            let digits = hex::encode(alloc, event.frame.as_slice()).expect(rt, "memory");
            writeln!(trace, "{} {digits}", event.time).expect(rt, "memory");
        }
    }
}

/// The trace of all epochs' events on one network.
fn trace_of(rt: &impl Abort, alloc: Global, net: Net, epochs: &[Epoch]) -> String {
    let mut trace = String::new(alloc);
    for epoch in epochs {
        add_events(rt, alloc, &mut trace, net, epoch);
    }
    trace
}

/// The lines of the epochs' events, each at its place from the first epoch on.
fn lines_of(rt: &impl Abort, alloc: Global, config: &Config, epochs: &[Epoch]) -> Vec<u8> {
    let link = config.links().first().expect(rt, "a link");
    let mut lines = Vec::new(alloc);
    for epoch in epochs {
        let events = epoch.events();
        for place in 0..events.len() {
            let Event {
                net,
                time,
                verdict,
                ..
            } = events.get(place).expect(rt, "an event");
            let number = epoch.first().wrapping_add(place as u64);
            let (vl, ports) = (link.vl(), link.ports());
            add_event(&mut lines, ports, *time, *net, vl, number, *verdict).expect(rt, "memory");
        }
    }
    lines
}

fn check_epochs(rt: &(impl Abort + Wait), alloc: Global) {
    let config = config_of(rt, alloc, BuiltIn);
    let epochs = epochs(rt, alloc, &config);
    assert_eq!(rt; epochs.len(), 4);
    let a = trace_of(rt, alloc, A, &epochs);
    let b = trace_of(rt, alloc, B, &epochs);
    let lines = lines_of(rt, alloc, &config, &epochs);
    assert!(rt; lines.as_slice() == LINES.as_bytes());
    let mut a = Device::new(a.as_bytes());
    let mut b = Device::new(b.as_bytes());
    let mut out = Device::new(Vec::new(alloc));
    play(alloc, &config, &mut a, &mut b, &mut out, None).expect(rt, "an output");
    assert!(rt; out.inner.starts_with(LINES.as_bytes()));
}

// rule: HIST-3, HIST-4
#[test]
fn the_epochs_of_a_link_played_as_one_trace_come_to_the_same(rt: HostRuntime) {
    check_epochs(&rt, rt.alloc());
}
