//! Whole outputs, with their reports. The values are worked out by hand from the formats.
use crate::configurations::Document;
use crate::configurations::Document::{BuiltIn, Depth};
use crate::played::{EMPTY_NAV, NAV, SMALLEST, Step, Wanted, add_line, check_played, trace_of};
use crate::queues::{fragments, last_fragment_first};
use es_base::Net::A;
use std::alloc::Global;
use std::process::Abort;
use test_inputs::outputs::{FRESH, NO_FRAMES, STALE};
use test_inputs::{ETHERNET, IP, PAYLOAD, sequence_number_at};

/// The player writes this whole output for these frames of A and this trace of B.
fn check_frames(
    rt: &impl Abort,
    alloc: Global,
    document: Document,
    (steps, b): (&[Step], &str),
    at: Option<u64>,
    output: &str,
) {
    let a = trace_of(rt, alloc, A, steps);
    check_played(
        rt,
        alloc,
        document,
        (a.as_str(), b),
        at,
        Wanted::Whole(output),
    );
}

/// One smallest frame at 1000 microseconds.
const ONE: [Step; 1] = [(A, 1000, SMALLEST, 0)];

/// The refresh period is 20,000 microseconds.
// rule: REP-1, REP-5
#[test]
fn the_age_of_a_message_is_that_at_the_time_of_the_report(rt: HostRuntime) {
    let alloc = rt.alloc();
    check_frames(&rt, alloc, BuiltIn, (&ONE, ""), None, FRESH);
    check_frames(&rt, alloc, BuiltIn, (&ONE, ""), Some(0), FRESH);
    check_frames(&rt, alloc, BuiltIn, (&ONE, ""), Some(21_000), FRESH);
    check_frames(&rt, alloc, BuiltIn, (&ONE, ""), Some(21_001), STALE);
}

/// The greatest time of both traces is that of a filtered frame of B.
const LATE: &str = "1000 A vl 17 0 sampled pos 1\n\
    21001 B filtered too-short\n\
    port pos sampling 1 1000 17 stale 0102030405060708090a0b0c0d0e0f1011\n\
    port nav queuing 0\n\
    count 17 A 0 0 0 0 0 0 0 0 0 1 0 0 0\n\
    count 17 B 0 0 0 0 0 0 0 0 0 0 0 0 0\n\
    filtered A 0 0 0 0 0\n\
    filtered B 1 0 0 0 0\n";

// rule: REP-1
#[test]
fn the_report_is_at_the_greatest_time_of_both_traces(rt: HostRuntime) {
    let traces = (ONE.as_slice(), "21001 00");
    check_frames(&rt, rt.alloc(), BuiltIn, traces, None, LATE);
}

// rule: REP-1, REP-2, REP-3
#[test]
fn two_empty_traces_have_a_report(rt: HostRuntime) {
    let alloc = rt.alloc();
    check_frames(&rt, alloc, BuiltIn, (&[], "# nothing\n"), None, NO_FRAMES);
    check_frames(&rt, alloc, BuiltIn, (&[], ""), Some(5), NO_FRAMES);
}

/// A message that is joined of two fragments, in whichever order they come.
const JOINED: &str = "1000 A vl 17 0 fragment-held\n\
    1100 A vl 17 1 queued nav\n\
    port pos sampling empty\n\
    port nav queuing 1\n\
    message nav 1100 24 a0a1a2a3a4a5a6a7b0b1b2b3b4b5b6b7b8b9babbbcbdbebf\n\
    count 17 A 0 0 0 0 1 0 0 0 0 0 1 0 0\n\
    count 17 B 0 0 0 0 0 0 0 0 0 0 0 0 0\n\
    filtered A 0 0 0 0 0\n\
    filtered B 0 0 0 0 0\n";

// rule: OUT-7, REP-2, REP-7
#[test]
fn a_joined_message_is_in_the_report(rt: HostRuntime) {
    let frames = fragments();
    check_frames(&rt, rt.alloc(), BuiltIn, (&frames, ""), None, JOINED);
    let frames = last_fragment_first();
    check_frames(&rt, rt.alloc(), BuiltIn, (&frames, ""), None, JOINED);
}

fn queued() -> [Step; 3] {
    [(A, 10, EMPTY_NAV, 1), (A, 20, NAV, 2), (A, 30, NAV, 3)]
}

/// A queue of depth 2: two messages, the first of them empty, and a third that is lost.
const QUEUED: &str = "10 A vl 17 0 queued nav\n\
    20 A vl 17 1 queued nav\n\
    30 A vl 17 2 overflow nav\n\
    port pos sampling empty\n\
    port nav queuing 2\n\
    message nav 10 0\n\
    message nav 20 17 0102030405060708090a0b0c0d0e0f1011\n\
    count 17 A 0 0 0 0 0 0 0 0 0 0 2 1 0\n\
    count 17 B 0 0 0 0 0 0 0 0 0 0 0 0 0\n\
    filtered A 0 0 0 0 0\n\
    filtered B 0 0 0 0 0\n";

// rule: OUT-7, REP-2, REP-6, REP-7
#[test]
fn queued_messages_are_in_the_report_in_their_order(rt: HostRuntime) {
    let frames = queued();
    check_frames(&rt, rt.alloc(), Depth(2), (&frames, ""), None, QUEUED);
}

fn queued_at_depth_1() -> [Step; 2] {
    [(A, 1000, NAV, 1), (A, 1100, NAV, 2)]
}

/// A queue of depth 1: its first message stays in it, and the second is lost.
const QUEUED_AT_DEPTH_1: &str = "1000 A vl 17 0 queued nav\n\
    1100 A vl 17 1 overflow nav\n\
    port pos sampling empty\n\
    port nav queuing 1\n\
    message nav 1000 17 0102030405060708090a0b0c0d0e0f1011\n\
    count 17 A 0 0 0 0 0 0 0 0 0 0 1 1 0\n\
    count 17 B 0 0 0 0 0 0 0 0 0 0 0 0 0\n\
    filtered A 0 0 0 0 0\n\
    filtered B 0 0 0 0 0\n";

// rule: OUT-8, REP-7
#[test]
fn a_queue_of_depth_1_keeps_its_first_message(rt: HostRuntime) {
    let frames = queued_at_depth_1();
    let traces = (frames.as_slice(), "");
    check_frames(&rt, rt.alloc(), Depth(1), traces, None, QUEUED_AT_DEPTH_1);
}

/// The trace of 64 frames for `nav`, one a microsecond.
fn frames_of_a_full_queue(rt: &impl Abort, alloc: Global) -> String {
    let mut trace = String::new(alloc);
    for place in 0..64_u32 {
        let (time, number) = (u64::from(place), sequence_number_at(place));
        let texts = [ETHERNET, IP, "1389138a00190000", PAYLOAD];
        add_line(rt, alloc, &mut trace, time, &texts, number);
    }
    trace
}

/// The lines of these frames.
fn add_queued(rt: &impl Abort, output: &mut String) {
    for place in 0..64_u8 {
        writeln!(output, "{place} A vl 17 {place} queued nav").expect(rt, "memory");
    }
}

/// The lines of their messages.
fn add_messages(rt: &impl Abort, output: &mut String) {
    for time in 0..64_u8 {
        writeln!(output, "message nav {time} 17 {PAYLOAD}").expect(rt, "memory");
    }
}

/// The lines of both ports, before those of the messages.
const FULL_PORTS: &str = "port pos sampling empty\nport nav queuing 64\n";

/// The counts after the messages.
const FULL_COUNTS: &str = "count 17 A 0 0 0 0 0 0 0 0 0 0 64 0 0\n\
    count 17 B 0 0 0 0 0 0 0 0 0 0 0 0 0\n\
    filtered A 0 0 0 0 0\n\
    filtered B 0 0 0 0 0\n";

fn check_full_queue(rt: &impl Abort, alloc: Global) {
    let trace = frames_of_a_full_queue(rt, alloc);
    let mut output = String::new(alloc);
    add_queued(rt, &mut output);
    output.push_str(FULL_PORTS).expect(rt, "memory");
    add_messages(rt, &mut output);
    output.push_str(FULL_COUNTS).expect(rt, "memory");
    let wanted = Wanted::Whole(output.as_str());
    check_played(rt, alloc, Depth(64), (trace.as_str(), ""), None, wanted);
}

// rule: REP-6, REP-7
#[test]
fn a_full_queue_of_the_greatest_depth_is_in_the_report(rt: HostRuntime) {
    check_full_queue(&rt, rt.alloc());
}
