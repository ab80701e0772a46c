//! Whole outputs of two threads. The values are worked out by hand from the formats.
use crate::played::{add_frame, add_line, config_of, output_of_one, threads_output};
use std::alloc::Global;
use std::process::Abort;
use std::sync::Wait;
use std::thread::Threads;
use test_inputs::outputs::{FRESH, NO_FRAMES, STALE};
use test_inputs::rows::NAV_UDP;
use test_inputs::{ETHERNET, IP, PAYLOAD, UDP, frame_of, longest, sequence_number_at};
use vl_config::BUILT_IN;

/// The traces of A and B come to this output, with the built-in configuration.
fn check_output<R: Abort + Threads + Wait + Sync>(
    rt: &R,
    alloc: Global,
    traces: (&str, &str),
    at: Option<u64>,
    wanted: &str,
) {
    let config = config_of(rt, alloc, BUILT_IN);
    let output = threads_output(rt, alloc, &config, traces, at);
    assert!(rt; output.as_slice() == wanted.as_bytes(), "{wanted}");
}

/// The trace of one frame for `pos`, at 1000 microseconds.
fn one_frame(rt: &impl Abort, alloc: Global) -> String {
    let mut trace = String::new(alloc);
    add_frame(rt, alloc, &mut trace, 1000, 17, 0);
    trace
}

fn check_ages<R: Abort + Threads + Wait + Sync>(rt: &R, alloc: Global) {
    let a = one_frame(rt, alloc);
    check_output(rt, alloc, (a.as_str(), ""), None, FRESH);
    check_output(rt, alloc, (a.as_str(), ""), Some(21_000), FRESH);
    check_output(rt, alloc, (a.as_str(), ""), Some(21_001), STALE);
}

// rule: REP-5, REP-11
#[test]
fn the_age_of_a_message_is_that_at_the_time_of_the_report(rt: HostRuntime) {
    check_ages(&rt, rt.alloc());
}

/// The lines of B stand after those of A, whatever their times are, and each network's filtered frames are
/// counted. The last frame of all is the first of B: the message is stale then.
const BOTH: &str = "1000 A vl 17 0 sampled pos 1\n\
    1000 A filtered too-short\n\
    1001 A filtered too-short\n\
    21001 B filtered too-short\n\
    port pos sampling 1 1000 17 stale 0102030405060708090a0b0c0d0e0f1011\n\
    port nav queuing 0\n\
    count 17 A 0 0 0 0 0 0 0 0 0 1 0 0 0\n\
    count 17 B 0 0 0 0 0 0 0 0 0 0 0 0 0\n\
    filtered A 2 0 0 0 0\n\
    filtered B 1 0 0 0 0\n";

fn check_both<R: Abort + Threads + Wait + Sync>(rt: &R, alloc: Global) {
    let mut a = one_frame(rt, alloc);
    a.push_str("1000 00\n1001 00\n").expect(rt, "memory");
    check_output(rt, alloc, (a.as_str(), "21001 00\n"), None, BOTH);
}

// rule: REP-1, REP-10
#[test]
fn the_lines_of_a_come_first_and_the_report_is_at_the_greatest_time(rt: HostRuntime) {
    check_both(&rt, rt.alloc());
}

/// The last frame of all is one of A, and B has none: the message is stale then.
const LAST_OF_A: &str = "1000 A vl 17 0 sampled pos 1\n\
    21001 A filtered too-short\n\
    port pos sampling 1 1000 17 stale 0102030405060708090a0b0c0d0e0f1011\n\
    port nav queuing 0\n\
    count 17 A 0 0 0 0 0 0 0 0 0 1 0 0 0\n\
    count 17 B 0 0 0 0 0 0 0 0 0 0 0 0 0\n\
    filtered A 1 0 0 0 0\n\
    filtered B 0 0 0 0 0\n";

fn check_last_of_a<R: Abort + Threads + Wait + Sync>(rt: &R, alloc: Global) {
    let mut a = one_frame(rt, alloc);
    a.push_str("21001 00\n").expect(rt, "memory");
    check_output(rt, alloc, (a.as_str(), ""), None, LAST_OF_A);
}

// rule: REP-1
#[test]
fn the_report_is_at_the_last_frame_of_a_if_it_is_the_latest(rt: HostRuntime) {
    check_last_of_a(&rt, rt.alloc());
}

// rule: REP-11
#[test]
fn two_empty_traces_have_a_report(rt: HostRuntime) {
    check_output(&rt, rt.alloc(), ("# nothing\n", ""), None, NO_FRAMES);
    check_output(&rt, rt.alloc(), ("", ""), Some(5), NO_FRAMES);
}

/// The most messages that a queue may hold.
const DEEPEST: u32 = 64;

/// A trace of the longest message for `pos`, and of as many for `nav` as the deepest queue holds.
fn full_ports(rt: &impl Abort, alloc: Global) -> String {
    let mut trace = String::new(alloc);
    let frame = longest(alloc, 0).expect(rt, "a frame");
    add_line(rt, alloc, &mut trace, 1000, &frame);
    for place in 1..=DEEPEST {
        let texts = [ETHERNET, IP, NAV_UDP, PAYLOAD];
        let frame = frame_of(alloc, &texts, sequence_number_at(place)).expect(rt, "a frame");
        add_line(rt, alloc, &mut trace, 1000, &frame);
    }
    trace
}

/// Two threads write of full ports what one thread writes.
fn check_full<R: Abort + Threads + Wait + Sync>(rt: &R, alloc: Global) {
    let mut text = String::new(alloc);
    let begin = BUILT_IN.strip_suffix("depth = 4\n").expect(rt, "a depth");
    writeln!(text, "{begin}depth = {DEEPEST}").expect(rt, "memory");
    let config = config_of(rt, alloc, text.as_str());
    let a = full_ports(rt, alloc);
    let wanted = output_of_one(rt, alloc, &config, (a.as_str(), ""));
    let output = threads_output(rt, alloc, &config, (a.as_str(), ""), None);
    assert!(rt; output == wanted);
    let output = String::from_utf8(output).expect(rt, "a text");
    assert!(rt; output.contains("port pos sampling 1 1000 1471 fresh "));
    assert!(rt; output.contains("port nav queuing 64\nmessage nav 1000 17 "));
}

// rule: REP-11
#[test]
fn the_longest_sample_and_a_full_queue_are_reported_whole(rt: HostRuntime) {
    check_full(&rt, rt.alloc());
}

// ---- filtered frames

/// The beginnings of frames that are no IP, that have another constant field, and whose link isn't configured.
const NOT_IP: &str = "0300000000110200000001200806";

const FOREIGN: &str = "0300000100110200000001200800";

const UNKNOWN: &str = "0300000000120200000001200800";

/// Adds so many frames with this beginning, which came at `time` microseconds.
fn add_filtered(
    rt: &impl Abort,
    alloc: Global,
    trace: &mut String,
    (time, ethernet, count): (u64, &str, usize),
) {
    let frame = frame_of(alloc, &[ethernet, IP, UDP, PAYLOAD], 0).expect(rt, "a frame");
    for _ in 0..count {
        add_line(rt, alloc, trace, time, &frame);
    }
}

/// The frames that are filtered, each cause as often as no other on its network. The last frame of all is one of an
/// unknown link, on B: the message is stale then.
const FILTERED: &str = "1000 A vl 17 0 sampled pos 1\n\
    1001 A filtered not-ip\n\
    1002 A filtered foreign-constant\n\
    1002 A filtered foreign-constant\n\
    1003 A filtered unknown-link\n\
    1003 A filtered unknown-link\n\
    1003 A filtered unknown-link\n\
    0 B filtered too-short\n\
    1 B filtered not-ip\n\
    1 B filtered not-ip\n\
    1 B filtered not-ip\n\
    2 B filtered foreign-constant\n\
    2 B filtered foreign-constant\n\
    2 B filtered foreign-constant\n\
    2 B filtered foreign-constant\n\
    21001 B filtered unknown-link\n\
    21001 B filtered unknown-link\n\
    port pos sampling 1 1000 17 stale 0102030405060708090a0b0c0d0e0f1011\n\
    port nav queuing 0\n\
    count 17 A 0 0 0 0 0 0 0 0 0 1 0 0 0\n\
    count 17 B 0 0 0 0 0 0 0 0 0 0 0 0 0\n\
    filtered A 0 0 1 2 3\n\
    filtered B 1 0 3 4 2\n";

fn check_filtered<R: Abort + Threads + Wait + Sync>(rt: &R, alloc: Global) {
    let mut a = one_frame(rt, alloc);
    add_filtered(rt, alloc, &mut a, (1001, NOT_IP, 1));
    add_filtered(rt, alloc, &mut a, (1002, FOREIGN, 2));
    add_filtered(rt, alloc, &mut a, (1003, UNKNOWN, 3));
    let mut b = String::from_str(alloc, "0 00\n").expect(rt, "memory");
    add_filtered(rt, alloc, &mut b, (1, NOT_IP, 3));
    add_filtered(rt, alloc, &mut b, (2, FOREIGN, 4));
    add_filtered(rt, alloc, &mut b, (21_001, UNKNOWN, 2));
    check_output(rt, alloc, (a.as_str(), b.as_str()), None, FILTERED);
}

// rule: REP-1, REP-9, REP-11
#[test]
fn filtered_frames_are_counted_by_cause_and_count_for_the_time_of_the_report(rt: HostRuntime) {
    check_filtered(&rt, rt.alloc());
}

// ---- long outputs

/// Report after the lines of 50,000 frames of each network.
const MANY_REPORT: &str = "port pos sampling empty\n\
    port nav queuing 0\n\
    count 17 A 0 0 0 0 0 0 0 0 0 0 0 0 0\n\
    count 17 B 0 0 0 0 0 0 0 0 0 0 0 0 0\n\
    filtered A 50000 0 0 0 0\n\
    filtered B 50000 0 0 0 0\n";

/// Each network has a million bytes of lines.
fn check_many<R: Abort + Threads + Wait + Sync>(rt: &R, alloc: Global) {
    let trace = "5 00\n".repeat(alloc, 50_000).expect(rt, "memory");
    let a = "5 A filtered too-short\n".repeat(alloc, 50_000);
    let b = "5 B filtered too-short\n".repeat(alloc, 50_000);
    let mut output = a.expect(rt, "memory");
    output
        .push_str(b.expect(rt, "memory").as_str())
        .expect(rt, "memory");
    output.push_str(MANY_REPORT).expect(rt, "memory");
    let traces = (trace.as_str(), trace.as_str());
    let config = config_of(rt, alloc, BUILT_IN);
    let written = threads_output(rt, alloc, &config, traces, None);
    assert!(rt; written.as_slice() == output.as_str().as_bytes());
}

// rule: REP-10
#[test]
fn a_million_bytes_of_lines_of_each_network_are_written(rt: HostRuntime) {
    check_many(&rt, rt.alloc());
}
