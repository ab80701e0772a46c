//! Malicious frames, bad lines and devices that fail, through the whole program.
use crate::shelf::{
    ALL, Given, Wanted, check_files, check_given, check_run, empty_shelf, words_in,
};
use std::alloc::Global;
use std::process::Abort;
use std::sync::Wait;
use std::thread::Threads;
use test_inputs::fragments::PacketName::{EmptyFirst, EndAt16, First, NextFrom65528};
use test_inputs::fragments::{PacketName, padding_after};
use test_inputs::outputs::{FRESH, LINE};
use test_inputs::{ETHERNET, ReadCall, ScriptedReader, WriteCall, frame_of, longest};
use vl_config::BUILT_IN;

/// The report's lines on the ports of the built-in configuration, to which nothing was delivered.
const EMPTY_PORTS: &str = "port pos sampling empty\nport nav queuing 0\n";

/// The counts of network A and of network B, where nothing came to the link.
const NO_EVENTS: &str = "count 17 A 0 0 0 0 0 0 0 0 0 0 0 0 0\n\
    count 17 B 0 0 0 0 0 0 0 0 0 0 0 0 0\n";

/// Network A filtered nothing, and neither did B.
const NONE_FILTERED: &str = "filtered A 0 0 0 0 0\nfiltered B 0 0 0 0 0\n";

fn played(output: &str) -> Wanted<'_> {
    Wanted {
        status: 0,
        output,
        errors: "",
        asked: 0,
    }
}

fn refused(status: u8, errors: &str) -> Wanted<'_> {
    Wanted {
        status,
        output: "",
        errors,
        asked: 0,
    }
}

/// A run without words, whose standard input is this trace of network A, ends with these results.
fn check_input(
    rt: &(impl Abort + Threads + Wait + Sync),
    alloc: Global,
    input: &str,
    wanted: Wanted<'_>,
) {
    let words = Ok(words_in(rt, alloc, ""));
    check_run(rt, alloc, words, input, empty_shelf(alloc), wanted);
}

// ---- frames

/// Adds the line of the first octets of a frame.
fn add_beginning(rt: &impl Abort, alloc: Global, trace: &mut String, frame: &[u8], len: usize) {
    let octets = frame.get(..len).expect(rt, "a beginning");
    let digits = hex::encode(alloc, octets).expect(rt, "memory");
    writeln!(trace, "1000 {digits}").expect(rt, "memory");
}

fn packet_frame(rt: &impl Abort, alloc: Global, packet: PacketName, number: u8) -> Vec<u8> {
    let (ip, octets) = packet.texts();
    let texts = [ETHERNET, ip, octets, padding_after(octets)];
    frame_of(alloc, &texts, number).expect(rt, "a frame")
}

fn longest_frame(rt: &impl Abort, alloc: Global) -> Vec<u8> {
    longest(alloc, 0).expect(rt, "a frame")
}

/// The trace of all beginnings of a frame that have less than 60 octets.
fn add_short(rt: &impl Abort, alloc: Global, trace: &mut String, frame: &[u8]) {
    for len in 0..60 {
        add_beginning(rt, alloc, trace, frame, len);
    }
}

fn check_short(rt: &(impl Abort + Threads + Wait + Sync), alloc: Global) {
    let mut trace = String::new(alloc);
    let first = packet_frame(rt, alloc, First, 1);
    add_short(rt, alloc, &mut trace, &first);
    add_short(rt, alloc, &mut trace, &longest_frame(rt, alloc));
    let lines = "1000 A filtered too-short\n"
        .repeat(alloc, 120)
        .expect(rt, "memory");
    let report = "filtered A 120 0 0 0 0\nfiltered B 0 0 0 0 0\n";
    let output = format!(in alloc; "{lines}{EMPTY_PORTS}{NO_EVENTS}{report}");
    let output = output.expect(rt, "memory");
    check_input(rt, alloc, trace.as_str(), played(output.as_str()));
}

// rule: FRAME-2, OUT-4, REP-9
#[test]
fn every_beginning_of_less_than_60_octets_is_filtered(rt: HostRuntime) {
    check_short(&rt, rt.alloc());
}

/// The output for one frame of link 17, or two, with these lines and these counts of network A.
fn output_of(rt: &impl Abort, alloc: Global, lines: &str, counts: &str) -> String {
    let none = "0 0 0 0 0 0 0 0 0 0 0 0 0";
    let output = format!(in alloc;
        "{lines}{EMPTY_PORTS}count 17 A {counts}\ncount 17 B {none}\n{NONE_FILTERED}"
    );
    output.expect(rt, "memory")
}

/// A new receiver finds the header of this beginning to say more octets than came.
fn check_cut(rt: &(impl Abort + Threads + Wait + Sync), alloc: Global, frame: &[u8], len: usize) {
    let mut trace = String::new(alloc);
    add_beginning(rt, alloc, &mut trace, frame, len);
    let line = "1000 A vl 17 0 bad-header total-length\n";
    let output = output_of(rt, alloc, line, "0 0 1 0 0 0 0 0 0 0 0 0 0");
    check_input(rt, alloc, trace.as_str(), played(output.as_str()));
}

// rule: IP-4, OUT-6
#[test]
fn a_frame_that_was_cut_has_a_bad_header(rt: HostRuntime) {
    let frame = longest_frame(&rt, rt.alloc());
    for len in [60, 61, 700, 1512, 1513] {
        check_cut(&rt, rt.alloc(), &frame, len);
    }
}

/// Packets that follow one another by 100 microseconds, the lines for them, and the counts of network A.
type Packets = (&'static [PacketName], &'static str, &'static str);

fn packets() -> [Packets; 3] {
    [
        // It would end past the longest datagram.
        (
            &[NextFrom65528],
            "1000 A vl 17 0 bad-fragment\n",
            "0 0 0 1 0 0 0 0 0 0 0 0 0",
        ),
        // It has no octets, and says that more follow.
        (
            &[EmptyFirst],
            "1000 A vl 17 0 bad-fragment\n",
            "0 0 0 1 0 0 0 0 0 0 0 0 0",
        ),
        // It has no octets, and ends the datagram after 16, where the UDP header says 32.
        (
            &[First, EndAt16],
            "1000 A vl 17 0 fragment-held\n1100 A vl 17 1 bad-udp\n",
            "0 0 0 0 1 1 0 0 0 0 0 0 0",
        ),
    ]
}

fn check_packets(rt: &(impl Abort + Threads + Wait + Sync), alloc: Global, row: Packets) {
    let (packets, lines, counts) = row;
    let mut trace = String::new(alloc);
    for (number, packet) in (1_u8..).zip(packets) {
        let frame = packet_frame(rt, alloc, *packet, number);
        let digits = hex::encode(alloc, &frame).expect(rt, "memory");
        let time = u64::from(number) * 100 + 900;
        writeln!(trace, "{time} {digits}").expect(rt, "memory");
    }
    let output = output_of(rt, alloc, lines, counts);
    check_input(rt, alloc, trace.as_str(), played(output.as_str()));
}

// rule: REAS-3, REAS-12, UDP-4, OUT-6
#[test]
fn malicious_fragments_are_refused(rt: HostRuntime) {
    for row in packets() {
        check_packets(&rt, rt.alloc(), row);
    }
}

// ---- lines

fn bad_lines() -> [(&'static str, &'static str); 5] {
    let time = "afdx_play: trace A line 1: time\n";
    let hex = "afdx_play: trace A line 1: hex\n";
    let space = "afdx_play: trace A line 1: space\n";
    [
        ("18446744073709551616 00", time),
        (" 00", time),
        ("1000  00", hex),
        ("1000 00\r", hex),
        ("00 00", space),
    ]
}

// rule: TRACE-13
#[test]
fn bad_lines_are_refused(rt: HostRuntime) {
    for (line, errors) in bad_lines() {
        check_input(&rt, rt.alloc(), line, refused(1, errors));
    }
}

fn check_comments(rt: &(impl Abort + Threads + Wait + Sync), alloc: Global) {
    let comment = "#".repeat(alloc, 8192).expect(rt, "memory");
    let output = format!(in alloc; "{EMPTY_PORTS}{NO_EVENTS}{NONE_FILTERED}");
    let output = output.expect(rt, "memory");
    check_input(rt, alloc, comment.as_str(), played(output.as_str()));
    let longer = "#".repeat(alloc, 8193).expect(rt, "memory");
    let errors = "afdx_play: trace A line 1: long line\n";
    check_input(rt, alloc, longer.as_str(), refused(1, errors));
}

// rule: TRACE-8
#[test]
fn the_longest_comment_is_skipped_and_a_longer_one_refused(rt: HostRuntime) {
    check_comments(&rt, rt.alloc());
}

// ---- devices

/// A reader of trace B that fails at its first read, after this trace of A.
fn check_second(
    rt: &(impl Abort + Threads + Wait + Sync),
    alloc: Global,
    first: &str,
    status: u8,
    errors: &str,
) {
    let a = ScriptedReader::of(first.as_bytes());
    let b = ScriptedReader::new([ReadCall::Fails, ReadCall::Ends, ReadCall::Ends]);
    let wanted = Wanted {
        asked: ALL,
        ..refused(status, errors)
    };
    check_files(rt, alloc, (Ok(BUILT_IN.as_bytes()), Ok(a), Ok(b)), wanted);
}

// rule: TRACE-14
#[test]
fn a_fault_of_trace_a_comes_before_a_failed_read_of_b(rt: HostRuntime) {
    let alloc = rt.alloc();
    check_second(&rt, alloc, LINE, 3, "afdx_play: trace B not read\n");
    check_second(&rt, alloc, "1000 0", 1, "afdx_play: trace A line 1: hex\n");
}

/// The run of the smallest frame over such streams ends with these results.
fn check_streams(
    rt: &(impl Abort + Threads + Wait + Sync),
    alloc: Global,
    read: ReadCall<'_>,
    calls: &[WriteCall],
    wanted: Wanted<'_>,
) {
    let given = Given {
        shelf: empty_shelf(alloc),
        input: ScriptedReader::new([read, ReadCall::Ends, ReadCall::Ends]),
        output: calls,
        errors: &[],
    };
    let words = Ok(words_in(rt, alloc, ""));
    check_given(rt, alloc, words, given, wanted);
}

/// The writer takes so many bytes, and then does this.
fn check_room(
    rt: &(impl Abort + Threads + Wait + Sync),
    alloc: Global,
    room: usize,
    then: WriteCall,
) {
    let calls = [WriteCall::Takes(room), then];
    let wanted = Wanted {
        status: 3,
        output: FRESH.get(..room).expect(rt, "a beginning"),
        errors: "afdx_play: output not written\n",
        asked: 0,
    };
    let read = ReadCall::Gives(LINE.as_bytes());
    check_streams(rt, alloc, read, &calls, wanted);
}

// rule: FAULT-2
#[test]
fn a_writer_fails_or_takes_nothing_more_after_each_byte(rt: HostRuntime) {
    for room in 0..FRESH.len() {
        check_room(&rt, rt.alloc(), room, WriteCall::Fails);
        check_room(&rt, rt.alloc(), room, WriteCall::Takes(0));
    }
}

// rule: TRACE-11, OUT-3
#[test]
fn a_trace_comes_and_goes_byte_by_byte(rt: HostRuntime) {
    let calls = [WriteCall::Takes(1); FRESH.len()];
    let read = ReadCall::Drips(LINE.as_bytes());
    check_streams(&rt, rt.alloc(), read, &calls, played(FRESH));
}
