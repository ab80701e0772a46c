//! The lines of ports, which both players write by the same functions. The values are worked out by hand from
//! the formats.
use es_base::Sample;
use std::alloc::Global;
use std::process::Abort;
use trace_player::{Buffer, Device, Text, write_message, write_newest, write_queue};

/// The text is written as these lines.
fn check_written(rt: &impl Abort, alloc: Global, text: &Text<'_>, lines: &str) {
    let mut out = Device::new(Vec::new(alloc));
    let mut buffer = Buffer::open(alloc).expect(rt, "memory");
    let answer = text.write(&mut buffer, &mut out);
    assert!(rt; answer.is_ok());
    assert!(rt; out.inner.as_slice() == lines.as_bytes(), "{lines}");
}

/// A message: its number, its arrival time in microseconds, and its octets.
type Row<'a> = (u64, u64, &'a [u8]);

/// The line at `at` microseconds of a sampling port that refreshes after 200 microseconds, and has this newest
/// message.
fn check_newest(rt: &impl Abort, alloc: Global, at: u64, newest: Option<Row<'_>>, line: &str) {
    let newest = newest.map(|(number, time, octets)| Sample {
        number,
        time,
        octets,
    });
    let mut text = Text::new(alloc, Vec::new(alloc));
    let answer = write_newest(&mut text, at, "pos", 200, newest);
    assert!(rt; answer.is_ok());
    check_written(rt, alloc, &text, line);
}

// rule: REP-3, REP-5, REP-12
#[test]
fn a_sampling_port_shows_its_newest_message(rt: HostRuntime) {
    let alloc = rt.alloc();
    check_newest(&rt, alloc, 0, None, "port pos sampling empty\n");
    let fresh = "port pos sampling 2 1100 0 fresh\n";
    check_newest(&rt, alloc, 1300, Some((2, 1100, &[])), fresh);
    let stale = "port pos sampling 3 1300 1 stale a0\n";
    check_newest(&rt, alloc, 1501, Some((3, 1300, &[0xa0])), stale);
    let digits = "port pos sampling 1 1000 4 fresh 0102abff\n";
    check_newest(&rt, alloc, 0, Some((1, 1000, &[1, 2, 0xab, 0xff])), digits);
}

/// Adds the line of a message of `nav`.
fn add_message<'a>(rt: &impl Abort, text: &mut Text<'a>, time: u64, octets: &'a [u8]) {
    write_message(text, "nav", time, octets).expect(rt, "memory");
}

/// Three messages, the second of them empty.
const THREE: &str = "port nav queuing 3\n\
    message nav 1000 2 0102\n\
    message nav 1100 0\n\
    message nav 18446744073709551615 1 a0\n";

fn check_queue(rt: &impl Abort, alloc: Global) {
    let mut text = Text::new(alloc, Vec::new(alloc));
    write_queue(&mut text, "nav", 3).expect(rt, "memory");
    add_message(rt, &mut text, 1000, &[1, 2]);
    add_message(rt, &mut text, 1100, &[]);
    add_message(rt, &mut text, u64::MAX, &[0xa0]);
    check_written(rt, alloc, &text, THREE);
}

// rule: REP-6, REP-7
#[test]
fn a_queuing_port_shows_all_its_messages_in_order(rt: HostRuntime) {
    check_queue(&rt, rt.alloc());
}

/// As many octets, from 0 on; 0 follows 255.
fn counted(rt: &impl Abort, alloc: Global, octets: usize) -> Vec<u8> {
    let mut all = Vec::new(alloc);
    for place in 0..octets {
        all.push((place % 256) as u8).expect(rt, "memory");
    }
    all
}

/// The digits of these octets, one octet after another.
fn digits_of(rt: &impl Abort, alloc: Global, octets: &[u8]) -> String {
    let digits = b"0123456789abcdef";
    let mut all = String::new(alloc);
    for octet in octets {
        all.push(digits[(*octet / 16) as usize] as char)
            .expect(rt, "memory");
        all.push(digits[(*octet % 16) as usize] as char)
            .expect(rt, "memory");
    }
    all
}

/// A message of this many octets is written whole.
fn check_long(rt: &impl Abort, alloc: Global, octets: usize) {
    let payload = counted(rt, alloc, octets);
    let digits = digits_of(rt, alloc, &payload);
    let line = format!(in alloc; "message nav 7 {octets} {digits}\n").expect(rt, "memory");
    let mut text = Text::new(alloc, Vec::new(alloc));
    add_message(rt, &mut text, 7, &payload);
    check_written(rt, alloc, &text, line.as_str());
}

/// Lengths on both sides of a piece of 256 octets, with and without a block of 16 after it, and the
/// longest message of a queuing port.
fn lengths() -> [usize; 7] {
    [255, 256, 257, 271, 272, 273, 8192]
}

// rule: REP-12
#[test]
fn a_long_message_is_written_whole(rt: HostRuntime) {
    for octets in lengths() {
        check_long(&rt, rt.alloc(), octets);
    }
}

/// Lengths on both sides of 16 octets, below which there is no block, and of each number of blocks to 4.
// rule: REP-12
#[test]
fn messages_of_each_length_to_70_octets_are_written_whole(rt: HostRuntime) {
    for octets in 1..=70 {
        check_long(&rt, rt.alloc(), octets);
    }
}
