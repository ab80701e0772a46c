//! The greatest configuration, and the longest message, through the player.
use crate::configurations::Document::{BuiltIn, Greatest};
use crate::played::{Wanted, add_frame, add_line, check_played};
use std::alloc::Global;
use std::process::Abort;
use test_inputs::{
    ETHERNET, GREATEST_LINKS, GREATEST_PORTS, greatest_frame, greatest_number_at, greatest_payload,
    greatest_samples,
};

/// The place of the last link.
const LAST: u16 = GREATEST_LINKS - 1;

/// Adds a frame of each link to the trace, at a time that is its place, but for the last link: of that a frame for each
/// port, at 100 microseconds and as many as the port's place.
fn add_frames(rt: &impl Abort, alloc: Global, trace: &mut String) {
    for place in 0..LAST {
        let vl = greatest_number_at(place);
        let frame = greatest_frame(alloc, vl, 0, 0).expect(rt, "a frame");
        add_frame(rt, alloc, trace, u64::from(place), &frame);
    }
    for port in 0..GREATEST_PORTS {
        let frame = greatest_frame(alloc, u16::MAX, port, (port % 256) as u8).expect(rt, "a frame");
        add_frame(rt, alloc, trace, u64::from(port) + 100, &frame);
    }
}

/// Adds the lines of these frames.
fn add_lines(rt: &impl Abort, output: &mut String) {
    for place in 0..LAST {
        let vl = greatest_number_at(place);
        writeln!(output, "{place} A vl {vl} 0 no-port").expect(rt, "memory");
    }
    for port in 0..GREATEST_PORTS {
        let time = u64::from(port) + 100;
        let words = if greatest_samples(port) {
            "sampled"
        } else {
            "queued"
        };
        let number = if greatest_samples(port) { " 1" } else { "" };
        writeln!(output, "{time} A vl 65535 {port} {words} p{port}{number}").expect(rt, "memory");
    }
}

/// Adds the lines of the ports, each with its own message.
fn add_ports(rt: &impl Abort, alloc: Global, output: &mut String) {
    for port in 0..GREATEST_PORTS {
        let time = u64::from(port) + 100;
        let payload = greatest_payload(alloc, port).expect(rt, "memory");
        if greatest_samples(port) {
            writeln!(output, "port p{port} sampling 1 {time} 17 fresh {payload}")
        } else {
            writeln!(
                output,
                "port p{port} queuing 1\nmessage p{port} {time} 17 {payload}"
            )
        }
        .expect(rt, "memory");
    }
}

/// Adds the counts.
fn add_counts(rt: &impl Abort, output: &mut String) {
    for place in 0..LAST {
        let vl = greatest_number_at(place);
        writeln!(
            output,
            "count {vl} A 0 0 0 0 0 0 1 0 0 0 0 0 0\ncount {vl} B 0 0 0 0 0 0 0 0 0 0 0 0 0"
        )
        .expect(rt, "memory");
    }
    output.push_str(LAST_COUNTS).expect(rt, "memory");
}

/// The counts of the last link and of filtered frames.
const LAST_COUNTS: &str = "count 65535 A 0 0 0 0 0 0 0 0 0 16 16 0 0\n\
    count 65535 B 0 0 0 0 0 0 0 0 0 0 0 0 0\n\
    filtered A 0 0 0 0 0\n\
    filtered B 0 0 0 0 0\n";

fn check_greatest(rt: &impl Abort, alloc: Global) {
    let mut trace = String::new(alloc);
    let mut output = String::new(alloc);
    add_frames(rt, alloc, &mut trace);
    add_lines(rt, &mut output);
    add_ports(rt, alloc, &mut output);
    add_counts(rt, &mut output);
    let wanted = Wanted::Whole(output.as_str());
    check_played(rt, alloc, Greatest, (trace.as_str(), ""), None, wanted);
}

// rule: REP-2
#[test]
fn each_of_thirty_two_ports_of_the_last_of_64_links_has_its_own_message(rt: HostRuntime) {
    check_greatest(&rt, rt.alloc());
}

// ---- the longest message: 8192 octets, and a header of 8, in five fragments of 1472 octets and one of 840

/// The last fragment.
const LAST_FRAGMENT: u16 = 5;

/// How many octets of the message this fragment has.
fn message_octets(fragment: u16) -> usize {
    match fragment {
        0 => 1464,
        LAST_FRAGMENT => 840,
        _ => 1472,
    }
}

/// The digits of them: each octet is a0 and as much as the number of the fragment.
fn message_digits(rt: &impl Abort, alloc: Global, fragment: u16) -> String {
    let digits = format!(in alloc; "a{fragment}").expect(rt, "memory");
    let octets = message_octets(fragment);
    digits.as_str().repeat(alloc, octets).expect(rt, "memory")
}

/// The IPv4 header of this fragment. Its offset is 184 times 8 octets for each one before it; where more follow, 0x2000
/// stands in the same two octets.
fn header_of(rt: &impl Abort, alloc: Global, fragment: u16) -> String {
    let offset = fragment.wrapping_mul(184);
    let (length, flags, checksum) = if fragment == LAST_FRAGMENT {
        (0x035c_u16, offset, 0xc704_u16)
    } else {
        let checksum = 0xa824_u16.wrapping_sub(offset);
        (0x05d4_u16, offset.wrapping_add(0x2000), checksum)
    };
    format!(in alloc; "4500{length:04x}0002{flags:04x}0111{checksum:04x}0a010101e0e00011").expect(
        rt, "memory",
    )
}

/// The UDP header for `nav`, of 8200 octets, stands in the first fragment.
fn udp_of(fragment: u16) -> &'static str {
    if fragment == 0 {
        "1389138a20080000"
    } else {
        ""
    }
}

fn add_fragment(rt: &impl Abort, alloc: Global, trace: &mut String, fragment: u16) {
    let ip = header_of(rt, alloc, fragment);
    let digits = message_digits(rt, alloc, fragment);
    let texts = [ETHERNET, ip.as_str(), udp_of(fragment), digits.as_str()];
    let number = (fragment % 256) as u8;
    add_line(rt, alloc, trace, u64::from(fragment), &texts, number);
}

/// Output before the digits of the message.
const BEFORE_DIGITS: &str = "0 A vl 17 0 fragment-held\n\
    1 A vl 17 1 fragment-held\n\
    2 A vl 17 2 fragment-held\n\
    3 A vl 17 3 fragment-held\n\
    4 A vl 17 4 fragment-held\n\
    5 A vl 17 5 queued nav\n\
    port pos sampling empty\n\
    port nav queuing 1\n\
    message nav 5 8192 ";

/// Output after them.
const AFTER_DIGITS: &str = "\ncount 17 A 0 0 0 0 5 0 0 0 0 0 1 0 0\n\
    count 17 B 0 0 0 0 0 0 0 0 0 0 0 0 0\n\
    filtered A 0 0 0 0 0\n\
    filtered B 0 0 0 0 0\n";

fn check_longest(rt: &impl Abort, alloc: Global) {
    let mut trace = String::new(alloc);
    let mut output = String::from_str(alloc, BEFORE_DIGITS).expect(rt, "memory");
    for fragment in 0..LAST_FRAGMENT + 1 {
        add_fragment(rt, alloc, &mut trace, fragment);
        let digits = message_digits(rt, alloc, fragment);
        output.push_str(digits.as_str()).expect(rt, "memory");
    }
    output.push_str(AFTER_DIGITS).expect(rt, "memory");
    let wanted = Wanted::Whole(output.as_str());
    check_played(rt, alloc, BuiltIn, (trace.as_str(), ""), None, wanted);
}

// rule: REP-7, REP-12
#[test]
fn a_message_of_8192_octets_is_in_the_report_with_all_its_digits(rt: HostRuntime) {
    check_longest(&rt, rt.alloc());
}
