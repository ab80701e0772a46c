//! Messages at the ports: which are taken, and the newest of each port.
use crate::frames::{check_frames, check_rows, opened_with};
use crate::partitions::{check_read, opened_with_readers};
use es_base::Net::A;
use es_base::Verdict::{Sampled, TooLong};
use es_base::{LinkSettings, Message, PortNo, Verdict};
use link_receiver::PortEnd;
use std::alloc::Global;
use std::process::Abort;
use std::sync::Wait;
use test_inputs::rows::{FrameRow, POS};
use test_inputs::{IP, LINK, LONGEST_IP, LONGEST_UDP, Link, PAYLOAD, UDP, fives, sampling_port};

/// The message has this time in microseconds and this payload.
pub(crate) fn check_message(
    rt: &impl Abort,
    alloc: Global,
    message: &Message,
    time: u64,
    payload: &str,
) {
    let octets = hex::decode(alloc, payload).expect(rt, "octets");
    assert!(rt; message.time == time, "{time}");
    assert!(rt; message.octets.as_slice() == octets.as_slice(), "{time}");
}

/// A first frame becomes message 1 of `pos`, with this payload, and comes to no other port. The frame
/// has these headers, and `padded`: the payload and what follows it.
fn check_delivered(
    rt: &(impl Abort + Wait),
    alloc: Global,
    (ip, udp): (&str, &str),
    padded: &str,
    payload: &str,
) {
    let (mut state, mut readers) = opened_with_readers(rt, alloc);
    let frame = (A, 1000, 0, ip, udp, padded, Sampled(POS, 1));
    check_frames(rt, alloc, &mut state, &[frame]);
    let octets = hex::decode(alloc, payload).expect(rt, "octets");
    check_read(rt, &mut readers[0], (1, 1000), &octets);
}

// rule: PORT-4, PORT-6
#[test]
fn the_newest_message_of_a_port_is_read(rt: HostRuntime) {
    check_delivered(&rt, rt.alloc(), (IP, UDP), PAYLOAD, PAYLOAD);
}

// rule: PORT-3, PORT-4
#[test]
fn the_longest_frame_is_delivered_whole(rt: HostRuntime) {
    let payload = fives(rt.alloc(), 1471).expect(&rt, "memory");
    let headers = (LONGEST_IP, LONGEST_UDP);
    check_delivered(&rt, rt.alloc(), headers, payload.as_str(), payload.as_str());
}

// rule: UDP-2
#[test]
fn a_udp_datagram_of_eight_octets_has_an_empty_payload(rt: HostRuntime) {
    let headers = (IP, "1389138800080000");
    check_delivered(&rt, rt.alloc(), headers, PAYLOAD, "");
}

/// A third port of link 17, the sampling port `aux`, follows `nav`.
const AUX: PortNo = PortNo(2);
/// The UDP header of a datagram for `aux`, and a payload of 17 octets.
const AUX_UDP: &str = "1389138c00190000";

const AUX_PAYLOAD: &str = "2122232425262728292a2b2c2d2e2f3031";

fn frames_for_two_ports() -> [FrameRow<'static>; 3] {
    [
        (A, 1000, 1, IP, UDP, PAYLOAD, Sampled(POS, 1)),
        (A, 2000, 2, IP, AUX_UDP, AUX_PAYLOAD, Sampled(AUX, 1)),
        (A, 3000, 3, IP, UDP, PAYLOAD, Sampled(POS, 2)),
    ]
}

/// The settings of link 17 with three ports.
fn three_ports(rt: &impl Abort, alloc: Global) -> LinkSettings {
    let mut ports = LINK.ports(alloc).expect(rt, "ports");
    let aux = sampling_port("aux", 5004, 1471).expect(rt, "aux");
    ports.push(aux).expect(rt, "memory");
    LINK.with_ports(ports).expect(rt, "settings")
}

/// A reader of this end reads this message.
fn check_newest(
    rt: &impl Abort,
    alloc: Global,
    end: Option<PortEnd>,
    message: (u64, u64),
    payload: &str,
) {
    let Some(
        PortEnd::Sampling {
            port: _,
            name: _,
            mut readers,
        },
    ) = end
    else {
        panic!(rt; "a sampling port")
    };
    let octets = hex::decode(alloc, payload).expect(rt, "octets");
    check_read(rt, &mut readers[0], message, &octets);
}

/// After these frames the newest message of `pos` has this message number and time, and that of `aux`
/// is its first.
fn check_two_ports(
    rt: &(impl Abort + Wait),
    alloc: Global,
    frames: &[FrameRow<'_>],
    message_number: u64,
    time: u64,
) {
    let (mut state, mut ends) = opened_with(rt, alloc, &three_ports(rt, alloc));
    check_frames(rt, alloc, &mut state, frames);
    check_newest(rt, alloc, ends.pop(), (1, 2000), AUX_PAYLOAD);
    let _ = ends.pop();
    check_newest(rt, alloc, ends.pop(), (message_number, time), PAYLOAD);
}

// rule: PORT-16, PORT-6
#[test]
fn the_messages_of_each_port_are_numbered_apart(rt: HostRuntime) {
    let frames = frames_for_two_ports();
    check_two_ports(&rt, rt.alloc(), &frames[..2], 1, 1000);
    check_two_ports(&rt, rt.alloc(), &frames, 2, 3000);
}

/// The largest payload of `pos`, a UDP header before a payload of 17 octets, and the verdict of their
/// frame.
type Row = (u16, &'static str, Verdict);

fn largest_payloads() -> [Row; 4] {
    [
        (16, UDP, TooLong(POS)),
        (17, UDP, Sampled(POS, 1)),
        // The payload is cut to 16 octets first, and then compared.
        (16, "1389138800180000", Sampled(POS, 1)),
        (0, UDP, TooLong(POS)),
    ]
}

fn check_largest(rt: &(impl Abort + Wait), alloc: Global, row: Row) {
    let (pos_max, udp, verdict) = row;
    let frame = (A, 1000, 0, IP, udp, PAYLOAD, verdict);
    check_rows(rt, alloc, Link { pos_max, ..LINK }, &[frame]);
}

// rule: PORT-3
#[test]
fn payloads_are_compared_with_the_largest(rt: HostRuntime) {
    for row in largest_payloads() {
        check_largest(&rt, rt.alloc(), row);
    }
}

// rule: PORT-3, CONF-14
#[test]
fn the_largest_payload_of_a_sampling_port_is_1471_octets(rt: HostRuntime) {
    assert!(rt; sampling_port("pos", 5000, 1471).is_some());
    assert!(rt; sampling_port("pos", 5000, 1472).is_none());
}
