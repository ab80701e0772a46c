//! Four datagrams for `nav` of different lengths, each in two pieces, which stand beside one another.
use crate::cases::{Case, Row, case_of};
use crate::refusal::OWN;
use es_base::Verdict;
use es_base::Verdict::FragmentHeld;
use queuing_port::Taker;
use std::alloc::Global;
use std::process::Abort;
use std::sync::Wait;
use test_inputs::fragments::padding_after;
use test_inputs::rows::FOR_NAV;
use test_inputs::{ETHERNET, frame_of};

/// Number of datagrams: as many as may stand.
pub(crate) const DATAGRAMS: usize = 4;

/// The header checksum of a packet from 10.1.1.1 to 224.224.0.17 if its total length, identification and fragment
/// offset were 0. Less by each of them.
const CHECKSUM: u16 = 0xcdfa;

/// The bit that says that more fragments follow, above the thirteen bits of the offset.
const MORE_FRAGMENTS: u16 = 0x2000;

/// A datagram in two pieces: its identification, its length and where its second piece begins, in octets, and whether
/// the second piece comes first.
type Cut = (u16, u16, u16, bool);

fn four_cuts() -> [Cut; DATAGRAMS] {
    [
        (21, 24, 16, false),
        (22, 120, 64, false),
        (23, 1500, 1472, false),
        (24, 56, 24, true),
    ]
}

/// The octets of a datagram: its UDP header, and octets that differ from those of the others.
fn octets_of(rt: &impl Abort, alloc: Global, (identification, len, ..): Cut) -> Vec<u8> {
    let [high, low] = len.to_be_bytes();
    let head = [0x13, 0x89, 0x13, 0x8a, high, low, 0, 0];
    let mut octets = Vec::with_capacity(alloc, usize::from(len)).expect(rt, OWN);
    octets.extend_from_slice(&head).expect(rt, OWN);
    for place in 8..len {
        let octet = (place.wrapping_mul(identification) % 256) as u8;
        octets.push(octet).expect(rt, OWN);
    }
    octets
}

/// The hexadecimal text of an IPv4 header for so many octets, with these flags and this fragment offset.
fn header_text(
    rt: &impl Abort,
    alloc: Global,
    identification: u16,
    fragment: u16,
    len: u16,
) -> String {
    let total = len.wrapping_add(20);
    let others = total.wrapping_add(identification).wrapping_add(fragment);
    let sum = CHECKSUM.wrapping_sub(others);
    format!(in alloc;
        "4500{total:04x}{identification:04x}{fragment:04x}0111{sum:04x}0a010101e0e00011"
    ).expect(rt, OWN)
}

/// The frame of one piece of a datagram, with this sequence number.
fn piece_of(rt: &impl Abort, alloc: Global, cut: Cut, is_first: bool, number: u8) -> Vec<u8> {
    let (identification, len, at, _) = cut;
    let (from, end, fragment) = if is_first {
        (0, at, MORE_FRAGMENTS)
    } else {
        (at, len, at / 8)
    };
    let datagram = octets_of(rt, alloc, cut);
    let octets = datagram.get(usize::from(from)..usize::from(end));
    let text = hex::encode(alloc, octets.expect(rt, "a piece")).expect(rt, OWN);
    let ip = header_text(rt, alloc, identification, fragment, end.wrapping_sub(from));
    let (ip, octets) = (ip.as_str(), text.as_str());
    frame_of(
        alloc,
        &[ETHERNET, ip, octets, padding_after(octets)],
        number,
    )
    .expect(rt, OWN)
}

/// The frame that completes the datagram at this place, with this sequence number.
pub(crate) fn last_of(rt: &impl Abort, alloc: Global, place: usize, number: u8) -> Vec<u8> {
    let cut = *four_cuts().get(place).expect(rt, "a datagram");
    piece_of(rt, alloc, cut, cut.3, number)
}

/// The frame with which the datagram at this place begins, with this sequence number.
fn begin_of(rt: &impl Abort, alloc: Global, place: usize, number: u8) -> Vec<u8> {
    let cut = *four_cuts().get(place).expect(rt, "a datagram");
    piece_of(rt, alloc, cut, !cut.3, number)
}

/// The frame at this place among eight: four begin a datagram, and four complete one. Its sequence number is the place.
fn frame_at(rt: &impl Abort, alloc: Global, place: usize) -> (Vec<u8>, Verdict) {
    let number = (place % 8) as u8;
    if place < DATAGRAMS {
        (begin_of(rt, alloc, place, number), FragmentHeld)
    } else {
        let octets = last_of(rt, alloc, place.wrapping_sub(DATAGRAMS), number);
        (octets, FOR_NAV)
    }
}

/// When the frame at this place comes, in microseconds.
fn time_at(place: usize) -> u64 {
    (place as u64).wrapping_mul(10).wrapping_add(1000)
}

/// Four datagrams begin, and then each is completed.
pub(crate) fn four_stand(rt: &impl Abort, alloc: Global) -> Case {
    let mut case = case_of(rt, alloc, 4, &[], &[]);
    for place in 0..2 * DATAGRAMS {
        let (octets, verdict) = frame_at(rt, alloc, place);
        let time = time_at(place);
        let row = Row {
            time,
            octets,
            verdict,
        };
        case.rows.push(row).expect(rt, OWN);
    }
    case
}

/// The message of the datagram at this place waits in the queue, with the octets of both pieces.
fn check_message(rt: &(impl Abort + Wait), alloc: Global, taker: &mut Taker, place: usize) {
    let cut = *four_cuts().get(place).expect(rt, "a datagram");
    let octets = octets_of(rt, alloc, cut);
    let message = taker.take(rt).expect(rt, "a message");
    assert!(rt; message.time == time_at(place.wrapping_add(DATAGRAMS)));
    assert!(rt; Some(message.octets.as_slice()) == octets.get(8..));
}

/// The messages of the four datagrams wait in the queue, and no other.
pub(crate) fn check_messages(rt: &(impl Abort + Wait), alloc: Global, taker: &mut Taker) {
    for place in 0..DATAGRAMS {
        check_message(rt, alloc, taker, place);
    }
    assert!(rt; taker.take(rt).is_none());
}
