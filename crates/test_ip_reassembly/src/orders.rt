//! A datagram of 48 octets, of pieces of two blocks of 8 octets, which come in several orders. A piece has the
//! number of the block with which it begins, and each of its octets is that number.
use crate::longest::{check_held, octets_from, piece};
use ip_reassembly::{Offered, Preview, Reassembly};
use std::alloc::Global;
use std::process::Abort;

/// The octets where no two pieces overlap: those of pieces 0, 2 and 4.
const APART: [u8; 48] = [
    0, 0, 0, 0, 0, 0, 0, 0, 0, 0, 0, 0, 0, 0, 0, 0, 2, 2, 2, 2, 2, 2, 2, 2, 2, 2, 2, 2, 2, 2, 2, 2,
    4, 4, 4, 4, 4, 4, 4, 4, 4, 4, 4, 4, 4, 4, 4, 4,
];

/// The octets where piece 1 came after piece 2, piece 3 after both, and then pieces 4 and 0.
const OVER: [u8; 48] = [
    0, 0, 0, 0, 0, 0, 0, 0, 0, 0, 0, 0, 0, 0, 0, 0, 1, 1, 1, 1, 1, 1, 1, 1, 3, 3, 3, 3, 3, 3, 3, 3,
    4, 4, 4, 4, 4, 4, 4, 4, 4, 4, 4, 4, 4, 4, 4, 4,
];

/// The octets of a datagram that ends with piece 1, after piece 0.
const BELOW: [u8; 24] = [
    0, 0, 0, 0, 0, 0, 0, 0, 0, 0, 0, 0, 0, 0, 0, 0, 1, 1, 1, 1, 1, 1, 1, 1,
];

/// The piece that begins with block 4 ends the datagram.
fn has_more(block: u16) -> bool {
    block != 4
}

fn check_joined(rt: &impl Abort, offered: Offered<'_>, datagram: &[u8]) {
    match offered {
        Offered::Whole { octets, joined } => assert!(rt; joined && octets == datagram),
        _ => assert!(rt; false, "another fate"),
    }
}

/// These pieces are held, and then the piece `filling` completes the datagram.
fn check_order(rt: &impl Abort, alloc: Global, held: &[u16], filling: u16, datagram: &[u8]) {
    let mut reassembly = Reassembly::new(alloc, 50_000).expect(rt, "memory");
    for block in held {
        check_held(
            rt,
            &mut reassembly,
            &piece(*block, has_more(*block), &octets_from(*block)),
        );
    }
    let octets = octets_from(filling);
    let packet = piece(filling, has_more(filling), &octets);
    let whole = Preview::Whole {
        len: 48,
        head: [0; 8],
        joined: true,
    };
    assert!(rt; reassembly.preview(&packet, 1_000) == whole);
    check_joined(rt, reassembly.offer(&packet, 1_000), datagram);
}

// rule: REAS-9
#[test]
fn pieces_that_do_not_overlap_are_joined_in_each_order(rt: HostRuntime) {
    check_order(&rt, rt.alloc(), &[0, 2], 4, &APART);
    check_order(&rt, rt.alloc(), &[4, 2], 0, &APART);
    check_order(&rt, rt.alloc(), &[4, 0], 2, &APART);
}

// rule: REAS-8, REAS-9
#[test]
fn pieces_may_overlap_what_came_from_both_sides(rt: HostRuntime) {
    check_order(&rt, rt.alloc(), &[2, 1, 3, 4], 0, &OVER);
}

/// Octets 16 to 31 come, and then 8 to 23, with which the datagram ends: as many came as it has, but not the first 8.
fn check_end_below(rt: &impl Abort, alloc: Global) {
    let mut reassembly = Reassembly::new(alloc, 50_000).expect(rt, "memory");
    check_held(rt, &mut reassembly, &piece(2, true, &octets_from(2)));
    check_held(rt, &mut reassembly, &piece(1, false, &octets_from(1)));
    let octets = octets_from(0);
    check_joined(
        rt,
        reassembly.offer(&piece(0, true, &octets), 1_000),
        &BELOW,
    );
}

// rule: REAS-9
#[test]
fn octets_past_the_end_do_not_count_for_those_before_it(rt: HostRuntime) {
    check_end_below(&rt, rt.alloc());
}

/// The UDP header of a datagram of 32 octets for UDP port 5000.
const FOR_5000: [u8; 8] = [0x13, 0x89, 0x13, 0x88, 0, 32, 0, 0];

/// The UDP header of one for UDP port 5002, and the 8 octets after it.
const FOR_5002: [u8; 16] = [0x13, 0x89, 0x13, 0x8a, 0, 32, 0, 0, 9, 9, 9, 9, 9, 9, 9, 9];

/// The datagram of the later header, and of piece 2.
const HEADER_ANEW: [u8; 32] = [
    0x13, 0x89, 0x13, 0x8a, 0, 32, 0, 0, 9, 9, 9, 9, 9, 9, 9, 9, 2, 2, 2, 2, 2, 2, 2, 2, 2, 2, 2,
    2, 2, 2, 2, 2,
];

/// A header comes alone, then the last piece, and then another header with the octets between both, which completes the
/// datagram.
fn check_header_anew(rt: &impl Abort, alloc: Global) {
    let mut reassembly = Reassembly::new(alloc, 50_000).expect(rt, "memory");
    check_held(rt, &mut reassembly, &piece(0, true, &FOR_5000));
    check_held(rt, &mut reassembly, &piece(2, false, &octets_from(2)));
    let filling = piece(0, true, &FOR_5002);
    let whole = Preview::Whole {
        len: 32,
        head: [0x13, 0x89, 0x13, 0x8a, 0, 32, 0, 0],
        joined: true,
    };
    assert!(rt; reassembly.preview(&filling, 1_000) == whole);
    check_joined(rt, reassembly.offer(&filling, 1_000), &HEADER_ANEW);
}

// rule: REAS-8
#[test]
fn the_header_of_the_piece_that_completes_a_datagram_is_the_later_one(rt: HostRuntime) {
    check_header_anew(&rt, rt.alloc());
}
