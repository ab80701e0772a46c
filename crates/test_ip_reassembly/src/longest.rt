//! A datagram of 8200 octets, of pieces of two blocks of 8 octets. Each piece begins one block after the one
//! before, so that half of its octets came already.
use ip_reassembly::{LONGEST_JOINED, Offered, Packet, Preview, Reassembly};
use std::alloc::Global;
use std::process::Abort;

/// The octets of the last block, which comes first.
const LAST: [u8; 8] = [0xee; 8];

pub(crate) fn piece(block: u16, more: bool, octets: &[u8]) -> Packet<'_> {
    Packet {
        source: 0x0a00_0001,
        destination: 0x0a00_0002,
        ident: 7,
        more,
        offset: 8 * u32::from(block),
        octets,
    }
}

/// The octets of the piece that begins with a block: each is the block's number, without its upper octet.
pub(crate) fn octets_from(block: u16) -> [u8; 16] {
    [(block % 256) as u8; 16]
}

/// The octet of the whole datagram at a place. Block 1023 came with block 1022 and with nothing later.
fn octet_at(place: usize) -> u8 {
    match place / 8 {
        1024 => 0xee,
        1023 => 254,
        block => (block % 256) as u8,
    }
}

pub(crate) fn check_held(rt: &impl Abort, reassembly: &mut Reassembly, packet: &Packet<'_>) {
    assert!(rt; reassembly.preview(packet, 1_000) == Preview::Held);
    let held = matches!(reassembly.offer(packet, 1_000), Offered::Held);
    assert!(rt; held);
}

fn check_all_held(rt: &impl Abort, reassembly: &mut Reassembly, first: u16, end: u16) {
    for block in first..end {
        check_held(rt, reassembly, &piece(block, true, &octets_from(block)));
    }
}

fn check_whole(rt: &impl Abort, offered: Offered<'_>) {
    match offered {
        Offered::Whole { octets, joined } => {
            assert!(rt; joined && octets.len() == LONGEST_JOINED);
            for (place, octet) in octets.iter().enumerate() {
                assert!(rt; *octet == octet_at(place));
            }
        }
        _ => assert!(rt; false, "another fate"),
    }
}

/// The end comes first, at octet 8197, and moves to 8200 in between. Before the piece of blocks 1022 and 1023
/// a block is missing.
fn check_longest(rt: &impl Abort, alloc: Global) {
    let mut reassembly = Reassembly::new(alloc, 50_000).expect(rt, "memory");
    check_held(rt, &mut reassembly, &piece(1024, false, &LAST[..5]));
    check_all_held(rt, &mut reassembly, 0, 512);
    check_held(rt, &mut reassembly, &piece(1024, false, &LAST));
    check_all_held(rt, &mut reassembly, 512, 1022);
    let octets = octets_from(1022);
    let filling = piece(1022, true, &octets);
    let whole = Preview::Whole {
        len: LONGEST_JOINED,
        head: [0; 8],
        joined: true,
    };
    assert!(rt; reassembly.preview(&filling, 1_000) == whole);
    check_whole(rt, reassembly.offer(&filling, 1_000));
}

// rule: REAS-9
#[test]
fn only_the_piece_that_fills_the_gap_completes_the_longest_datagram(rt: HostRuntime) {
    check_longest(&rt, rt.alloc());
}
