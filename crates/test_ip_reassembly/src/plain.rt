//! Plain IPv4, without frames.
use ip_reassembly::{Offered, Packet, Reassembly};
use std::process::Abort;

fn end() -> Packet<'static> {
    Packet {
        source: 0x0a00_0001,
        destination: 0x0a00_0002,
        ident: 7,
        more: false,
        offset: 16,
        octets: b"the end.",
    }
}

fn beginning() -> Packet<'static> {
    Packet {
        source: 0x0a00_0001,
        destination: 0x0a00_0002,
        ident: 7,
        more: true,
        offset: 0,
        octets: b"This is not yet ",
    }
}

fn check_joined(rt: &impl Abort, offered: Offered<'_>) {
    match offered {
        Offered::Whole { octets, joined } => {
            assert!(rt; joined);
            assert!(rt; octets == b"This is not yet the end.".as_slice());
        }
        _ => assert!(rt; false),
    }
}

// rule: REAS-9
#[test]
fn a_datagram_of_plain_ipv4_is_joined(rt: HostRuntime) {
    let mut reassembly = Reassembly::new(rt.alloc(), 500_000).expect(&rt, "memory");
    let held = matches!(reassembly.offer(&end(), 1_000), Offered::Held);
    assert!(rt; held);
    check_joined(&rt, reassembly.offer(&beginning(), 1_200));
}
