//! A receiver is opened from a table, without a text.
use crate::given::{NO_FAULT, opened_with};
use receiver_slots::codes::{ALREADY_OPEN, DONE, FAULTY, NONE_LEFT, OUT_OF_RANGE};
use receiver_slots::{
    FaultReply, LinkReply, LinkRow, PortReply, PortRow, ReaderSlot, ReceiverSlot,
};
use std::alloc::Global;
use std::process::Abort;
use vl_config::BUILT_IN;

const CONSTANT: [u8; 4] = [3, 0, 0, 0];

/// The link of the built-in configuration.
const LINK: LinkRow = LinkRow {
    vl: 17,
    redundancy: 1,
    skew_max: 1000,
    reassembly: 50_000,
    window: 2,
    ports: 2,
};

const POS: PortRow = PortRow {
    service: 1,
    address: 0xe0e0_0011,
    udp: 5000,
    max: 1471,
    limit: 20_000,
    name_len: 3,
    name: *b"pos.............",
    readers: 0,
};

const NAV: PortRow = PortRow {
    service: 2,
    address: 0xe0e0_0011,
    udp: 5002,
    max: 8192,
    limit: 4,
    name_len: 3,
    name: *b"nav.............",
    readers: 0,
};

/// Replies for the link, and for a port of it with its name.
fn told(rt: &impl Abort, slot: &ReceiverSlot, port: usize) -> (LinkReply, PortReply, [u8; 16]) {
    let mut link = LinkReply {
        vl: 0,
        redundancy: 0,
        skew_max: 0,
        reassembly: 0,
        window: 0,
        ports: 0,
    };
    let mut reply = PortReply {
        service: 0,
        address: 0,
        udp: 0,
        max: 0,
        limit: 0,
        name_len: 0,
    };
    let mut name = [b' '; 16];
    assert!(rt; slot.link(0, &mut link) == DONE);
    assert!(rt; slot.port(0, port, &mut reply, &mut name) == DONE);
    (link, reply, name)
}

fn check_table(rt: &impl Abort, alloc: Global) {
    let text = opened_with(rt, alloc, BUILT_IN);
    let mut slot = ReceiverSlot::new();
    let mut fault = NO_FAULT;
    let (links, ports) = (&[LINK][..], &[POS, NAV][..]);
    assert!(rt; slot.open_table(alloc, &CONSTANT, links, ports, 9, &mut fault) == OUT_OF_RANGE);
    assert!(rt; slot.open_table(alloc, &CONSTANT, links, ports, 1, &mut fault) == DONE);
    assert!(rt; slot.open_table(alloc, &CONSTANT, links, ports, 1, &mut fault) == ALREADY_OPEN);
    assert!(rt; fault == NO_FAULT);
    for port in [0, 1] {
        assert!(rt; told(rt, &slot, port) == told(rt, &text, port));
    }
}

// rule: CONF-26
#[test]
fn a_table_is_opened_as_the_text_that_says_the_same(rt: HostRuntime) {
    check_table(&rt, rt.alloc());
}

/// The table of this link and these ports has this fault.
fn check_fault(
    rt: &impl Abort,
    alloc: Global,
    link: LinkRow,
    ports: &[PortRow],
    wanted: FaultReply,
) {
    let mut slot = ReceiverSlot::new();
    let mut fault = NO_FAULT;
    assert!(rt; slot.open_table(alloc, &CONSTANT, &[link], ports, 1, &mut fault) == FAULTY);
    assert!(rt; fault == wanted, "{fault:?}");
}

fn fault(fault: u32, key: u32, (level, link, port): (u32, usize, usize)) -> FaultReply {
    FaultReply {
        fault,
        key,
        level,
        link,
        port,
        line: 0,
    }
}

fn check_faults(rt: &impl Abort, alloc: Global) {
    let wide = LinkRow { window: 5, ..LINK };
    check_fault(rt, alloc, wide, &[POS, NAV], fault(4, 7, (1, 0, 0)));
    let deep = PortRow { limit: 65, ..NAV };
    check_fault(rt, alloc, LINK, &[POS, deep], fault(4, 15, (2, 0, 1)));
    check_fault(rt, alloc, LINK, &[POS], fault(2, 8, (1, 0, 0)));
    check_fault(rt, alloc, LINK, &[POS, POS], fault(7, 0, (2, 0, 1)));
    check_fault(rt, alloc, LINK, &[POS, NAV, NAV], fault(8, 0, (0, 0, 0)));
    let nine = PortRow { readers: 9, ..POS };
    check_fault(rt, alloc, LINK, &[nine, NAV], fault(4, 16, (2, 0, 0)));
}

// rule: CONF-26, CONF-29
#[test]
fn the_fault_of_a_table_is_that_of_a_text_without_a_line(rt: HostRuntime) {
    check_faults(&rt, rt.alloc());
}

/// How many readers of this port can be handed out of a receiver that is opened from these ports, with this number for
/// those that have none of their own.
fn handed(rt: &impl Abort, alloc: Global, ports: &[PortRow], readers: usize, name: &[u8]) -> usize {
    let mut slot = ReceiverSlot::new();
    let mut fault = NO_FAULT;
    let link = LinkRow {
        ports: ports.len(),
        ..LINK
    };
    assert!(rt; slot.open_table(alloc, &CONSTANT, &[link], ports, readers, &mut fault) == DONE);
    for count in 0..9 {
        let mut reader = ReaderSlot::new();
        let code = slot.hand_reader(&mut reader, name);
        if code != DONE {
            assert!(rt; code == NONE_LEFT);
            return count;
        }
    }
    9
}

fn check_readers(rt: &impl Abort, alloc: Global) {
    let one = PortRow {
        name: *b"one.............",
        udp: 5001,
        readers: 1,
        ..POS
    };
    let eight = PortRow {
        name: *b"big.............",
        udp: 5003,
        readers: 8,
        ..POS
    };
    let ports = [POS, one, eight, NAV];
    assert!(rt; handed(rt, alloc, &ports, 3, b"pos") == 3);
    assert!(rt; handed(rt, alloc, &ports, 3, b"one") == 1);
    assert!(rt; handed(rt, alloc, &ports, 3, b"big") == 8);
    let of_a_queue = PortRow { readers: 9, ..NAV };
    assert!(rt; handed(rt, alloc, &[POS, of_a_queue], 2, b"pos") == 2);
}

// rule: EMB-20
#[test]
fn each_port_of_a_table_has_as_many_readers_as_its_row_says(rt: HostRuntime) {
    check_readers(&rt, rt.alloc());
}
