//! Opening and closing.
use crate::given::{FILTERED, NO_FAULT, opened, text};
use receiver_slots::codes::{
    ALREADY_OPEN, DONE, FAULTY, NONE_LEFT, NOT_OPEN, OUT_OF_RANGE, STRAY_KEY,
};
use receiver_slots::{FaultReply, ReaderSlot, ReceiverSlot, check_text};
use std::alloc::Global;
use std::process::Abort;

/// Texts with a fault: its number, that of its key, whether it is about no link, a link or a port, and its line.
const FAULTS: [(&str, u32, u32, u32, u64); 11] = [
    ("link", 1, 0, 0, 1),
    ("# one\n\nlink = = 1\n", 1, 0, 0, 3),
    ("constant = \"03\"", 4, 1, 0, 1),
    ("", 2, 2, 0, 1),
    ("\n  link\t= 1", 3, 2, 0, 2),
    ("[[link]]\nvl = 65536", 4, 3, 1, 2),
    ("\n[[link]]\nvl = 1", 2, 4, 1, 2),
    ("[[link]]\n[other]\nvl = 1\n", 2, 3, 1, 1),
    (
        "[[link]]\nvls = 1\nvl = -1\nvl.a = 2\n[[link]]\nvl = 2\n",
        1,
        0,
        0,
        4,
    ),
    ("link = [{vl = 65536}]", 4, 3, 1, 0),
    (
        "[[link]]\nvl = 1\nskew_max_us = 0\nreassembly_us = 0\n[[link.port]]\nname = \"a\"\nkind = 1",
        3,
        10,
        2,
        7,
    ),
];

/// The second link of a document has the number of the first, and then its second port the name of its first.
const DOUBLE_LINK: &str = "[[link]]\nvl = 1\nskew_max_us = 0\nreassembly_us = 0\n[[link]]\nvl = 1";

const DOUBLE_NAME: &str =
    "[[link.port]]\nname = \"alt\"\nkind = \"queuing\"\naddress = \"1.1.1.1\"\nudp = 1\ndepth = 1";

/// Nothing is open in the slot.
fn is_closed(slot: &mut ReceiverSlot) -> bool {
    let mut reply = FILTERED;
    slot.receive(0, 0, &[0; 60], &mut reply) == NOT_OPEN
}

fn check_fault(rt: &impl Abort, alloc: Global, text: &[u8], wanted: FaultReply) {
    let mut slot = ReceiverSlot::new();
    let mut told = NO_FAULT;
    assert!(rt; slot.open_text(alloc, text, 8, &mut told) == FAULTY);
    assert!(rt; told == wanted, "{told:?}");
    assert!(rt; is_closed(&mut slot));
    check_checked(rt, alloc, text, FAULTY, wanted);
}

/// A check of this text answers so, and tells this.
fn check_checked(rt: &impl Abort, alloc: Global, text: &[u8], code: u32, wanted: FaultReply) {
    let mut told = NO_FAULT;
    assert!(rt; check_text(alloc, text, &mut told) == code);
    assert!(rt; told == wanted, "{told:?}");
}

/// A fault of this number and key, about a link, or about a port of it, at this line.
fn fault(fault: u32, key: u32, (level, link, port): (u32, usize, usize), line: u64) -> FaultReply {
    FaultReply {
        fault,
        key,
        level,
        link,
        port,
        line,
    }
}

fn check_faults(rt: &impl Abort, alloc: Global) {
    for (text, number, key, level, line) in FAULTS.iter() {
        check_fault(
            rt,
            alloc,
            text.as_bytes(),
            fault(*number, *key, (*level, 0, 0), *line),
        );
    }
    check_fault(rt, alloc, &[b'\n', b'#', 255], fault(1, 0, (0, 0, 0), 2));
    check_fault(rt, alloc, DOUBLE_LINK.as_bytes(), fault(5, 0, (1, 1, 0), 6));
    let mut double = text(rt, alloc);
    double.push_str(DOUBLE_NAME).expect(rt, "memory");
    check_fault(
        rt,
        alloc,
        double.as_str().as_bytes(),
        fault(7, 0, (2, 1, 1), 32),
    );
}

/// The first port of the second link has the name of a port of the first.
fn check_name_of_another_link(rt: &impl Abort, alloc: Global) {
    let text = text(rt, alloc);
    let double = text
        .replace(alloc, "\"alt\"", "\"nav\"")
        .expect(rt, "memory");
    check_fault(
        rt,
        alloc,
        double.as_str().as_bytes(),
        fault(7, 0, (2, 1, 0), 26),
    );
}

/// A key that is misspelt, in the first link and in the port of the second.
fn check_strays(rt: &impl Abort, alloc: Global) {
    let right = text(rt, alloc);
    check_checked(rt, alloc, right.as_str().as_bytes(), DONE, NO_FAULT);
    let link = right
        .replace(alloc, "vl = 17", "vl = 17\nwindw = 3")
        .expect(rt, "memory");
    let stray = fault(0, 0, (1, 0, 0), 3);
    check_checked(rt, alloc, link.as_str().as_bytes(), STRAY_KEY, stray);
    let mut port = right;
    port.push_str("refresh = 1\n").expect(rt, "memory");
    let stray = fault(0, 0, (2, 1, 0), 31);
    check_checked(rt, alloc, port.as_str().as_bytes(), STRAY_KEY, stray);
    let mut slot = ReceiverSlot::new();
    let mut told = NO_FAULT;
    assert!(rt; slot.open_text(alloc, port.as_str().as_bytes(), 1, &mut told) == DONE);
}

// rule: EMB-48, CONF-28
#[test]
fn a_key_that_is_misspelt_is_told_by_a_check(rt: HostRuntime) {
    check_strays(&rt, rt.alloc());
}

// rule: EMB-22, CONF-21, CONF-24, CONF-25
#[test]
fn the_fault_of_a_text_is_told_by_numbers(rt: HostRuntime) {
    check_faults(&rt, rt.alloc());
    check_name_of_another_link(&rt, rt.alloc());
}

/// No sampling port has 0 readers, or 9. With 1 the port has one.
fn check_reader_counts(rt: &impl Abort, alloc: Global) {
    let text = text(rt, alloc);
    let octets = text.as_str().as_bytes();
    let mut slot = ReceiverSlot::new();
    let mut fault = NO_FAULT;
    for readers in [0, 9, usize::MAX] {
        assert!(rt; slot.open_text(alloc, octets, readers, &mut fault) == OUT_OF_RANGE);
        assert!(rt; is_closed(&mut slot) && fault == NO_FAULT);
    }
    assert!(rt; slot.open_text(alloc, octets, 1, &mut fault) == DONE);
    let (mut one, mut other) = (ReaderSlot::new(), ReaderSlot::new());
    assert!(rt; slot.hand_reader(&mut one, b"pos") == DONE);
    assert!(rt; slot.hand_reader(&mut other, b"pos") == NONE_LEFT);
}

// rule: EMB-20
#[test]
fn a_sampling_port_has_1_to_8_readers(rt: HostRuntime) {
    check_reader_counts(&rt, rt.alloc());
}

fn check_opened_twice(rt: &impl Abort, alloc: Global) {
    let mut slot = opened(rt, alloc);
    let text = text(rt, alloc);
    let mut fault = NO_FAULT;
    assert!(rt; slot.open_text(alloc, text.as_str().as_bytes(), 8, &mut fault) == ALREADY_OPEN);
    slot.close();
    assert!(rt; is_closed(&mut slot));
    assert!(rt; slot.open_text(alloc, text.as_str().as_bytes(), 8, &mut fault) == DONE);
    assert!(rt; fault == NO_FAULT);
}

// rule: EMB-15, EMB-24
#[test]
fn a_slot_is_opened_once_and_again_after_it_was_closed(rt: HostRuntime) {
    check_opened_twice(&rt, rt.alloc());
}
