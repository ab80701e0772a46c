//! The opening of a receiver for one task in a slot, as programs in C have it.
use crate::refusal::{OWN, tell};
use receiver_slots::codes::{DONE, FAULTY, NO_MEMORY, NOT_OPEN};
use receiver_slots::{FaultReply, ReceiverSlot};
use std::alloc::Global;
use std::process::Abort;
use test_inputs::SECOND_LINK;
use vl_config::BUILT_IN;

/// A reply that no call has written to.
const UNTOUCHED: FaultReply = FaultReply {
    fault: 77,
    key: 77,
    level: 77,
    link: 77,
    port: 77,
    line: 77,
};

/// The number of a link that isn't, in the place of the second one's.
const NO_LINK: &str = "vl = 65536";

/// The reply for it: a value out of its range, that of `vl` in the second link, after the 18 lines of the first and a
/// heading.
const OUT_OF_RANGE: FaultReply = FaultReply {
    fault: 4,
    key: 3,
    level: 1,
    link: 1,
    port: 0,
    line: 20,
};

/// The answer for a text, and the reply after it. It has no clause: a test doesn't need what each text comes to.
fn open(alloc: Global, slot: &mut ReceiverSlot, text: &str) -> (u32, FaultReply) {
    let mut fault = UNTOUCHED;
    let code = slot.open_text(alloc, text.as_bytes(), 8, &mut fault);
    (code, fault)
}

/// Number of links of the receiver in the slot. None if nothing is open in it.
fn links_in(rt: &impl Abort, slot: &ReceiverSlot) -> Option<usize> {
    let mut links = 77;
    let code = slot.links(&mut links);
    assert!(rt; code == DONE || code == NOT_OPEN && links == 77);
    if code == DONE { Some(links) } else { None }
}

/// The slot answered that memory ran out: nothing is open in it, and no fault is told.
fn check_refused(
    rt: &(impl Abort + Eprint),
    slot: &ReceiverSlot,
    (code, fault): (u32, FaultReply),
) {
    tell(rt, "Slot::open_text");
    assert!(rt; code == NO_MEMORY, "{code}");
    assert!(rt; fault == UNTOUCHED, "{fault:?}");
    assert!(rt; links_in(rt, slot).is_none());
}

/// This is answered for a text, at the second try if memory runs out at the first, and the slot has so many links then.
fn check_answer(
    rt: &(impl Abort + Eprint),
    alloc: Global,
    text: &str,
    wanted: (u32, FaultReply),
    links: Option<usize>,
) {
    let mut slot = ReceiverSlot::new();
    let mut answer = open(alloc, &mut slot, text);
    if answer != wanted {
        check_refused(rt, &slot, answer);
        answer = open(alloc, &mut slot, text);
    }
    assert!(rt; answer == wanted, "{answer:?}");
    assert!(rt; links_in(rt, &slot) == links);
}

fn check_opened(rt: &(impl Abort + Eprint), alloc: Global) {
    let text = format!(in alloc; "{BUILT_IN}{SECOND_LINK}").expect(rt, OWN);
    check_answer(rt, alloc, text.as_str(), (DONE, UNTOUCHED), Some(2));
}

// rule: EMB-15, EMB-39
#[test]
fn a_receiver_is_opened_in_a_slot(rt: HostRuntime) {
    check_opened(&rt, rt.alloc());
}

fn check_fault(rt: &(impl Abort + Eprint), alloc: Global) {
    let text = format!(in alloc; "{BUILT_IN}[[link]]\n{NO_LINK}\n").expect(rt, OWN);
    check_answer(rt, alloc, text.as_str(), (FAULTY, OUT_OF_RANGE), None);
}

// rule: EMB-22, EMB-39
#[test]
fn a_fault_is_told_with_its_place(rt: HostRuntime) {
    check_fault(&rt, rt.alloc());
}
