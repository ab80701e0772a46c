//! A call that takes little memory. Before it a growth of a known size is asked for, as in `without`: whoever refuses
//! growths adds up the octets of those after it, and refuses each with which they come to more than `MOST`.
use crate::refusal::OWN;
use crate::without::mark;
use es_base::Net::A;
use es_base::Verdict::FragmentHeld;
use frame_reader::read_frame;
use link_receiver::LinkState;
use std::alloc::Global;
use std::process::Abort;
use std::sync::Wait;
use test_inputs::fragments::PacketName::{First, LastTo8199};
use test_inputs::fragments::{PacketName, padding_after};
use test_inputs::{CONSTANT, ETHERNET, LINK, frame_of};

/// Number of octets that may be asked for.
const MOST: usize = 2_000;

/// A link in which a datagram waits of which only this piece came.
fn link_with(rt: &(impl Abort + Wait), alloc: Global, name: PacketName) -> LinkState {
    let settings = LINK.settings(alloc).expect(rt, OWN);
    let (mut state, _ends) = LinkState::new(alloc, &settings).expect(rt, OWN);
    let (ip, octets) = name.texts();
    let texts = [ETHERNET, ip, octets, padding_after(octets)];
    let octets = frame_of(alloc, &texts, 0).expect(rt, OWN);
    let frame = read_frame(CONSTANT, &octets).expect(rt, "a frame");
    assert!(rt; frame.vl == state.settings().vl());
    let verdict = state.take(rt, alloc, A, 1000, &frame).expect(rt, OWN);
    assert!(rt; verdict == FragmentHeld);
    state
}

/// An epoch takes memory for what came of a datagram and not for what is before or after it.
fn check_epoch(rt: &impl Abort, alloc: Global, mut state: LinkState) {
    mark(rt, alloc);
    let epoch = state.take_epoch(alloc);
    assert!(rt; epoch.is_ok());
}

// rule: EMB-40
#[test]
fn an_epoch_with_the_end_of_a_datagram_takes_little_memory(rt: HostRuntime) {
    check_epoch(&rt, rt.alloc(), link_with(&rt, rt.alloc(), LastTo8199));
}

// rule: EMB-40
#[test]
fn an_epoch_with_the_beginning_of_a_datagram_takes_little_memory(rt: HostRuntime) {
    check_epoch(&rt, rt.alloc(), link_with(&rt, rt.alloc(), First));
}
