//! Fragments and other packets given to the receiver of a link, each in a frame of 60 octets.
use crate::frames::{check_frame, opened};
use link_receiver::LinkState;
use std::alloc::Global;
use std::process::Abort;
use std::sync::Wait;
use test_inputs::rows::{PacketRow, packet_row};
use test_inputs::{LINK, Link};

/// The receiver gives these packets these verdicts.
pub(crate) fn check_packets(
    rt: &(impl Abort + Wait),
    alloc: Global,
    state: &mut LinkState,
    rows: &[PacketRow],
) {
    for row in rows {
        check_frame(rt, alloc, state, packet_row(*row));
    }
}

/// A new receiver of this link gives these packets these verdicts.
pub(crate) fn check_packets_of(
    rt: &(impl Abort + Wait),
    alloc: Global,
    link: Link,
    rows: &[PacketRow],
) {
    let (mut state, _) = opened(rt, alloc, link);
    check_packets(rt, alloc, &mut state, rows);
}

/// A new receiver of the built-in configuration's link gives these packets these verdicts.
pub(crate) fn check_packet_rows(rt: &(impl Abort + Wait), alloc: Global, rows: &[PacketRow]) {
    check_packets_of(rt, alloc, LINK, rows);
}
