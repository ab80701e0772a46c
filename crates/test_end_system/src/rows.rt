//! Worked frames, one after another: each reply, and then the link's history and the counts of both passes.
use crate::histories::check_events;
use end_system::{Gate, NoGate, Reply};
use es_base::{LinkNo, Net};
use std::alloc::Global;
use std::process::Abort;
use std::sync::Wait;
use test_inputs::rows::{
    FrameRow, PacketRow, SmallestRow, bad_and_good, copy_after_skew_max, copy_at_skew_max,
    copy_before_its_first, first_twice, five_begin, in_order, joined_for_a_sampling_port,
    last_first, packet_row, reset_after_255, smallest_row, turn, two_frames_late, window,
};
use test_inputs::{ETHERNET, frame_of};
use test_inputs_end_system::{BUILT_IN, Given, Running, config_of};

/// The link of the built-in configuration.
pub(crate) const LINK_17: LinkNo = LinkNo(17);

/// A new system with the links of these texts.
pub(crate) fn opened_with<G: Gate + Drop>(
    rt: &impl Abort,
    alloc: Global,
    texts: &[&str],
    gate: G,
) -> Running<G> {
    let config = config_of(alloc, texts).expect(rt, "a configuration");
    Running::open(alloc, &config, gate).expect(rt, "memory")
}

/// A new system with the built-in configuration.
pub(crate) fn opened(rt: &impl Abort, alloc: Global) -> Running<NoGate> {
    opened_with(rt, alloc, &[BUILT_IN], NoGate)
}

/// The system receives this frame on this network.
pub(crate) fn receive<G: Gate + Drop>(
    rt: &(impl Abort + Wait),
    alloc: Global,
    running: &mut Running<G>,
    net: Net,
    now: u64,
    octets: &[u8],
) -> Reply {
    let reply = running.receive(rt, alloc, net, now, octets);
    reply.expect(rt, "memory")
}

/// The octets of the frame of a row.
pub(crate) fn octets_of(rt: &impl Abort, alloc: Global, row: FrameRow<'_>) -> Vec<u8> {
    let (_, _, sequence_number, ip, udp, payload, _) = row;
    let texts = [ETHERNET, ip, udp, payload];
    frame_of(alloc, &texts, sequence_number).expect(rt, "octets")
}

/// The system receives a frame of link 17, whose event has this place, with its verdict. Returns what link 17 was
/// given.
pub(crate) fn check_frame<G: Gate + Drop>(
    rt: &(impl Abort + Wait),
    alloc: Global,
    running: &mut Running<G>,
    place: u64,
    row: FrameRow<'_>,
) -> Given {
    let (net, time, _, _, _, _, verdict) = row;
    let frame = octets_of(rt, alloc, row);
    let reply = receive(rt, alloc, running, net, time, &frame);
    let vl = LINK_17;
    let wanted = Reply::Link { vl, place, verdict };
    assert!(rt; reply == wanted, "{place}: {reply:?}");
    Given {
        net,
        time,
        frame,
        place,
        verdict,
    }
}

/// The system receives these frames of link 17, one after another, with their verdicts. Returns what the link was
/// given.
pub(crate) fn check_frames<G: Gate + Drop>(
    rt: &(impl Abort + Wait),
    alloc: Global,
    running: &mut Running<G>,
    rows: &[FrameRow<'_>],
) -> Vec<Given> {
    let mut given = Vec::new(alloc);
    for row in rows {
        let place = given.len() as u64;
        let one = check_frame(rt, alloc, running, place, *row);
        given.push(one).expect(rt, "memory");
    }
    given
}

/// The system ends, and link 17, the only one, has the history of what it was given.
pub(crate) fn check_history<G: Gate + Drop>(rt: &impl Abort, running: Running<G>, given: &[Given]) {
    let settled = running.settle();
    assert!(rt; settled.links.len() == 1);
    for link in &settled.links {
        assert!(rt; link.settings().vl() == LINK_17 && link.taken() == 0);
        check_events(rt, 0, link.history(), given);
    }
}

/// A new system receives these frames, with their verdicts and the places from 0 on, and they are the link's history.
fn check_rows(rt: &(impl Abort + Wait), alloc: Global, rows: &[FrameRow<'_>]) {
    let mut running = opened(rt, alloc);
    let given = check_frames(rt, alloc, &mut running, rows);
    check_history(rt, running, &given);
}

pub(crate) fn rows_of(
    rt: &impl Abort,
    alloc: Global,
    rows: &[SmallestRow],
) -> Vec<FrameRow<'static>> {
    let mut all = Vec::new(alloc);
    for row in rows {
        all.push(smallest_row(*row)).expect(rt, "memory");
    }
    all
}

fn check_smallest(rt: &(impl Abort + Wait), alloc: Global, rows: &[SmallestRow]) {
    check_rows(rt, alloc, &rows_of(rt, alloc, rows));
}

/// The rows of frames with these packets.
pub(crate) fn packet_rows(
    rt: &impl Abort,
    alloc: Global,
    rows: &[PacketRow],
) -> Vec<FrameRow<'static>> {
    let mut all = Vec::new(alloc);
    for row in rows {
        all.push(packet_row(*row)).expect(rt, "memory");
    }
    all
}

fn check_packets(rt: &(impl Abort + Wait), alloc: Global, rows: &[PacketRow]) {
    check_rows(rt, alloc, &packet_rows(rt, alloc, rows));
}

// rule: CONC-9
#[test]
fn sequence_numbers_are_checked(rt: HostRuntime) {
    check_smallest(&rt, rt.alloc(), &window()[..4]);
    check_smallest(&rt, rt.alloc(), &window());
    check_smallest(&rt, rt.alloc(), &turn());
}

// rule: CONC-9, EMB-38
#[test]
fn the_first_copy_is_forwarded(rt: HostRuntime) {
    check_smallest(&rt, rt.alloc(), &copy_at_skew_max());
    check_smallest(&rt, rt.alloc(), &copy_after_skew_max());
    check_smallest(&rt, rt.alloc(), &two_frames_late());
    check_smallest(&rt, rt.alloc(), &reset_after_255());
    check_smallest(&rt, rt.alloc(), &copy_before_its_first());
}

// rule: CONC-9
#[test]
fn a_frame_with_a_bad_header_counts_as_forwarded(rt: HostRuntime) {
    check_rows(&rt, rt.alloc(), &bad_and_good());
}

// rule: CONC-9
#[test]
fn fragments_are_joined_or_given_up(rt: HostRuntime) {
    check_packets(&rt, rt.alloc(), &in_order());
    check_packets(&rt, rt.alloc(), &last_first());
    check_packets(&rt, rt.alloc(), &first_twice());
    check_packets(&rt, rt.alloc(), &five_begin());
    check_packets(&rt, rt.alloc(), &joined_for_a_sampling_port());
}
