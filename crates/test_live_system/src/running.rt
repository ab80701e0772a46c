//! A system of the built-in configuration, with both of its passes.
use es_base::{Config, LinkNo, VERDICT_KINDS, Verdict};
use live_system::{PassCounts, Reply};
use std::alloc::Global;
use std::process::Abort;
use std::sync::Wait;
use test_inputs::rows::FrameRow;
use test_inputs::{ETHERNET, frame_of};
use test_inputs_live_system::Live;
use vl_config::{BUILT_IN, read_config};

/// The link of the built-in configuration.
pub(crate) const LINK_17: LinkNo = LinkNo(17);

/// The built-in configuration.
pub(crate) fn built_in(rt: &impl Abort, alloc: Global) -> Config {
    read_config(alloc, BUILT_IN)
        .ok()
        .expect(rt, "a configuration")
}

/// A new system of it.
pub(crate) fn open(rt: &impl Abort, alloc: Global) -> Live {
    let config = built_in(rt, alloc);
    Live::open(alloc, &config).expect(rt, "memory")
}

/// The octets of the frame of a row.
pub(crate) fn octets_of(rt: &impl Abort, alloc: Global, row: FrameRow<'_>) -> Vec<u8> {
    let (_, _, sequence_number, ip, udp, payload, _) = row;
    let texts = [ETHERNET, ip, udp, payload];
    frame_of(alloc, &texts, sequence_number).expect(rt, "octets")
}

/// The system receives a frame of link 17, whose event has this place, with its verdict.
pub(crate) fn check_frame(
    rt: &(impl Abort + Wait),
    alloc: Global,
    running: &mut Live,
    place: u64,
    row: FrameRow<'_>,
) {
    let (net, time, _, _, _, _, verdict) = row;
    let frame = octets_of(rt, alloc, row);
    let reply = running.receive(rt, net, time, &frame);
    let wanted = Reply::Link {
        at: 0,
        vl: LINK_17,
        place,
        verdict,
    };
    assert!(rt; reply == wanted, "{place}: {reply:?}");
}

/// So many frames of link 17 had a verdict of the kind of this one, and so many other ones.
pub(crate) fn check_counts(
    rt: &impl Abort,
    counts: &PassCounts,
    of: Verdict,
    wanted: u64,
    others: u64,
) {
    let kind = of.kind();
    let mut rest = 0u64;
    for number in 1..=VERDICT_KINDS {
        if number != kind {
            rest = rest.wrapping_add(counts.count(LINK_17, number));
        }
    }
    assert!(rt;
        counts.count(LINK_17, kind) == wanted && rest == others,
        "{rest}"
    );
    assert!(rt; counts.calls(LINK_17) == wanted.wrapping_add(others));
}
