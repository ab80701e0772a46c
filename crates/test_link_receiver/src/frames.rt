//! Frames given to the receiver of a link, each with its verdict.
ghost use Rattle.std.specs.Prelude.{◌≡◌};
ghost use Rattle.std.specs.List.{All};
ghost use Rattle.link_receiver.specs.Ends.{IsOfItsPort};

use es_base::{Decision, LinkSettings, Net, Verdict};
use frame_reader::read_frame;
use link_receiver::{LinkState, PortEnd};
use std::alloc::Global;
use std::process::Abort;
use std::sync::Wait;
use test_inputs::rows::{FrameRow, SmallestRow, smallest_row};
use test_inputs::{CONSTANT, ETHERNET, IP, LINK, Link, PAYLOAD, frame_of};

/// A new receiver with these settings, and the ends of its ports.
pub(crate) fn opened_with(
    rt: &impl Abort,
    alloc: Global,
    settings: &LinkSettings,
) -> (LinkState, Vec<PortEnd>)
    ensures { All (IsOfItsPort result.0.channels) result.1.items }
{
    LinkState::new(alloc, settings).expect(rt, "memory")
}

/// A new receiver of this link, and the ends of its ports.
pub(crate) fn opened(rt: &impl Abort, alloc: Global, link: Link) -> (LinkState, Vec<PortEnd>)
    ensures { All (IsOfItsPort result.0.channels) result.1.items }
{
    let settings = link.settings(alloc).expect(rt, "settings");
    opened_with(rt, alloc, &settings)
}

/// The verdict of a frame of this link that came at `now` microseconds.
pub(crate) fn receive(
    rt: &(impl Abort + Wait),
    alloc: Global,
    state: &mut LinkState,
    net: Net,
    now: u64,
    octets: &[u8],
) -> Verdict
    ensures { state.new.channels ≡ state.old.channels }
{
    let frame = read_frame(CONSTANT, octets).expect(rt, "a frame");
    assert!(rt; frame.vl == state.settings().vl());
    state.take(rt, alloc, net, now, &frame).expect(rt, "memory")
}

/// Decision on a first frame of link 17, with a UDP header for one of its ports.
pub(crate) fn decision_of(rt: &impl Abort, alloc: Global, udp: &str) -> Decision {
    let (state, _) = opened(rt, alloc, LINK);
    let texts = [ETHERNET, IP, udp, PAYLOAD];
    let octets = frame_of(alloc, &texts, 1).expect(rt, "octets");
    let frame = read_frame(CONSTANT, &octets).expect(rt, "a frame");
    state.decide(Net::A, 1000, &frame)
}

/// The receiver gives this frame this verdict.
pub(crate) fn check_frame(
    rt: &(impl Abort + Wait),
    alloc: Global,
    state: &mut LinkState,
    row: FrameRow<'_>,
)
    ensures { state.new.channels ≡ state.old.channels }
{
    let (net, now, sequence_number, ip, udp, payload, verdict) = row;
    let texts = [ETHERNET, ip, udp, payload];
    let frame = frame_of(alloc, &texts, sequence_number).expect(rt, "octets");
    let answer = receive(rt, alloc, state, net, now, &frame);
    assert!(rt; answer == verdict, "{sequence_number} at {now}: {answer:?}");
}

/// The receiver gives these frames these verdicts.
pub(crate) fn check_frames(
    rt: &(impl Abort + Wait),
    alloc: Global,
    state: &mut LinkState,
    rows: &[FrameRow<'_>],
) {
    for row in rows {
        check_frame(rt, alloc, state, *row);
    }
}

/// A new receiver of this link gives these frames these verdicts.
pub(crate) fn check_rows(
    rt: &(impl Abort + Wait),
    alloc: Global,
    link: Link,
    rows: &[FrameRow<'_>],
) {
    let (mut state, _) = opened(rt, alloc, link);
    check_frames(rt, alloc, &mut state, rows);
}

/// The receiver gives this smallest frame this verdict.
pub(crate) fn check_step(
    rt: &(impl Abort + Wait),
    alloc: Global,
    state: &mut LinkState,
    step: SmallestRow,
) {
    check_frame(rt, alloc, state, smallest_row(step));
}

/// A new receiver of this link gives smallest frames these verdicts.
pub(crate) fn check_steps_of(
    rt: &(impl Abort + Wait),
    alloc: Global,
    link: Link,
    steps: &[SmallestRow],
) {
    let (mut state, _) = opened(rt, alloc, link);
    for step in steps {
        check_step(rt, alloc, &mut state, *step);
    }
}

/// A new receiver of the built-in configuration's link gives smallest frames these verdicts.
pub(crate) fn check_steps(rt: &(impl Abort + Wait), alloc: Global, steps: &[SmallestRow]) {
    check_steps_of(rt, alloc, LINK, steps);
}
