//! How full a queue is, and what became of a port's messages, told by the passes of both networks.
ghost use Rattle.std.specs.Prelude.{◌≡◌};
ghost use Rattle.live_system.specs.System.{IsPassOf};

use crate::running::octets_of;
use es_base::{Net, PortNo};
use live_system::{Fill, LiveSystem, NetPass, Newest, Opened, PortCounts, ReaderCount};
use std::alloc::Global;
use std::process::Abort;
use std::sync::Wait;
use test_inputs::rows::{FOR_NAV, FrameRow, NAV, NAV_UDP, POS};
use test_inputs::{IP, PAYLOAD, SECOND_LINK};
use vl_config::{BUILT_IN, read_config};

/// The built-in configuration with link 18, which has no queue, in one group.
fn opened(rt: &impl Abort, alloc: Global) -> Opened
    ensures { IsPassOf result.system result.a × IsPassOf result.system result.b }
{
    let mut text = String::new(alloc);
    text.push_str(BUILT_IN).expect(rt, "memory");
    text.push_str(SECOND_LINK).expect(rt, "memory");
    let config = read_config(alloc, text.as_str())
        .ok()
        .expect(rt, "a configuration");
    LiveSystem::open_in_groups(alloc, &config, ReaderCount::most(), 1).expect(rt, "memory")
}

/// The fill level of a port's queue, of a link that there is.
pub(crate) fn fill(
    rt: &impl Abort,
    system: &LiveSystem,
    pass: &mut NetPass,
    place: usize,
    port: PortNo,
) -> Option<Option<Fill>>
    requires { IsPassOf system.now pass.old }
    ensures { pass.new ≡ pass.old }
{
    assert!(rt; place < system.config().links().len());
    system.try_fill(pass, place, port)
}

/// So many messages wait in the queue of `nav`, and waited at most. A port that samples has none, nor one that isn't
/// there.
fn check_told(
    rt: &impl Abort,
    system: &LiveSystem,
    pass: &mut NetPass,
    waiting: usize,
    greatest: usize,
)
    requires { IsPassOf system.now pass.old }
    ensures { pass.new ≡ pass.old }
{
    assert!(rt; fill(rt, system, pass, 0, NAV) == Some(Some(Fill { waiting, greatest })));
    assert!(rt; fill(rt, system, pass, 0, POS) == Some(None));
    assert!(rt; fill(rt, system, pass, 0, PortNo(2)) == Some(None));
    assert!(rt; fill(rt, system, pass, 1, NAV) == Some(None));
}

/// What became of the messages for a port, of a link that there is.
fn counts(
    rt: &impl Abort,
    system: &LiveSystem,
    pass: &mut NetPass,
    place: usize,
    port: PortNo,
) -> Option<Option<PortCounts>>
    requires { IsPassOf system.now pass.old }
    ensures { pass.new ≡ pass.old }
{
    assert!(rt; place < system.config().links().len());
    system.try_port_counts(pass, place, port)
}

/// So many messages were delivered to `nav`, the last of them on A at this time in microseconds, and so many overflowed.
fn check_counts(
    rt: &impl Abort,
    system: &LiveSystem,
    pass: &mut NetPass,
    delivered: u64,
    overflowed: u64,
    time: u64,
)
    requires { IsPassOf system.now pass.old }
    ensures { pass.new ≡ pass.old }
{
    let net = Net::A;
    let wanted = PortCounts {
        delivered,
        overflowed,
        too_long: 0,
        fragmented: 0,
        newest: Some(Newest { time, net }),
    };
    assert!(rt; counts(rt, system, pass, 0, NAV) == Some(Some(wanted)));
    assert!(rt; counts(rt, system, pass, 0, PortNo(2)) == Some(None));
    assert!(rt; counts(rt, system, pass, 1, NAV) == Some(None));
}

/// A message for `nav` comes with this sequence number, at as many milliseconds.
fn bring<R: Abort + Wait>(
    rt: &R,
    alloc: Global,
    system: &LiveSystem,
    pass: &mut NetPass,
    number: u8,
)
    requires { IsPassOf system.now pass.old }
    ensures { IsPassOf system.now pass.new }
{
    let time = u64::from(number) * 1000;
    let row: FrameRow<'static> = (Net::A, time, number, IP, NAV_UDP, PAYLOAD, FOR_NAV);
    let octets = octets_of(rt, alloc, row);
    let _reply = system.receive(rt, pass, time, octets.as_slice());
}

/// Two messages come, one is taken, and a third one comes.
fn check_fills<R: Abort + Wait>(rt: &R, alloc: Global) {
    let mut out = [0; 8192];
    let mut opened = opened(rt, alloc);
    let mut taker = opened.take_taker("nav").expect(rt, "a taker");
    let Opened {
        system,
        mut a,
        mut b,
        ..
    } = opened;
    check_told(rt, &system, &mut b, 0, 0);
    bring(rt, alloc, &system, &mut a, 1);
    bring(rt, alloc, &system, &mut a, 2);
    check_told(rt, &system, &mut a, 2, 2);
    assert!(rt; taker.max() <= out.len());
    assert!(rt; taker.take(&mut out).is_some());
    check_told(rt, &system, &mut b, 1, 2);
    bring(rt, alloc, &system, &mut a, 3);
    check_told(rt, &system, &mut a, 2, 2);
}

/// Five messages come, and the last one overflows.
fn check_counted<R: Abort + Wait>(rt: &R, alloc: Global) {
    let Opened {
        system,
        mut a,
        mut b,
        ..
    } = opened(rt, alloc);
    bring(rt, alloc, &system, &mut a, 1);
    bring(rt, alloc, &system, &mut a, 2);
    bring(rt, alloc, &system, &mut a, 3);
    bring(rt, alloc, &system, &mut a, 4);
    check_counts(rt, &system, &mut b, 4, 0, 4000);
    bring(rt, alloc, &system, &mut a, 5);
    check_counts(rt, &system, &mut a, 4, 1, 4000);
}

// rule: EMB-46
#[test]
fn each_pass_tells_what_became_of_the_messages_for_a_port(rt: HostRuntime) {
    check_counted(&rt, rt.alloc());
}

// rule: EMB-43
#[test]
fn each_pass_tells_how_full_a_queue_is(rt: HostRuntime) {
    check_fills(&rt, rt.alloc());
}
