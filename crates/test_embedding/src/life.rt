//! The whole life of a receiver.
ghost use Rattle.std.specs.Prelude.{◌≡◌, IfOk};
ghost use Rattle.es_base.specs.Verdict.{verdict_kinds};
ghost use Rattle.es_base.specs.Tally.{IsKind};
ghost use Rattle.es_base.specs.declared.place.Net.TheVariants.{A, B};
ghost use Rattle.end_system.specs.System.{IsPassOf};

use crate::frames::{FRAMES, arrivals};
use crate::networks::{Ended, run_a, run_b};
use crate::partitions::{Seen, run_holder, run_reader, run_taker};
use end_system::{EndSystem, NetPass, NoGate, Opened, Settled};
use es_base::LinkNo;
use link_receiver::{Epoch, PortEnd};
use queuing_port::Taker;
use sampling_port::{Freshness, Reader};
use slot_core::READERS;
use std::alloc::Global;
use std::process::Abort;
use std::sync::Wait;
use std::sync::atomic::{AtomicBool, Ordering};
use std::thread::{Threads, join};
use vl_config::read_config;

/// One link with a port of each kind.
const CONFIGURATION: &str = r#"
[[link]]
vl = 17
skew_max_us = 1000
reassembly_us = 50000

[[link.port]]
name = "pos"
kind = "sampling"
address = "224.224.0.17"
udp = 5000
refresh_us = 20000

[[link.port]]
name = "nav"
kind = "queuing"
address = "224.224.0.17"
udp = 5002
depth = 64
"#;

// ---- the ends of the ports, for the partitions

/// Ends of the receiver's ports that the partitions have.
#[derive(Drop)]
struct Ends {
    first: Reader<READERS>,
    second: Reader<READERS>,
    nav: Taker,
}

/// The readers of a sampling port.
fn readers_of(rt: &impl Abort, end: Option<PortEnd>) -> [Reader<READERS>; READERS] {
    match end {
        Some(PortEnd::Sampling { readers, .. }) => readers,
        _ => panic!(rt; "a sampling port"),
    }
}

/// Two of the readers. The others go out of use, which costs nothing.
fn two_of(readers: [Reader<READERS>; READERS]) -> (Reader<READERS>, Reader<READERS>) {
    let [first, second, c, d, e, f, g, h] = readers;
    drop((c, d, e, f, g, h));
    (first, second)
}

/// The taker of a queuing port.
fn taker_of(rt: &impl Abort, end: Option<PortEnd>) -> Taker {
    match end {
        Some(PortEnd::Queuing { taker, .. }) => taker,
        _ => panic!(rt; "a queuing port"),
    }
}

/// Takes the ends of both ports out, by their names.
fn ends_of(rt: &impl Abort, opened: &mut Opened<NoGate>) -> Ends
    requires { IsPassOf opened.old.system opened.old.a × IsPassOf opened.old.system opened.old.b × (opened.old.a.net ≡ A) × (opened.old.b.net ≡ B) }
    ensures { IsPassOf opened.new.system opened.new.a × IsPassOf opened.new.system opened.new.b × (opened.new.a.net ≡ A) × (opened.new.b.net ≡ B) }
{
    let (first, second) = two_of(readers_of(rt, opened.take_end("pos")));
    let nav = taker_of(rt, opened.take_end("nav"));
    Ends { first, second, nav }
}

// ---- the threads

/// Results of both networks' and all partitions' threads.
#[derive(Drop)]
struct Ran {
    a: Ended,
    b: Ended,
    read: Option<Seen>,
    held: Option<Seen>,
    taken: u64,
}

/// Both networks, each on a thread of its own, to their end.
fn run_networks<R: Abort + Threads + Wait + Sync>(
    rt: &R,
    alloc: Global,
    system: &EndSystem<NoGate>,
    a: NetPass,
    b: NetPass,
) -> (Ended, Ended)
    requires own { IsPassOf system.now a × IsPassOf system.now b }
    requires nets { (a.net ≡ A) × (b.net ≡ B) }
    ensures own { IsPassOf system.now result.0.pass × IsPassOf system.now result.1.pass }
    ensures nets { (result.0.pass.net ≡ A) × (result.1.pass.net ≡ B) }
{
    let frames_a = arrivals(rt, alloc, 0);
    let frames_b = arrivals(rt, alloc, 200);
    let (a, b) = join(
        rt,
        move ||
            requires { IsPassOf system.now a × (a.net ≡ A) }
            ensures { IfOk result (λ ended. IsPassOf system.entry.now ended.pass × (ended.pass.net ≡ A)) }
        { run_a(rt, alloc, system, a, &frames_a) },
        move ||
            requires { IsPassOf system.now b × (b.net ≡ B) }
            ensures { IfOk result (λ ended. IsPassOf system.entry.now ended.pass × (ended.pass.net ≡ B)) }
        { run_b(rt, alloc, system, b, frames_b) },
    );
    (a.expect(rt, "memory"), b.expect(rt, "memory"))
}

/// All partitions, each on a thread of its own, to their end.
fn run_partitions<R: Threads + Wait + Sync>(
    rt: &R,
    ends: Ends,
    ended: &AtomicBool,
) -> (Option<Seen>, Option<Seen>, u64) {
    let Ends { first, second, nav } = ends;
    let ((read, held), taken) = join(
        rt,
        move || {
            join(
                rt,
                move || run_reader(first, ended),
                move || run_holder(second, ended),
            )
        },
        move || run_taker(rt, nav, ended),
    );
    (read, held, taken)
}

/// The receiver and the partitions side by side. The partitions are told once both networks have ended.
fn run<R: Abort + Threads + Wait + Sync>(
    rt: &R,
    alloc: Global,
    system: &EndSystem<NoGate>,
    a: NetPass,
    b: NetPass,
    ends: Ends,
) -> Ran
    requires own { IsPassOf system.now a × IsPassOf system.now b }
    requires nets { (a.net ≡ A) × (b.net ≡ B) }
    ensures own { IsPassOf system.now result.a.pass × IsPassOf system.now result.b.pass }
    ensures nets { (result.a.pass.net ≡ A) × (result.b.pass.net ≡ B) }
{
    let ended = AtomicBool::new(false);
    let told = &ended;
    let ((a, b), (read, held, taken)) = join(
        rt,
        move ||
            requires { IsPassOf system.now a × IsPassOf system.now b × (a.net ≡ A) × (b.net ≡ B) }
            ensures own { IsPassOf system.entry.now result.0.pass × IsPassOf system.entry.now result.1.pass }
            ensures nets { (result.0.pass.net ≡ A) × (result.1.pass.net ≡ B) }
        {
            let networks = run_networks(rt, alloc, system, a, b);
            told.store(true, Ordering::SeqCst);
            networks
        },
        move || run_partitions(rt, ends, told),
    );
    Ran {
        a,
        b,
        read,
        held,
        taken,
    }
}

// ---- counts

/// The kind of a verdict that the counts tell apart.
const REDUNDANT: usize = 2;

const SAMPLED: usize = 10;

const QUEUED: usize = 11;

/// Number of frames of link 17 that had a verdict of this kind, on both networks.
fn count(settled: &Settled, kind: usize) -> u64
    requires { IsKind verdict_kinds kind }
{
    let (a, b) = (&settled.a, &settled.b);
    a.count(LinkNo(17), kind)
        .saturating_add(b.count(LinkNo(17), kind))
}

/// Each frame was forwarded once, and its copy was redundant, whichever came first.
fn check_counts(rt: &impl Abort, settled: &Settled) {
    let frames = u64::from(FRAMES);
    assert_eq!(rt; settled.a.calls(LinkNo(17)), frames);
    assert_eq!(rt; settled.b.calls(LinkNo(17)), frames);
    assert_eq!(rt; count(settled, SAMPLED), frames / 2);
    assert_eq!(rt; count(settled, QUEUED), frames / 2);
    assert_eq!(rt; count(settled, REDUNDANT), frames);
}

/// The epochs follow one another from the first event on, and the link's history follows them.
fn check_epochs(rt: &impl Abort, epochs: &[Epoch], settled: &Settled) {
    let mut place = 0u64;
    for epoch in epochs {
        assert_eq!(rt; epoch.first(), place);
        place = place.saturating_add(epoch.events().len() as u64);
    }
    for link in &settled.links {
        assert_eq!(rt; link.taken(), place);
        let events = place.saturating_add(link.history().len() as u64);
        assert_eq!(rt; events, 2 * u64::from(FRAMES));
    }
}

/// A partition saw the last message of `pos` last.
fn check_seen(rt: &impl Abort, seen: Option<Seen>) {
    let last = Seen {
        number: u64::from(FRAMES) / 2,
        len: 17,
        first: 0x0102_0304_0506_0708,
        freshness: Freshness::Fresh,
    };
    assert_eq!(rt; seen, Some(last));
}

/// The receiver ends. Its links and its counts are looked at.
fn check_ended(rt: &impl Abort, system: EndSystem<NoGate>, a: Ended, b: Ended)
    requires own { IsPassOf system a.pass × IsPassOf system b.pass }
    requires nets { (a.pass.net ≡ A) × (b.pass.net ≡ B) }
{
    let frames = u64::from(FRAMES);
    assert_eq!(rt; (a.taken, b.taken), (frames, frames));
    let settled = system.settle(a.pass, b.pass);
    check_counts(rt, &settled);
    check_epochs(rt, &a.epochs, &settled);
}

fn check_life<R: Abort + Threads + Wait + Sync>(rt: &R, alloc: Global) {
    let config = read_config(alloc, CONFIGURATION).expect(rt, "a configuration");
    let mut opened = EndSystem::open(alloc, &config, NoGate).expect(rt, "memory");
    let ends = ends_of(rt, &mut opened);
    let Opened { system, a, b, .. } = opened;
    let ran = run(rt, alloc, &system, a, b, ends);
    check_seen(rt, ran.read);
    check_seen(rt, ran.held);
    assert_eq!(rt; ran.taken, u64::from(FRAMES) / 2);
    check_ended(rt, system, ran.a, ran.b);
}

// rule: EMB-34, EMB-35, EMB-38
#[test]
fn a_receiver_lives_from_its_configuration_to_its_counts(rt: HostRuntime) {
    check_life(&rt, rt.alloc());
}
