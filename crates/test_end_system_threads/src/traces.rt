//! Frames by chance, given by two threads, with epochs between them.
ghost use Rattle.std.specs.Prelude.{◌≡◌};
ghost use Rattle.es_base.specs.declared.place.Net.TheVariants.{A, B};
ghost use Rattle.end_system.specs.System.{IsPassOf};

use crate::calls::Calls;
use crate::replays::check_link;
use end_system::{EndSystem, Gate, NetPass, NoGate, Opened, PassCounts, Settled};
use es_base::FilterCause::UnknownLink;
use es_base::{Config, LinkNo};
use std::alloc::Global;
use std::process::Abort;
use std::sync::Wait;
use std::thread::{Threads, join};
use test_inputs::SECOND_LINK;
use test_inputs::rows::frame_of_17;
use test_inputs_end_system::{BUILT_IN, Running, config_of, sampling_links, smallest_for};

/// Number of frames that each network gives.
const MANY: u64 = 200;

/// Most links of a trace.
const MOST: usize = 8;

/// Plan of two threads.
#[derive(Clone, Copy)]
struct Plan<'a> {
    /// The link numbers.
    links: &'a [u16],
    /// The seed of the first thread; that of the second is 1 more, which gives other frames.
    seed: u64,
    /// Whether the first thread takes epochs out between its frames.
    takes_epochs: bool,
}

/// Source of frames that look random, and are the same for the same seed.
#[derive(Drop)]
struct Source<'a> {
    links: &'a [u16],
    state: u64,
    /// The last sequence number for each link.
    numbers: [u8; MOST],
}

impl<'a> Source<'a> {
    fn new(links: &'a [u16], seed: u64) -> Source<'a> {
        Source {
            links,
            state: seed,
            numbers: [0; MOST],
        }
    }

    /// The next number by chance, below `bound`, which is at least 1.
    fn draw(&mut self, bound: usize) -> usize {
        let product = self.state.wrapping_mul(6_364_136_223_846_793_005);
        self.state = product.wrapping_add(1_442_695_040_888_963_407);
        ((self.state >> 48) as usize) % bound.max(1)
    }

    /// The place of a link by chance.
    fn draw_place(&mut self) -> usize {
        self.draw(self.links.len())
    }

    /// The next sequence number for the link at this place: often the next one, else 0 to 3 more.
    fn next_number(&mut self, place: usize) -> u8 {
        let draw = self.draw(8);
        let step = if draw < 5 { 1 } else { (draw % 4) as u8 };
        match self.numbers.get_mut(place) {
            Some(number) => {
                *number = number.wrapping_add(step);
                *number
            }
            None => 0,
        }
    }

    /// The next frame: a smallest one for a link's first port, a fragment or one for `nav` of link 17, and one in
    /// ten that comes to no link. None if memory runs out.
    fn frame(&mut self, alloc: Global) -> Option<Vec<u8>> {
        let place = self.draw_place();
        let number = self.next_number(place);
        let draw = self.draw(10);
        match self.links.get(place) {
            Some(17) if draw < 5 => frame_of_17(alloc, draw, number),
            Some(vl) if draw < 9 => smallest_for(alloc, *vl, number),
            _ => smallest_for(alloc, 40_000, number),
        }
    }
}

/// One frame comes, and now and then an epoch of a link is taken out.
fn give<R: Abort + Wait, G: Gate>(
    rt: &R,
    alloc: Global,
    system: &EndSystem<G>,
    pass: &mut NetPass,
    source: &mut Source<'_>,
    calls: &mut Calls,
    time: u64,
)
    requires { IsPassOf system.now pass.old }
    ensures own { IsPassOf system.now pass.new }
    ensures net { pass.new.net ≡ pass.old.net }
{
    let frame = source.frame(alloc).expect(rt, "octets");
    calls.receive(rt, alloc, system, pass, time, frame);
}

/// An epoch of a link by chance is taken out.
fn take_epoch<R: Abort + Wait, G: Gate>(
    rt: &R,
    alloc: Global,
    system: &EndSystem<G>,
    pass: &mut NetPass,
    source: &mut Source<'_>,
    calls: &mut Calls,
)
    requires { IsPassOf system.now pass.old }
    ensures own { IsPassOf system.now pass.new }
    ensures net { pass.new.net ≡ pass.old.net }
{
    let place = source.draw_place();
    if let Some(vl) = source.links.get(place) {
        calls.take_epoch(rt, alloc, system, pass, LinkNo(*vl));
    }
}

/// Frames by chance come to these links, one each 100 microseconds, and each fifth is followed by an epoch if
/// `takes_epochs`.
fn follow<R: Abort + Wait, G: Gate>(
    rt: &R,
    alloc: Global,
    system: &EndSystem<G>,
    mut pass: NetPass,
    links: &[u16],
    seed: u64,
    takes_epochs: bool,
) -> (NetPass, Calls)
    requires { IsPassOf system.now pass }
    ensures { IsPassOf system.now result.0 × (result.0.net ≡ pass.net) }
{
    let mut source = Source::new(links, seed);
    let mut calls = Calls::new(alloc);
    for place in 0..MANY {
        give(
            rt,
            alloc,
            system,
            &mut pass,
            &mut source,
            &mut calls,
            place * 100,
        );
        if takes_epochs && place % 5 == 0 {
            take_epoch(rt, alloc, system, &mut pass, &mut source, &mut calls);
        }
    }
    (pass, calls)
}

/// Two threads follow a plan, each with a seed of its own. Returns the system when it has ended, and the calls of both.
fn followed<R: Abort + Threads + Wait + Sync>(
    rt: &R,
    alloc: Global,
    running: Running<NoGate>,
    plan: Plan<'_>,
) -> (Settled, Calls, Calls) {
    let Opened {
        system,
        a,
        b,
        ends: _,
    } = running.apart();
    let shared = &system;
    let Plan {
        links,
        seed,
        takes_epochs,
    } = plan;
    let ((a, first), (b, second)) = join(
        rt,
        move ||
            requires { IsPassOf shared.now a × (a.net ≡ A) }
            ensures { IsPassOf shared.entry.now result.0 × (result.0.net ≡ A) }
        { follow(rt, alloc, shared, a, links, seed, takes_epochs) },
        move ||
            requires { IsPassOf shared.now b × (b.net ≡ B) }
            ensures { IsPassOf shared.entry.now result.0 × (result.0.net ≡ B) }
        { follow(rt, alloc, shared, b, links, seed.wrapping_add(1), false) },
    );
    (system.settle(a, b), first, second)
}

/// The pass counted as many calls on these links as were made, and all other frames as filtered.
fn check_counts(rt: &impl Abort, counts: &PassCounts, calls: &Calls, links: &[u16]) {
    let mut count = 0_u64;
    for vl in links {
        count = count.wrapping_add(counts.calls(LinkNo(*vl)));
    }
    assert!(rt; count == calls.calls.len() as u64, "{count}");
    assert!(rt;
        counts.filtered(UnknownLink) == calls.filtered,
        "{}",
        calls.filtered
    );
    assert!(rt; count.wrapping_add(calls.filtered) == MANY);
}

/// Two threads follow a plan: what came to each link is what would have come to it on one thread.
fn check_plan<R: Abort + Threads + Wait + Sync>(
    rt: &R,
    alloc: Global,
    config: &Config,
    plan: Plan<'_>,
) {
    let running = Running::open(alloc, config, NoGate).expect(rt, "memory");
    let (settled, first, second) = followed(rt, alloc, running, plan);
    check_counts(rt, &settled.a, &first, plan.links);
    check_counts(rt, &settled.b, &second, plan.links);
    for link in &settled.links {
        check_link(rt, alloc, link, &first, &second);
    }
}

/// Five traces.
fn check_seeds<R: Abort + Threads + Wait + Sync>(
    rt: &R,
    alloc: Global,
    config: &Config,
    links: &[u16],
    takes_epochs: bool,
) {
    for seed in 1..6 {
        let plan = Plan {
            links,
            seed: seed * 1000,
            takes_epochs,
        };
        check_plan(rt, alloc, config, plan);
    }
}

fn check_few<R: Abort + Threads + Wait + Sync>(rt: &R, alloc: Global, takes_epochs: bool) {
    let config = config_of(alloc, &[BUILT_IN, SECOND_LINK]).expect(rt, "a configuration");
    check_seeds(rt, alloc, &config, &[17, 18], takes_epochs);
}

fn check_many<R: Abort + Threads + Wait + Sync>(rt: &R, alloc: Global, takes_epochs: bool) {
    let links = [17, 18, 19, 33, 273, 1, 4000, 34];
    let config = sampling_links(alloc, &links).expect(rt, "a configuration");
    check_seeds(rt, alloc, &config, &links, takes_epochs);
}

// rule: CONC-9
#[test]
fn the_history_of_a_link_is_a_run_on_one_thread(rt: HostRuntime) {
    check_few(&rt, rt.alloc(), false);
    check_many(&rt, rt.alloc(), false);
}

// rule: CONC-9, CONC-10, EMB-35
#[test]
fn epochs_that_are_taken_out_on_the_way_and_the_history_are_one_run(rt: HostRuntime) {
    check_few(&rt, rt.alloc(), true);
    check_many(&rt, rt.alloc(), true);
}
