//! A whole system: the frames that its pass of network A receives, and the epochs that it takes out.
use crate::cases::{Case, Row, given_up, joined, joined_backwards, overflowed, refused, sampled};
use crate::pieces::{DATAGRAMS, check_messages, four_stand};
use crate::refusal::{OWN, tell};
use end_system::{NoGate, Reply};
use es_base::Net::A;
use es_base::{LinkNo, Octets, VERDICT_KINDS};
use link_receiver::{EpochFault, PortEnd};
use queuing_port::Taker;
use sampling_port::{MOST_TRIES, Read, Reader};
use slot_core::READERS;
use std::alloc::Global;
use std::process::Abort;
use std::sync::Wait;
use test_inputs_end_system::Running;

/// The link of the built-in configuration.
const VL: LinkNo = LinkNo(17);

/// A system, and the ends of its ports.
#[derive(Drop)]
struct System {
    running: Running<NoGate>,
    reader: Reader<READERS>,
    taker: Taker,
}

/// Visible state of a system.
#[derive(Drop)]
struct Seen {
    calls: u64,
    counts: [u64; VERDICT_KINDS],
    newest: Read,
}

fn reader_of(rt: &impl Abort, end: PortEnd) -> Reader<READERS> {
    match end {
        PortEnd::Sampling { readers, .. } => readers.into_iter().next().expect(rt, "a reader"),
        PortEnd::Queuing { .. } => panic!(rt; "a sampling port"),
    }
}

fn taker_of(rt: &impl Abort, end: PortEnd) -> Taker {
    match end {
        PortEnd::Queuing { taker, .. } => taker,
        PortEnd::Sampling { .. } => panic!(rt; "a queuing port"),
    }
}

fn running_of(rt: &(impl Abort + Eprint), alloc: Global, case: &Case) -> Running<NoGate> {
    match Running::open(alloc, &case.config, NoGate) {
        Ok(running) => running,
        Err(_) => {
            tell(rt, "EndSystem::open");
            Running::open(alloc, &case.config, NoGate).expect(rt, "memory")
        }
    }
}

impl System {
    fn open(rt: &(impl Abort + Eprint), alloc: Global, case: &Case) -> System {
        let mut running = running_of(rt, alloc, case);
        let reader = reader_of(rt, running.take_end("pos").expect(rt, "an end"));
        let taker = taker_of(rt, running.take_end("nav").expect(rt, "an end"));
        System {
            running,
            reader,
            taker,
        }
    }

    fn seen(&mut self) -> Seen {
        let pass = self.running.pass(A);
        let mut counts = [0; VERDICT_KINDS];
        for (place, count) in counts.iter_mut().enumerate() {
            *count = pass.count(VL, place.wrapping_add(1));
        }
        Seen {
            calls: pass.calls(VL),
            counts,
            newest: self.reader.read(MOST_TRIES, &mut [0; 1471]),
        }
    }

    /// The pass and the newest message are as they were.
    fn check_same(&mut self, rt: &impl Abort, before: &Seen) {
        let now = self.seen();
        assert!(rt; now.calls == before.calls && now.counts == before.counts);
        assert!(rt; now.newest == before.newest);
    }

    /// The reply is that to the next frame of this row.
    fn check_reply(&mut self, rt: &impl Abort, reply: Reply, row: &Row, before: &Seen) {
        let wanted = Reply::Link {
            vl: VL,
            place: before.calls,
            verdict: row.verdict,
        };
        assert!(rt; reply == wanted, "{reply:?}");
        assert!(rt; self.running.pass(A).calls(VL) == before.calls.wrapping_add(1));
    }

    /// The system receives a frame.
    fn check_received(&mut self, rt: &(impl Abort + Eprint + Wait), alloc: Global, row: &Row) {
        let before = self.seen();
        let reply = match self.running.receive(rt, alloc, A, row.time, &row.octets) {
            Ok(reply) => reply,
            Err(_) => {
                tell(rt, "EndSystem::receive");
                self.check_same(rt, &before);
                let again = self.running.receive(rt, alloc, A, row.time, &row.octets);
                again.expect(rt, "memory")
            }
        };
        self.check_reply(rt, reply, row, &before);
    }

    /// The system receives a frame and keeps its octets. If memory runs out they are handed back.
    fn check_kept(&mut self, rt: &(impl Abort + Eprint + Wait), alloc: Global, row: &Row) {
        let before = self.seen();
        let octets = Octets::copy_of(alloc, &row.octets).expect(rt, OWN);
        let running = &mut self.running;
        let reply = match running.receive_arrival(rt, alloc, A, row.time, octets) {
            Ok(reply) => reply,
            Err(back) => {
                tell(rt, "EndSystem::receive_arrival");
                assert!(rt; back.as_slice() == row.octets.as_slice());
                self.check_same(rt, &before);
                let again = self.running.receive_arrival(rt, alloc, A, row.time, back);
                again.expect(rt, "memory")
            }
        };
        self.check_reply(rt, reply, row, &before);
    }

    /// An epoch of this many events, of which the first has this place, is taken out.
    fn check_epoch(
        &mut self,
        rt: &(impl Abort + Eprint + Wait),
        alloc: Global,
        first: u64,
        events: usize,
    ) {
        let before = self.seen();
        let epoch = match self.running.take_epoch(rt, alloc, A, VL) {
            Ok(epoch) => epoch,
            Err(fault) => {
                tell(rt, "EndSystem::take_epoch");
                assert!(rt; fault == EpochFault::Memory);
                self.check_same(rt, &before);
                let again = self.running.take_epoch(rt, alloc, A, VL);
                again.expect(rt, "memory")
            }
        };
        let epoch = epoch.expect(rt, "an epoch");
        assert!(rt; epoch.first() == first && epoch.events().len() == events);
    }

    /// The system settles with this many events after as many that were taken out. The messages of these times wait in
    /// the queue, and no other.
    fn check_end(self, rt: &(impl Abort + Wait), (taken, events): (u64, usize), times: &[u64]) {
        let System {
            running,
            mut taker,
            ..
        } = self;
        for link in &running.settle().links {
            assert!(rt; link.taken() == taken && link.history().len() == events);
        }
        for time in times {
            let message = taker.take(rt).expect(rt, "a message");
            assert!(rt; message.time == *time, "{}", message.time);
        }
        assert!(rt; taker.take(rt).is_none());
    }
}

fn check_copies(rt: &(impl Abort + Eprint + Wait), alloc: Global, case: &Case) {
    let mut system = System::open(rt, alloc, case);
    for row in &case.rows {
        system.check_received(rt, alloc, row);
    }
    system.check_end(rt, (0, case.rows.len()), &case.queued);
}

// rule: CONC-14, EMB-39
#[test]
fn a_system_receives_a_sample(rt: HostRuntime) {
    check_copies(&rt, rt.alloc(), &sampled(&rt, rt.alloc()));
}

// rule: CONC-14, EMB-39
#[test]
fn a_system_joins_a_datagram(rt: HostRuntime) {
    check_copies(&rt, rt.alloc(), &joined(&rt, rt.alloc()));
    check_copies(&rt, rt.alloc(), &joined_backwards(&rt, rt.alloc()));
}

// rule: CONC-14, EMB-39
#[test]
fn a_system_gives_a_datagram_up(rt: HostRuntime) {
    check_copies(&rt, rt.alloc(), &given_up(&rt, rt.alloc()));
    check_copies(&rt, rt.alloc(), &refused(&rt, rt.alloc()));
}

// rule: CONC-14, EMB-39
#[test]
fn a_system_has_a_full_queue(rt: HostRuntime) {
    check_copies(&rt, rt.alloc(), &overflowed(&rt, rt.alloc()));
}

fn check_arrivals(rt: &(impl Abort + Eprint + Wait), alloc: Global, case: &Case) {
    let mut system = System::open(rt, alloc, case);
    for row in &case.rows {
        system.check_kept(rt, alloc, row);
    }
    system.check_end(rt, (0, case.rows.len()), &case.queued);
}

// rule: CONC-14, EMB-39
#[test]
fn a_system_keeps_octets(rt: HostRuntime) {
    check_arrivals(&rt, rt.alloc(), &joined(&rt, rt.alloc()));
}

/// Each event is taken out before the next frame comes.
fn check_epochs(rt: &(impl Abort + Eprint + Wait), alloc: Global, case: &Case) {
    let mut system = System::open(rt, alloc, case);
    let mut place = 0_u64;
    for row in &case.rows {
        system.check_received(rt, alloc, row);
        system.check_epoch(rt, alloc, place, 1);
        place = place.wrapping_add(1);
    }
    system.check_end(rt, (place, 0), &case.queued);
}

// rule: CONC-14, EMB-39
#[test]
fn a_system_hands_epochs_out(rt: HostRuntime) {
    check_epochs(&rt, rt.alloc(), &joined(&rt, rt.alloc()));
}

/// An epoch is taken out while four partial datagrams stand, which are completed after it.
fn check_four_stand(rt: &(impl Abort + Eprint + Wait), alloc: Global, case: &Case) {
    let mut system = System::open(rt, alloc, case);
    for (place, row) in case.rows.iter().enumerate() {
        if place == DATAGRAMS {
            system.check_epoch(rt, alloc, 0, DATAGRAMS);
        }
        system.check_received(rt, alloc, row);
    }
    check_messages(rt, alloc, &mut system.taker);
}

// rule: CONC-14, EMB-39
#[test]
fn a_system_hands_an_epoch_out_while_four_datagrams_stand(rt: HostRuntime) {
    check_four_stand(&rt, rt.alloc(), &four_stand(&rt, rt.alloc()));
}
