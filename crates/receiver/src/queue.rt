//! The end of a port's queue that puts messages, which counts those that wait and those that were lost.
ghost use Rattle.std.specs.Prelude.{◌≡◌, ◌+◌, ◌-◌, ◌<◌, ◌≤◌, IfOk, IsFalse, IsTrue, length, max};
ghost use Rattle.es_base.specs.Limits.{deepest_queue, longest_queued};
ghost use Rattle.es_base.specs.Tally.{one_more};
ghost use Rattle.message_ring.specs.Queue.{BeginsWith, IsFullByLook, LooksForRoom, SeemsFull, queued, ring_with_put};
ghost use Rattle.receiver.specs.Queue.{IsGreatest, new_queue};

use es_base::Memory;
use message_ring::{RingPutter, RingTaker, meet, open_ring};
use std::alloc::Global;
use std::marker::Model;

/// Fill level of a queue, as far as the end that puts knows.
#[derive(Clone, Copy, Debug, PartialEq, Eq)]
pub struct Fill {
    /// Messages that wait: put and not taken.
    pub waiting: usize,
    /// The greatest number that waited, counted after each message that was put.
    pub greatest: usize,
}

/// The end of a queue that puts messages, and knows the greatest number that waited and how many were lost since one was
/// put.
#[derive(Drop)]
pub struct CountingPutter {
    putter: RingPutter,
    greatest: usize,
    // Messages refused since one was put. It saturates at 2^64 - 1.
    lost: u64,
}

impl Model for CountingPutter {
    ghost use Rattle.receiver.specs.Queue.{CountedQueue, IsGreatest};

    ghost Value = { CountedQueue };

    ghost view = { λ q. record { known = q.putter; greatest = q.greatest; lost = q.lost } };

    ghost invariant = { λ q. IsGreatest q.putter q.greatest };
}

impl CountingPutter {
    /// Both ends of a new queue, which holds up to `depth` messages of up to `max` octets. All memory of the queue is
    /// taken here.
    pub(crate) fn open(
        alloc: Global,
        depth: usize,
        max: usize,
    ) -> Result<(CountingPutter, RingTaker), Memory>
        requires { (0 < depth) × (depth ≤ deepest_queue) × (max ≤ longest_queued) }
        ensures putter { IfOk result (λ ends. (ends.0 ≡ new_queue ends.0.known.queue depth) × (ends.0.known.queue.max ≡ max)) }
        ensures taker { IfOk result (λ ends. ends.1 ≡ ends.0.known) }
    {
        let (putter, taker) = open_ring(alloc, depth, max)?;
        let counting = CountingPutter {
            putter,
            greatest: 0,
            lost: 0,
        };
        Ok((counting, taker))
    }

    /// Whether there is room for one more message; it stays, whatever the other end does. False: after it looked in this
    /// call, as many messages as the queue holds were put that this end doesn't know to be taken. If it knows of room
    /// before the call the answer is true, and it doesn't look. It counts a refusal.
    // rule: PORT-19
    pub(crate) fn has_room(&mut self) -> bool
        ensures end { self.new ≡ record self.old { known = record self.old.known { taken = self.new.known.taken; looks = self.new.known.looks }; lost = self.new.lost } }
        ensures told { BeginsWith self.new.known.taken self.old.known.taken }
        ensures kept { IsTrue result → self.new.lost ≡ self.old.lost }
        ensures counted { IsFalse result → self.new.lost ≡ one_more self.old.lost }
        ensures room { IsTrue result → length self.new.known.put < length self.new.known.taken + self.new.known.depth }
        ensures full { IsFalse result → SeemsFull self.new.known }
        ensures full_before { IsFalse result → SeemsFull self.old.known }
        ensures room_is_known { length self.old.known.put < length self.old.known.taken + self.old.known.depth → IsTrue result }
        ensures looked { LooksForRoom self.old.known self.new.known }
        ensures refused { IsFalse result → IsFullByLook self.old.known self.new.known }
    {
        let room = self.putter.has_room();
        if !room {
            self.lost = self.lost.saturating_add(1);
        }
        room
    }

    /// Puts a message at the end of the queue, with the number of those lost since the one before, and counts what waits
    /// then. Before, it looks what was taken if more may wait than ever, or if a queue that is empty would begin again at
    /// its first slot; once at most. The greatest number rises only by such a look.
    // rule: EMB-7, PORT-19
    pub(crate) fn put(&mut self, time: u64, octets: &[u8])
        requires short { length octets.now ≤ self.old.known.queue.max }
        requires room { length self.old.known.put < length self.old.known.taken + self.old.known.depth }
        ensures end { self.new.known ≡ ring_with_put self.old.known (queued time octets.now self.old.lost) self.new.known.taken self.new.known.looks }
        ensures told { BeginsWith self.new.known.taken self.old.known.taken }
        ensures lost { self.new.lost ≡ 0 }
        ensures greatest { self.new.greatest ≡ max self.old.greatest (length self.new.known.put - length self.new.known.taken) }
        ensures looks { (self.old.known.looks ≤ self.new.known.looks) × (self.new.known.looks ≤ self.old.known.looks + 1) }
        ensures risen { self.old.greatest < self.new.greatest → self.new.known.looks ≡ self.old.known.looks + 1 }
    {
        self.putter.look_ahead(self.greatest);
        self.putter.put(time, octets, self.lost);
        self.lost = 0;
        self.greatest = self.greatest.max(self.putter.known_waiting());
    }

    /// Synchronizes the two ends of one queue: each then knows at least what the other did. Nothing else changes.
    pub(crate) fn meet(&mut self, taker: &mut RingTaker)
        requires { (taker.old.queue ≡ self.old.known.queue) × (taker.old.depth ≡ self.old.known.depth) }
        ensures putter { self.new ≡ record self.old { known = record self.old.known { taken = self.new.known.taken } } }
        ensures told { BeginsWith self.new.known.taken taker.old.taken }
        ensures kept { BeginsWith self.new.known.taken self.old.known.taken }
        ensures taker { (taker.new.queue ≡ taker.old.queue) × (taker.new.depth ≡ taker.old.depth) × (taker.new.taken ≡ taker.old.taken) × (taker.new.put ≡ self.old.known.put) × (taker.new.looks ≡ taker.old.looks) }
        ensures known { BeginsWith taker.new.put taker.old.put }
        ensures begins { BeginsWith taker.new.put taker.new.taken }
        ensures held { length taker.new.put ≤ length taker.new.taken + taker.old.depth }
    {
        meet(&mut self.putter, taker);
    }

    /// Fill level of the queue, after this end looked what the other end took.
    pub(crate) fn fill(&mut self) -> Fill
        ensures end { self.new ≡ record self.old { known = record self.old.known { taken = self.new.known.taken; looks = self.new.known.looks } } }
        ensures told { BeginsWith self.new.known.taken self.old.known.taken }
        ensures looked { self.new.known.looks ≡ self.old.known.looks + 1 }
        ensures waiting { (result.waiting + length self.new.known.taken ≡ length self.new.known.put) × (result.waiting ≤ self.new.known.depth) }
        ensures greatest { (result.greatest ≡ self.new.greatest) × IsGreatest self.new.known result.greatest }
    {
        Fill {
            waiting: self.putter.waiting(),
            greatest: self.greatest,
        }
    }
}
