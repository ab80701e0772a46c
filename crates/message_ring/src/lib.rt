//! The queue of a queuing port, in memory that is taken when it is opened: messages in order, none twice, and every
//! loss told (ARINC 664 Part 7, queuing service; depth own). One end puts and the other takes, and two threads may use
//! both at once. No call waits for the other end, and none takes or frees memory.
//!
//! ```rust
//! let (mut putter, mut taker) = open_ring(rt.alloc(), 1, 3)?;
//! ..
//! assert!(rt; putter.has_room());
//! putter.put(5, b"abc", 0);
//! assert!(rt; !putter.has_room());
//! meet(&mut putter, &mut taker);
//! assert_eq!(rt;
//!     taker.take(&mut out),
//!     Some(Taken {
//!         time: 5,
//!         len: 3,
//!         lost: 0
//!     })
//! );
//! assert_eq!(rt; &out[..], &b"abc"[..]);
//! ```
//!
//! A message stands in a slot of its own from its put to its taking. Two words between the ends count what was put and
//! what was taken. A queue that the putter finds empty begins again at its first slot, which a third word tells: so a deep
//! queue that is emptied in time goes through little memory. [`laws`] says what follows at every moment.
#![tactic(auto)]

pub mod laws;
mod rule;
mod slot;
mod steps;

ghost use Rattle.std.specs.Prelude.{◌≡◌, ◌+◌, ◌<◌, ◌≤◌, ℕ, length, take, drop, slice_get, Some, IfOk, IfSome, IfNone, IsSome, IsTrue, IsFalse};
ghost use Rattle.es_base.specs.Limits.{deepest_queue, longest_queued};
ghost use Rattle.message_ring.specs.Queue.{BeginsWith, IsFullByLook, LooksForRoom, SeemsEmpty, SeemsFull, after_look, opened_ring, queued, ring_with_put, ring_with_taken};
ghost use Rattle.message_ring.specs.Ends.{AreRoomy};
ghost use Rattle.message_ring.specs.Rule.{slot_for};

use crate::rule::Right;
use crate::slot::Slot;
use crate::steps::Slots;
use std::alloc::{AllocError, Global};
use std::marker::Model;
use std::sync::Arc;

/// A taken message.
#[derive(Debug, Clone, Copy, PartialEq, Eq)]
pub struct Taken {
    /// Arrival time, in microseconds.
    pub time: u64,
    /// Length in `out`, in octets.
    pub len: usize,
    /// Number of messages lost right before it, as its putter said.
    pub lost: u64,
}

/// The end that puts messages. Contracts see what it knows: the whole put list, and that part of the
/// taken list of which it learned.
#[derive(Drop)]
pub struct RingPutter {
    table: Arc<Slots, Global>,
    right: Right,
    depth: usize,
    max: usize,
    // Slot of its next message.
    next: usize,
    // Number of messages that it put, modulo 2^64.
    count: u64,
    // Number of those that it doesn't know to be taken.
    waits: usize,
    // Slot in which message number 0 is, as the word between the ends says.
    start: usize,
}

impl Model for RingPutter {
    ghost use Rattle.std.specs.Prelude.{◌≡◌};
    ghost use Rattle.std.specs.Arc.{arc_value};
    ghost use Rattle.message_ring.specs.Queue.{Known};
    ghost use Rattle.message_ring.specs.Plays.{putter_in};
    ghost use Rattle.message_ring.specs.Ends.{KeepsPut, known_by};

    ghost Value = { Known };

    ghost view = { λ p. known_by p.right.table_id (putter_in p.right.me.0) };

    ghost invariant = { λ p. (p.right.table_id ≡ (arc_value p.table).table.shared.table_id) × KeepsPut p.right.me p.depth p.max p.next p.count p.waits p.start };
}

/// The end that takes messages. Contracts see what it knows: the whole taken list, and that part of the
/// put list of which it learned.
#[derive(Drop)]
pub struct RingTaker {
    table: Arc<Slots, Global>,
    right: Right,
    depth: usize,
    max: usize,
    // Slot of its next message.
    next: usize,
    // Number of messages that it took, modulo 2^64.
    count: u64,
    // Number of those that it knows to be put and didn't take.
    waits: usize,
    // Slot in which message number 0 is, as it read last.
    start: usize,
}

impl Model for RingTaker {
    ghost use Rattle.std.specs.Prelude.{◌≡◌};
    ghost use Rattle.std.specs.Arc.{arc_value};
    ghost use Rattle.message_ring.specs.Queue.{Known};
    ghost use Rattle.message_ring.specs.Plays.{taker_in};
    ghost use Rattle.message_ring.specs.Ends.{KeepsTaken, known_by};

    ghost Value = { Known };

    ghost view = { λ t. known_by t.right.table_id (taker_in t.right.me.0) };

    ghost invariant = { λ t. (t.right.table_id ≡ (arc_value t.table).table.shared.table_id) × KeepsTaken t.right.me t.depth t.max t.next t.count t.waits t.start };
}

/// Empty slots, each with room for a message of `max` octets.
fn empty_slots(alloc: Global, depth: usize, max: usize) -> Result<Vec<Slot>, AllocError>
    ensures { IfOk result (λ slots. AreRoomy depth max slots.items) }
{
    let mut slots = Vec::with_capacity(alloc, depth)?;
    'slots: for _ in 0..depth {
        let octets = Vec::with_capacity(alloc, max)?;
        slots.push(Slot {
            time: 0,
            lost: 0,
            octets,
        })?;
    }
    Ok(slots)
}

/// Both ends of a new queue, which holds up to `depth` messages of up to `max` octets. All memory of the queue is
/// taken here.
pub fn open_ring(
    alloc: Global,
    depth: usize,
    max: usize,
) -> Result<(RingPutter, RingTaker), AllocError>
    requires { (0 < depth) × (depth ≤ deepest_queue) × (max ≤ longest_queued) }
    ensures putter { IfOk result (λ ends. (ends.0 ≡ opened_ring ends.0.queue depth) × (ends.0.queue.max ≡ max)) }
    ensures taker { IfOk result (λ ends. ends.1 ≡ ends.0) }
{
    let slots = empty_slots(alloc, depth, max)?;
    let (table, right, takers) = steps::open(alloc, depth, max, slots)?;
    let table = Arc::new(alloc, table)?;
    let again = Arc::try_clone(&table)?;
    let putter = RingPutter {
        table,
        right,
        depth,
        max,
        next: 0,
        count: 0,
        waits: 0,
        start: 0,
    };
    let taker = RingTaker {
        table: again,
        right: takers,
        depth,
        max,
        next: 0,
        count: 0,
        waits: 0,
        start: 0,
    };
    Ok((putter, taker))
}

/// Synchronizes the two ends of one queue: each then knows at least what the other did. Nothing else changes, and it
/// counts as no look.
pub fn meet(putter: &mut RingPutter, taker: &mut RingTaker)
    requires { (taker.old.queue ≡ putter.old.queue) × (taker.old.depth ≡ putter.old.depth) }
    ensures putter { (putter.new.queue ≡ putter.old.queue) × (putter.new.depth ≡ putter.old.depth) × (putter.new.put ≡ putter.old.put) × (putter.new.looks ≡ putter.old.looks) }
    ensures told { BeginsWith putter.new.taken taker.old.taken }
    ensures kept { BeginsWith putter.new.taken putter.old.taken }
    ensures taker { (taker.new.queue ≡ taker.old.queue) × (taker.new.depth ≡ taker.old.depth) × (taker.new.taken ≡ taker.old.taken) × (taker.new.put ≡ putter.old.put) × (taker.new.looks ≡ taker.old.looks) }
    ensures known { BeginsWith taker.new.put taker.old.put }
    ensures begins { BeginsWith taker.new.put taker.new.taken }
    ensures held { length taker.new.put ≤ length taker.new.taken + taker.old.depth }
{
    putter.table.meet(&mut putter.right, &mut taker.right);
    let waits = putter.count.wrapping_sub(taker.count) as usize;
    putter.waits = waits;
    taker.waits = waits;
    taker.next = slot_with_start(taker.next, taker.start, putter.start, taker.depth);
    taker.start = putter.start;
}

/// Number of slots that a queue uses before it begins again at the first one, once it is found empty.
const FIRST_SLOTS: usize = 4;

/// The slot of a message, whose slot was this, once number 0 is in another one.
fn slot_with_start(slot: usize, old: usize, new: usize, depth: usize) -> usize
    requires { (slot < depth) × (old < depth) × (new < depth) × (depth ≤ deepest_queue) }
    ensures { (number : ℕ) → slot ≡ slot_for depth (old + number) → result ≡ slot_for depth (new + number) }
{
    let on = if old <= new {
        new - old
    } else {
        new + depth - old
    };
    slot_after(slot, on, depth)
}

/// The slot so many after this one: that of the message so many after its own.
fn slot_after(slot: usize, many: usize, depth: usize) -> usize
    requires { (slot < depth) × (many ≤ depth) × (depth ≤ deepest_queue) }
    ensures { (number : ℕ) → slot ≡ slot_for depth number → result ≡ slot_for depth (number + many) }
{
    let after = slot + many;
    if after < depth { after } else { after - depth }
}

impl RingPutter {
    /// Longest message, in octets.
    pub fn max(&self) -> usize
        ensures { result ≡ self.now.queue.max }
    {
        self.max
    }

    /// Whether there is room for one more message; it stays, whatever the other end does. False: after it looked in this
    /// call, as many messages as the queue holds were put that this end doesn't know to be taken. If it knows of room
    /// before the call the answer is true, and it doesn't look.
    pub fn has_room(&mut self) -> bool
        ensures end { self.new ≡ record self.old { taken = self.new.taken; looks = self.new.looks } }
        ensures told { BeginsWith self.new.taken self.old.taken }
        ensures room { IsTrue result → length self.new.put < length self.new.taken + self.new.depth }
        ensures full { IsFalse result → SeemsFull self.new }
        ensures full_before { IsFalse result → SeemsFull self.old }
        ensures room_is_known { length self.old.put < length self.old.taken + self.old.depth → IsTrue result }
        ensures looked { LooksForRoom self.old self.new }
        ensures refused { IsFalse result → IsFullByLook self.old self.new }
    {
        if self.waits < self.depth {
            return true;
        }
        self.waiting() < self.depth
    }

    /// Number of waiting messages: those put that this end doesn't know to be taken, after it looked what the other end
    /// took. A message is taken once all of its octets are.
    pub fn waiting(&mut self) -> usize
        ensures end { self.new ≡ record self.old { taken = self.new.taken; looks = self.new.looks } }
        ensures told { BeginsWith self.new.taken self.old.taken }
        ensures count { result + length self.new.taken ≡ length self.new.put }
        ensures depth { result ≤ self.new.depth }
        ensures looked { self.new.looks ≡ self.old.looks + 1 }
    {
        let taken = self.table.look_taken(&mut self.right);
        self.waits = self.count.wrapping_sub(taken) as usize;
        if self.waits == 0 && FIRST_SLOTS <= self.next {
            self.begin_again();
        }
        self.waits
    }

    /// The next message comes into the first slot, for none waits: that one is in the caches.
    fn begin_again(&mut self)
        requires { length self.old.put ≡ length self.old.taken }
        ensures { self.new ≡ self.old }
    {
        let on = self.depth - self.next;
        let start = slot_after(self.start, on, self.depth);
        self.table.start(&mut self.right, start as u64);
        self.start = start;
        self.next = slot_after(self.next, on, self.depth);
    }

    /// Looks what the other end took, if at least so many messages wait as far as this end knows, or if it used its first
    /// slots and would begin again at these. Once at most.
    pub fn look_ahead(&mut self, least: usize)
        ensures end { self.new ≡ record self.old { taken = self.new.taken; looks = self.new.looks } }
        ensures told { BeginsWith self.new.taken self.old.taken }
        ensures once { (self.old.looks ≤ self.new.looks) × (self.new.looks ≤ self.old.looks + 1) }
        ensures looked { least + length self.old.taken ≤ length self.old.put → self.new.looks ≡ self.old.looks + 1 }
    {
        if least <= self.waits || FIRST_SLOTS <= self.next {
            let _waits = self.waiting();
        }
    }

    /// Number of messages that were put and that this end doesn't know to be taken: it makes no look, so no fewer than
    /// wait.
    pub fn known_waiting(&self) -> usize
        ensures { result + length self.now.taken ≡ length self.now.put }
    {
        self.waits
    }

    /// Puts a message at the end of the queue, of which this end knows that it has room; `lost` messages were lost right
    /// before it. It makes no look.
    pub fn put(&mut self, time: u64, octets: &[u8], lost: u64)
        requires short { length octets.now ≤ self.old.queue.max }
        requires room { length self.old.put < length self.old.taken + self.old.depth }
        ensures put { self.new ≡ ring_with_put self.old (queued time octets.now lost) self.new.taken self.new.looks }
        ensures told { BeginsWith self.new.taken self.old.taken }
        ensures depth { length self.new.put ≤ length self.new.taken + self.old.depth }
        ensures looks { self.new.looks ≡ self.old.looks }
    {
        let count = self.count.wrapping_add(1);
        self.table
            .put(&mut self.right, self.next, count, time, octets, lost);
        self.count = count;
        self.next = slot_after(self.next, 1, self.depth);
        self.waits += 1;
    }
}

impl RingTaker {
    /// Longest message, in octets.
    pub fn max(&self) -> usize
        ensures { result ≡ self.now.queue.max }
    {
        self.max
    }

    /// Takes the oldest message, and copies its octets to the beginning of `out`. None: after it looked in this call, this
    /// end took all messages that it knows to be put.
    pub fn take(&mut self, out: &mut [u8]) -> Option<Taken>
        requires { self.old.queue.max ≤ length out.old }
        ensures some { IfSome result (λ got. (got.len ≤ self.old.queue.max) × (self.new ≡ ring_with_taken self.old (queued got.time (take got.len out.new) got.lost) self.new.put)) }
        ensures rest { IfSome result (λ got. drop got.len out.new ≡ drop got.len out.old) }
        ensures told { BeginsWith self.new.put self.old.put }
        ensures begins { BeginsWith self.new.put self.new.taken }
        ensures none { IfNone result ((self.new ≡ after_look self.old) × (out.new ≡ out.old)) }
        ensures seems_empty { IfNone result (SeemsEmpty self.old) }
        ensures next_is_known { length self.old.taken < length self.old.put → IsSome result }
        ensures next { IfSome result (λ got. length self.old.taken < length self.old.put →
            slice_get self.old.put (length self.old.taken) ≡ Some (queued got.time (take got.len out.new) got.lost)) }
    {
        if self.has_next() {
            Some(self.take_next(out))
        } else {
            None
        }
    }

    /// Number of waiting messages: those put that this end didn't take, after it looked in this call what was put.
    // rule: EMB-10
    pub fn waiting(&mut self) -> usize
        ensures end { self.new ≡ record self.old { put = self.new.put; looks = self.new.looks } }
        ensures told { BeginsWith self.new.put self.old.put }
        ensures begins { BeginsWith self.new.put self.new.taken }
        ensures count { result + length self.new.taken ≡ length self.new.put }
        ensures depth { result ≤ self.new.depth }
        ensures looked { self.new.looks ≡ self.old.looks + 1 }
    {
        let put = self.table.count_put(&mut self.right);
        self.waits = put.wrapping_sub(self.count) as usize;
        let first_slot = self.table.read_start(&mut self.right) as usize;
        self.next = slot_with_start(self.next, self.start, first_slot, self.depth);
        self.start = first_slot;
        self.waits
    }

    /// Whether it knows a message to take. False: after it looked in this call. It looks only if it knows of none
    /// before.
    fn has_next(&mut self) -> bool
        ensures end { IsTrue result → self.new ≡ record self.old { put = self.new.put } }
        ensures more { IsTrue result → length self.new.taken < length self.new.put }
        ensures told { BeginsWith self.new.put self.old.put }
        ensures none { IsFalse result → (self.new ≡ after_look self.old) × SeemsEmpty self.old }
    {
        if 0 < self.waits {
            return true;
        }
        let put = self.table.look_put(&mut self.right);
        self.waits = put.wrapping_sub(self.count) as usize;
        if self.waits == 0 {
            return false;
        }
        let start = self.table.read_start(&mut self.right) as usize;
        self.next = slot_with_start(self.next, self.start, start, self.depth);
        self.start = start;
        true
    }

    /// Takes the oldest message, which it knows to be put.
    fn take_next(&mut self, out: &mut [u8]) -> Taken
        requires room { self.old.queue.max ≤ length out.old }
        requires more { length self.old.taken < length self.old.put }
        ensures taken { self.new ≡ ring_with_taken self.old (queued result.time (take result.len out.new) result.lost) self.old.put }
        ensures next { slice_get self.old.put (length self.old.taken) ≡ Some (queued result.time (take result.len out.new) result.lost) }
        ensures short { result.len ≤ self.old.queue.max }
        ensures rest { drop result.len out.new ≡ drop result.len out.old }
        ensures begins { BeginsWith self.new.put self.new.taken }
    {
        let count = self.count.wrapping_add(1);
        let taken = self.table.take(&mut self.right, self.next, count, out);
        self.count = count;
        self.next = slot_after(self.next, 1, self.depth);
        self.waits -= 1;
        taken
    }
}

#[cfg(test)]
mod tests;
