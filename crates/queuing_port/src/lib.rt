//! The queue of a queuing port: messages in order, none twice, and every loss told (ARINC 664 Part 7,
//! queuing service; depth own). One end puts and the other takes, and two threads may use both at once.
//!
//! A call of `put` or `take` tries again while the other end is in the midst of a call, so both are
//! passed `rt`. Neither takes memory. After more than 2^62 messages a call waits for ever.
//!
//! ```rust
//! assert!(rt; putter.put(rt, message).is_ok() == has_room);
//! ..
//! let (mut putter, mut taker) = open_queue(alloc, 2).ok().expect(rt, OWN);
//! ..
//! check_put(rt, &mut putter, first, true);
//! check_put(rt, &mut putter, second, true);
//! check_put(rt, &mut putter, third, false);
//! check_taken(rt, &mut taker, 1);
//! check_taken(rt, &mut taker, 2);
//! assert!(rt; taker.take(rt).is_none());
//! ```
#![tactic(auto)]

mod rule;
mod tries;

ghost use Rattle.std.specs.Prelude.{◌≡◌, ◌+◌, ◌<◌, ◌≤◌, true, length, slice_get, IfOk, OnOk, IfErr, OnErr, IfSome, IfNone, IsOk};
ghost use Rattle.es_base.specs.Port.{is_kind_within_limits};
ghost use Rattle.es_base.specs.declared.port.PortKind.TheVariants.{Queuing};
ghost use Rattle.es_base.specs.Queue.{BeginsWith};
ghost use Rattle.queuing_port.specs.Queue.{HoldsMessages, MayBeEmpty, MayBeFull, MayBeOldest, after_try, opened_queue, queue_with_put, queue_with_taken};

use crate::rule::{Ends, Queue};
use crate::tries::{RightToPut, RightToTake};
use es_base::{Memory, Message};
use std::alloc::Global;
use std::marker::Model;
use std::sync::{Arc, Wait};

/// The end that puts messages. Contracts see what it knows: the whole put list, and that part of the
/// taken list which the taker had when the two ends met last.
#[derive(Drop)]
pub struct Putter {
    queue: Arc<Queue, Global>,
    right: RightToPut,
}

impl Model for Putter {
    ghost use Rattle.std.specs.Prelude.{◌≡◌, true};
    ghost use Rattle.std.specs.Arc.{arc_value};
    ghost use Rattle.crossbeam_queue.specs.Passes.{view as pass_view, IsPassOf, ruled_capacity};
    ghost use Rattle.queuing_port.specs.Queue.{KnownQueue};

    ghost Value = { KnownQueue };

    ghost view = { λ p. record {
      queue = p.right.pass.table_id;
      depth = ruled_capacity (arc_value p.queue);
      put = (pass_view p.right.pass).put;
      taken = (pass_view p.right.pass).taken;
      tries = p.right.tries.count;
    } };

    ghost invariant = { λ p. IsPassOf (arc_value p.queue) p.right.pass × ((pass_view p.right.pass).puts ≡ true) };
}

/// The end that takes messages. Contracts see what it knows: the whole taken list, and that part of the
/// put list which the putter had when the two ends met last.
#[derive(Drop)]
pub struct Taker {
    queue: Arc<Queue, Global>,
    right: RightToTake,
}

impl Model for Taker {
    ghost use Rattle.std.specs.Prelude.{◌≡◌, true};
    ghost use Rattle.std.specs.Arc.{arc_value};
    ghost use Rattle.crossbeam_queue.specs.Passes.{view as pass_view, IsPassOf, ruled_capacity};
    ghost use Rattle.queuing_port.specs.Queue.{KnownQueue};

    ghost Value = { KnownQueue };

    ghost view = { λ t. record {
      queue = t.right.pass.table_id;
      depth = ruled_capacity (arc_value t.queue);
      put = (pass_view t.right.pass).put;
      taken = (pass_view t.right.pass).taken;
      tries = t.right.tries.count;
    } };

    ghost invariant = { λ t. IsPassOf (arc_value t.queue) t.right.pass × ((pass_view t.right.pass).takes ≡ true) };
}

/// Opens a queue of up to `depth` messages, 1 to 64, and returns its ends. All memory of the queue but
/// that of the messages is taken here.
pub fn open_queue(alloc: Global, depth: u8) -> Result<(Putter, Taker), Memory>
    requires { is_kind_within_limits (Queuing depth) ≡ true }
    ensures putter { IfOk result (λ ends. ends.0 ≡ opened_queue ends.0.queue depth) }
    ensures taker { IfOk result (λ ends. ends.1 ≡ ends.0) }
{
    let (queue, mut right_to_put) = Queue::ruled(alloc, depth as usize)?;
    let right_to_take = queue.another::<Ends>(&mut right_to_put);
    let queue = Arc::new(alloc, queue)?;
    let putter = Putter {
        queue: Arc::try_clone(&queue)?,
        right: RightToPut::new(right_to_put),
    };
    let taker = Taker {
        queue,
        right: RightToTake::new(right_to_take),
    };
    Ok((putter, taker))
}

/// Synchronizes the two ends of one queue: each then knows all that the other did, of which it knew a
/// beginning before. Returns the number of messages in the queue: put and not taken, at most its depth.
/// Nothing else changes, it counts as no try, and there is nobody to wait for, since both ends are here.
pub fn meet<R: Wait>(rt: &R, putter: &mut Putter, taker: &mut Taker) -> usize
    requires { taker.old.queue ≡ putter.old.queue }
    ensures putter { putter.new ≡ record putter.old { taken = taker.old.taken } }
    ensures taker { taker.new ≡ record taker.old { put = putter.old.put } }
    ensures same { taker.new ≡ record putter.new { tries = taker.old.tries } }
    ensures before { BeginsWith taker.new.put taker.old.put × BeginsWith putter.new.taken putter.old.taken }
    ensures held { HoldsMessages putter.new result }
    ensures depth { result ≤ putter.old.depth }
{
    putter.right.meet(rt, &putter.queue, &mut taker.right)
}

impl Putter {
    /// Puts a message at the end of the queue, by one try. `Err` hands the message back: a message is refused only by a
    /// try in this call, and by the queue's rule a try finds the queue full only if it was full at one moment of the
    /// call. The contract says as much of that moment as this end can know: no message is handed back in the first
    /// `depth` puts, nor while fewer than `depth` messages were put that this end doesn't know to be taken. It learns of
    /// takes as the ends meet.
    // rule: PORT-17
    pub fn put<R: Wait>(&mut self, rt: &R, message: Message) -> Result<(), Message>
        ensures ok { OnOk result (self.new ≡ queue_with_put self.old message) }
        ensures err { IfErr result (λ back. (back ≡ message) × (self.new ≡ after_try self.old)) }
        ensures may_be_full { OnErr result (MayBeFull self.old) }
        ensures room_is_known { length self.old.put < length self.old.taken + self.old.depth → IsOk result }
    {
        let Putter { queue, right } = self;
        right.push(rt, queue, message)
    }
}

impl Taker {
    /// Takes the oldest message, by one try. None: there is none only by a try in this call, and by the queue's rule a
    /// try finds none only if the queue was empty at one moment of the call. The contract says as much of that moment as
    /// this end can know: while it knows of messages that were put and that it hasn't taken, the take gives the next of
    /// those. It learns of puts as the ends meet.
    pub fn take<R: Wait>(&mut self, rt: &R) -> Option<Message>
        ensures some { IfSome result (λ message. self.new ≡ queue_with_taken self.old message) }
        ensures may_be_oldest { IfSome result (MayBeOldest self.old) }
        ensures none { IfNone result (self.new ≡ after_try self.old) }
        ensures may_be_empty { IfNone result (MayBeEmpty self.old) }
        ensures next_is_known { length self.old.taken < length self.old.put →
            result ≡ slice_get self.old.put (length self.old.taken) }
    {
        let Taker { queue, right } = self;
        right.pop(rt, queue)
    }
}
