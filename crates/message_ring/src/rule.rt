//! The rule of a queue's slots, and the knowledge of each seat at their table. No value of these types is made but
//! `Size`.
use crate::slot::Slot;
use atomic_table::{Seat, TableRule};
use es_base::Message;
use std::collections::LinkedList;

/// Number of messages that a queue holds, and the most octets of each.
#[derive(Clone, Copy)]
pub struct Size {
    pub depth: usize,
    pub max: usize,
}

/// A message in a queue.
pub struct QueuedMessage {
    pub message: Message,
    /// Number of messages lost right before it: refused since the message before it was put.
    pub lost: u64,
}

/// Knowledge of an end's seat.
pub struct QueueView {
    /// The messages that it knows to be put: a putter all, a taker the first of them.
    pub put: LinkedList<QueuedMessage>,
    /// The messages that it knows to be taken: a taker all, a putter the first of them.
    pub taken: LinkedList<QueuedMessage>,
    /// Whether it has the slot of its next message.
    pub has: bool,
    pub depth: u64,
    pub max: u64,
    /// Its looks at the other end's word: a putter's all, a taker's by which it found no message, and
    /// those by which it counted what waits.
    pub looks: u64,
    /// Slot of message number 0, from which those of all others follow. A putter says it, a taker reads it.
    pub start: u64,
    /// Whether a taker read `start` since it learned of the messages that it knows.
    pub sure: bool,
}

/// Knowledge of a seat.
pub enum SeatView {
    /// The putter's.
    Puts(QueueView),
    /// The taker's.
    Takes(QueueView),
    /// Both.
    Meets(QueueView, QueueView),
    /// A seat that was joined to another.
    Spent,
}

/// A message stands in its slot from its put to its taking. Two words count what was put and what was taken; the third
/// says in which slot number 0 is.
pub struct InSlots;

impl TableRule<Slot, SeatView, Size> for InSlots {
    ghost use Rattle.message_ring.specs.Rule.{KeptQueue, view_at_first};
    ghost use Rattle.message_ring.specs.declared.rule.SeatView.TheVariants.{Meets};

    ghost holds = { λ _ state. KeptQueue state };

    ghost first = { λ size. Meets (view_at_first size.depth size.max) (view_at_first size.depth size.max) };
}

/// A right to make steps at the table, with what it knows. Between calls it has no slot. It has no octets.
pub(crate) type Right = Seat<Slot, SeatView>;
