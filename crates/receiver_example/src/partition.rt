//! The work of a partition: it has ends of ports, and nothing else of the receiver.
ghost use Rattle.std.specs.Prelude.{◌≡◌, ◌<◌, IfNone, IfOk, IfSome, IsSome, length, take};
ghost use Rattle.message_ring.specs.Queue.{SeemsEmpty, after_look, queued, ring_with_taken};
ghost use Rattle.mailbox_port.specs.Reads.{IfMessage, IsRead};
ghost use Rattle.es_base.specs.Age.{freshness as freshness_at};

use receiver::{MailboxReader, Memory, Reading, RingTaker, Taken};
use std::alloc::Global;
use std::marker::Model;

/// A partition that reads `pos` and takes of `nav`, with room for the longest message of either.
#[derive(Drop)]
pub(crate) struct Partition {
    pos: MailboxReader,
    nav: RingTaker,
    out: Vec<u8>,
}

impl Model for Partition {
    ghost use Rattle.std.specs.Prelude.{◌≤◌, length};
    ghost use Rattle.receiver_example.specs.Partition.{PartitionEnds};

    ghost Value = { PartitionEnds };

    ghost view = { λ p. record { pos = p.pos; nav = p.nav; out = p.out.items } };

    ghost invariant = { λ p. p.nav.queue.max ≤ length p.out.items };
}

impl Partition {
    /// All memory of the partition is taken here.
    pub fn new(alloc: Global, pos: MailboxReader, nav: RingTaker) -> Result<Partition, Memory>
        ensures { IfOk result (λ made. (made.pos ≡ pos) × (made.nav ≡ nav)) }
    {
        let out = vec![in alloc; 0u8; nav.max().max(pos.max())]?;
        Ok(Partition { pos, nav, out })
    }

    /// The newest message of `pos` at `now`, in microseconds, and whether it is fresh.
    pub fn read(&mut self, now: u64) -> Reading
        ensures nav { self.new.nav ≡ self.old.nav }
        ensures read { IsRead self.old.pos self.new.pos self.old.out self.new.out result }
        ensures validity { IfMessage result (λ _ time _ validity. validity ≡ freshness_at now time self.old.pos.refresh) }
    {
        self.pos.read(now, &mut self.out)
    }

    /// The oldest message of `nav` that wasn't taken. None: by a look in this call.
    pub fn take(&mut self) -> Option<Taken>
        ensures pos { self.new.pos ≡ self.old.pos }
        ensures some { IfSome result (λ got. self.new.nav ≡ ring_with_taken self.old.nav (queued got.time (take got.len self.new.out) got.lost) self.new.nav.put) }
        ensures none { IfNone result (self.new ≡ record self.old { nav = after_look self.old.nav }) }
        ensures seems_empty { IfNone result (SeemsEmpty self.old.nav) }
        ensures next_is_known { length self.old.nav.taken < length self.old.nav.put → IsSome result }
    {
        self.nav.take(&mut self.out)
    }
}
