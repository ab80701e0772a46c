//! The steps of both ends at their table, each in one call. The ends reach the table by no other: so a put and a take
//! make no step, and no load, but those of the calls here.
ghost use Rattle.std.specs.Prelude.{◌≡◌, ◌<◌, false, ◌≤◌, [], drop, length, slice_get, take, IfOk, Some};
ghost use Rattle.es_base.specs.Limits.{deepest_queue};
ghost use Rattle.message_ring.specs.Queue.{queued};
ghost use Rattle.message_ring.specs.Rule.{view_at_first};
ghost use Rattle.message_ring.specs.Plays.{AreMet, ends_learn, putter_enters, putter_in, putter_left, putter_looks, putter_puts, putter_starts, puts_one, sees_start, started, taker_counts, taker_enters, taker_in, taker_looks, taker_parted, taker_reads_start, taker_takes, takes_one, told_put, told_taken, views_met};
ghost use Rattle.message_ring.specs.Ends.{AreRoomy, MayPutNext, MayStart, MayTakeNext};
ghost use Rattle.message_ring.specs.declared.rule.SeatView.TheVariants.{Puts, Spent, Takes};

use crate::Taken;
use crate::rule::{InSlots, Right, SeatView, Size};
use crate::slot::Slot;
use atomic_table::{Join, Play, Split, Table};
use std::alloc::{AllocError, Global};

/// Word of the table that counts what was put, the one that counts what was taken, and the one that says in which slot
/// message number 0 is.
const PUT: usize = 0;

const TAKEN: usize = 1;

const START: usize = 2;

/// The slots of a queue, and the three words.
#[derive(Drop)]
pub(crate) struct Slots {
    table: Table<Slot, SeatView, Size, InSlots, Global>,
    ghost words: { table.shared.table_id.words ≡ 3 },
}

/// The first seat is parted into the taker's and the putter's.
struct Part;

impl Split<SeatView> for Part {
    ghost left = { taker_parted };

    ghost right = { putter_left };
}

struct PutterEnters;

impl Play<Slot, SeatView> for PutterEnters {
    ghost then = { λ _. putter_enters };
}

struct PutterPuts;

impl Play<Slot, SeatView> for PutterPuts {
    ghost then = { λ _. putter_puts };
}

struct PutterStarts;

impl Play<Slot, SeatView> for PutterStarts {
    ghost then = { λ _. putter_starts };
}

struct PutterLooks;

impl Play<Slot, SeatView> for PutterLooks {
    ghost then = { λ _. putter_looks };
}

struct TakerEnters;

impl Play<Slot, SeatView> for TakerEnters {
    ghost then = { λ _. taker_enters };
}

struct TakerTakes;

impl Play<Slot, SeatView> for TakerTakes {
    ghost then = { λ _. taker_takes };
}

struct TakerLooks;

impl Play<Slot, SeatView> for TakerLooks {
    ghost then = { λ _. taker_looks };
}

struct TakerReadsStart;

impl Play<Slot, SeatView> for TakerReadsStart {
    ghost then = { λ _. taker_reads_start };
}

struct TakerCounts;

impl Play<Slot, SeatView> for TakerCounts {
    ghost then = { λ _. taker_counts };
}

struct Lend;

impl Split<SeatView> for Lend {
    ghost left = { λ _. Spent };

    ghost right = { λ v. v };
}

struct Both;

impl Join<SeatView> for Both {
    ghost both = { views_met };

    ghost spent = { Spent };
}

struct Told;

impl Play<Slot, SeatView> for Told {
    ghost then = { λ _. ends_learn };
}

struct Regain;

impl Join<SeatView> for Regain {
    ghost both = { λ _ v. v };

    ghost spent = { Spent };
}

/// Opens the table over these slots, with the right of each end.
pub(crate) fn open(
    alloc: Global,
    depth: usize,
    max: usize,
    slots: Vec<Slot>,
) -> Result<(Slots, Right, Right), AllocError>
    requires { (0 < depth) × (depth ≤ deepest_queue) × AreRoomy depth max slots.items }
    ensures table { IfOk result (λ t. (t.1.table_id ≡ t.0.table.shared.table_id) × (t.2.table_id ≡ t.0.table.shared.table_id)) }
    ensures putter { IfOk result (λ t. t.1.me ≡ (Puts (view_at_first depth max), [])) }
    ensures taker { IfOk result (λ t. t.2.me ≡ (Takes (view_at_first depth max), [])) }
{
    let size = Size { depth, max };
    let (table, mut taker) = match Table::new(alloc, &[0u64, 0, 0], slots, &size) {
        Ok(made) => made,
        Err(_) => return Err(AllocError),
    };
    let putter = table.shared.split_seat::<Part>(&mut taker);
    Ok((Slots { table }, putter, taker))
}

impl Slots {
    /// Puts a message, in place: its slot is taken by a load of the putter's own word, and given back by a store of it,
    /// which is then this. It is no look.
    pub(crate) fn put(
        &self,
        right: &mut Right,
        slot: usize,
        count: u64,
        time: u64,
        octets: &[u8],
        lost: u64,
    )
        requires table { right.old.table_id ≡ self.now.table.shared.table_id }
        requires seat { MayPutNext right.old.me slot count (length octets.now) }
        ensures table { right.new.table_id ≡ right.old.table_id }
        ensures put { right.new.me ≡ (Puts (puts_one (putter_in right.old.me.0) (queued time octets.now lost)), []) }
    {
        let shared = &self.table.shared;
        shared.load::<PutterEnters>(right, PUT);
        right.slot_mut(shared, slot).write(time, octets, lost);
        shared.store::<PutterPuts>(right, PUT, count);
    }

    /// Says anew in which slot message number 0 is, while no message waits: one store of that word. It is no look.
    pub(crate) fn start(&self, right: &mut Right, start: u64)
        requires table { right.old.table_id ≡ self.now.table.shared.table_id }
        requires seat { MayStart right.old.me start }
        ensures table { right.new.table_id ≡ right.old.table_id }
        ensures started { right.new.me ≡ (Puts (started (putter_in right.old.me.0) start), []) }
    {
        self.table.shared.store::<PutterStarts>(right, START, start);
    }

    /// Number of messages that were taken, modulo 2^64: one load of the taker's word.
    pub(crate) fn look_taken(&self, right: &mut Right) -> u64
        requires table { right.old.table_id ≡ self.now.table.shared.table_id }
        requires putter { right.old.me.0 ≡ Puts (putter_in right.old.me.0) }
        ensures table { right.new.table_id ≡ right.old.table_id }
        ensures looked { putter_looks right.old.me result right.new.me }
    {
        self.table.shared.load::<PutterLooks>(right, TAKEN)
    }

    /// Takes a message, and copies its octets to the beginning of `out`: its slot is taken by a load of the taker's own
    /// word, and given back by a store of it, which is then this. It is no look.
    pub(crate) fn take(&self, right: &mut Right, slot: usize, count: u64, out: &mut [u8]) -> Taken
        requires table { right.old.table_id ≡ self.now.table.shared.table_id }
        requires seat { MayTakeNext right.old.me slot count (length out.old) }
        ensures table { right.new.table_id ≡ right.old.table_id }
        ensures taken { right.new.me ≡ (Takes (takes_one (taker_in right.old.me.0) (queued result.time (take result.len out.new) result.lost)), []) }
        ensures next { slice_get (taker_in right.old.me.0).put (length (taker_in right.old.me.0).taken) ≡ Some (queued result.time (take result.len out.new) result.lost) }
        ensures short { result.len ≤ (taker_in right.old.me.0).max }
        ensures rest { drop result.len out.new ≡ drop result.len out.old }
        ensures len { length out.new ≡ length out.old }
    {
        let shared = &self.table.shared;
        shared.load::<TakerEnters>(right, TAKEN);
        let taken = right.slot_mut(shared, slot).read(out);
        shared.store::<TakerTakes>(right, TAKEN, count);
        taken
    }

    /// Number of messages that were put, modulo 2^64: one load of the putter's word.
    pub(crate) fn look_put(&self, right: &mut Right) -> u64
        requires table { right.old.table_id ≡ self.now.table.shared.table_id }
        requires taker { (right.old.me.0 ≡ Takes (taker_in right.old.me.0)) × ((taker_in right.old.me.0).has ≡ false) }
        ensures table { right.new.table_id ≡ right.old.table_id }
        ensures looked { taker_looks right.old.me result right.new.me }
    {
        self.table.shared.load::<TakerLooks>(right, PUT)
    }

    /// The slot in which message number 0 is: one load of that word.
    pub(crate) fn read_start(&self, right: &mut Right) -> u64
        requires table { right.old.table_id ≡ self.now.table.shared.table_id }
        requires taker { (right.old.me.0 ≡ Takes (taker_in right.old.me.0)) × ((taker_in right.old.me.0).has ≡ false) }
        ensures table { right.new.table_id ≡ right.old.table_id }
        ensures read { right.new.me ≡ (Takes (sees_start (taker_in right.old.me.0) result), right.old.me.1) }
        ensures within { result < (taker_in right.old.me.0).depth }
    {
        self.table.shared.load::<TakerReadsStart>(right, START)
    }

    /// Number of messages that were put, modulo 2^64: one load of the putter's word, by which the taker counts what waits.
    pub(crate) fn count_put(&self, right: &mut Right) -> u64
        requires table { right.old.table_id ≡ self.now.table.shared.table_id }
        requires taker { (right.old.me.0 ≡ Takes (taker_in right.old.me.0)) × ((taker_in right.old.me.0).has ≡ false) }
        ensures table { right.new.table_id ≡ right.old.table_id }
        ensures counted { taker_counts right.old.me result right.new.me }
    {
        self.table.shared.load::<TakerCounts>(right, PUT)
    }

    /// Joins the putter's right with the taker's, by which each knows what the other did, and parts them again.
    pub(crate) fn meet(&self, putter: &mut Right, taker: &mut Right)
        requires table { (putter.old.table_id ≡ self.now.table.shared.table_id) × (taker.old.table_id ≡ self.now.table.shared.table_id) }
        requires putter { putter.old.me.0 ≡ Puts (putter_in putter.old.me.0) }
        requires taker { (taker.old.me.0 ≡ Takes (taker_in taker.old.me.0)) × ((taker_in taker.old.me.0).has ≡ false) }
        ensures table { (putter.new.table_id ≡ putter.old.table_id) × (taker.new.table_id ≡ taker.old.table_id) }
        ensures putter { putter.new.me ≡ (Puts (told_taken (putter_in putter.old.me.0) (taker_in taker.old.me.0).taken), putter.old.me.1) }
        ensures taker { taker.new.me ≡ (Takes (told_put (taker_in taker.old.me.0) (putter_in putter.old.me.0)), taker.old.me.1) }
        ensures met { AreMet (putter_in putter.old.me.0) (taker_in taker.old.me.0) }
    {
        let shared = &self.table.shared;
        let lent = shared.split_seat::<Lend>(putter);
        shared.join_seat::<Both>(taker, lent);
        shared.load::<Told>(taker, PUT);
        let back = shared.split_seat::<Part>(taker);
        shared.join_seat::<Regain>(putter, back);
    }
}
