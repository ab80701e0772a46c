//! The steps of both ends at their table, each in one call. The ends reach the table by no other: so a publication and a
//! look make no step, and no load, but those of the calls here.
ghost use Rattle.std.specs.Prelude.{◌≡◌, ◌≤◌, [], ◌∷◌, true, length, IfOk, IsTrue, IsFalse, Some};
ghost use Rattle.triple_buffer.specs.Rule.{StartsWith, reader_at_first, writer_at_first, message};
ghost use Rattle.triple_buffer.specs.Plays.{IsFilled, IsFilledAt, with_known, looked, seats_met, seat_parted, published, reader_enters, reader_in, sees_all, sees_newer, taken, reader_learns, writer_left, writer_enters, writer_in};
ghost use Rattle.triple_buffer.specs.Ends.{AreThree, IsPublishedBy, IsReaderSeat, IsReceived, IsWriter, MayReceive, MaySend};
ghost use Rattle.triple_buffer.specs.declared.rule.SeatView.TheVariants.{Reads, Spent, Writes};

use crate::latest::Latest;
use crate::rule::{Exchange, Right, SeatView};
use atomic_table::{Join, Play, Split, Table};
use es_base::Memory;
use std::alloc::{AllocError, Global};

/// Bit of the word: the reader hasn't taken the buffer between the ends.
const FRESH: u64 = 4;

/// The three buffers, and the word between the ends.
#[derive(Drop)]
pub(crate) struct Buffers {
    table: Table<Option<Latest>, SeatView, u64, Exchange, Global>,
    ghost word: { table.shared.table_id.words ≡ 1 },
}

/// The first seat is parted into the reader's and the writer's.
struct Part;

impl Split<SeatView> for Part {
    ghost left = { seat_parted };

    ghost right = { writer_left };
}

struct WriterEnters;

impl Play<Option<Latest>, SeatView> for WriterEnters {
    ghost then = { writer_enters };
}

struct ReaderEnters;

impl Play<Option<Latest>, SeatView> for ReaderEnters {
    ghost then = { reader_enters };
}

struct Published;

impl Play<Option<Latest>, SeatView> for Published {
    ghost then = { published };
}

struct Looked;

impl Play<Option<Latest>, SeatView> for Looked {
    ghost then = { looked };
}

struct Taken;

impl Play<Option<Latest>, SeatView> for Taken {
    ghost then = { taken };
}

struct Lend;

impl Split<SeatView> for Lend {
    ghost left = { λ _. Spent };

    ghost right = { λ v. v };
}

struct Both;

impl Join<SeatView> for Both {
    ghost both = { seats_met };

    ghost spent = { Spent };
}

struct Told;

impl Play<Option<Latest>, SeatView> for Told {
    ghost then = { reader_learns };
}

struct Regain;

impl Join<SeatView> for Regain {
    ghost both = { λ _ v. v };

    ghost spent = { Spent };
}

/// Opens the table over three empty buffers, with the right of each end. The writer's buffer is the first, the reader's
/// the third, which is handed out beside its right.
pub(crate) fn open(
    alloc: Global,
    longest: usize,
    three: Vec<Option<Latest>>,
) -> Result<(Buffers, Right, Right, Option<Latest>), Memory>
    requires { AreThree longest three.items }
    ensures table { IfOk result (λ t. (t.0.table.shared.key ≡ longest) × (t.1.table_id ≡ t.0.table.shared.table_id) × (t.2.table_id ≡ t.0.table.shared.table_id)) }
    ensures writer { IfOk result (λ t. IsWriter t.1.me 0 longest 0 × (t.1.me.0 ≡ Writes (record (writer_at_first longest) { has = true }))) }
    ensures reader { IfOk result (λ t. IsReaderSeat t.2.me 2 longest t.3 × (t.2.me.0 ≡ Reads (record (reader_at_first longest) { has = true }))) }
{
    let key = longest as u64;
    let (table, mut reader) = match Table::new(alloc, &[1u64], three, &key) {
        Ok(made) => made,
        Err(_) => return Err(AllocError),
    };
    let mut writer = table.shared.split_seat::<Part>(&mut reader);
    table.shared.load::<WriterEnters>(&mut writer, 0);
    table.shared.load::<ReaderEnters>(&mut reader, 0);
    let own = table.shared.exchange(&mut reader, 2, None);
    Ok((Buffers { table }, writer, reader, own))
}

/// Writes a message over the buffer in a place.
fn fill_place(place: &mut Option<Latest>, number: u64, time: u64, octets: &[u8])
    requires { (own : Latest) × (place.old ≡ Some own) × (length octets.now ≤ length own.octets.items) }
    ensures { IsFilled place.old place.new number (message time octets.now) }
{
    match place {
        Some(own) => own.write(number, time, octets),
        None => unreachable!(),
    }
}

impl Buffers {
    /// Writes a message over the writer's own buffer, in place. It is no step.
    pub(crate) fn fill(&self, right: &mut Right, slot: usize, number: u64, time: u64, octets: &[u8])
        requires table { right.old.table_id ≡ self.now.table.shared.table_id }
        requires has { (own : Latest) × (right.old.me.1 ≡ (slot, Some own) ∷ []) × (length octets.now ≤ length own.octets.items) }
        ensures table { (right.new.table_id ≡ right.old.table_id) × (right.new.me.0 ≡ right.old.me.0) }
        ensures filled { IsFilledAt right.old.me.1 right.new.me.1 slot number (message time octets.now) }
    {
        fill_place(
            right.slot_mut(&self.table.shared, slot),
            number,
            time,
            octets,
        );
    }

    /// Swaps the writer's buffer with the one between the ends: one exchange.
    pub(crate) fn send(&self, right: &mut Right, slot: usize) -> usize
        requires table { right.old.table_id ≡ self.now.table.shared.table_id }
        requires sends { MaySend self.now.table.shared.key right.old.me slot }
        ensures table { right.new.table_id ≡ right.old.table_id }
        ensures sent { (own : Latest) × (right.old.me.1 ≡ (slot, Some own) ∷ []) × IsPublishedBy self.now.table.shared.key right.old.me right.new.me own result }
    {
        let found = self
            .table
            .shared
            .swap::<Published>(right, 0, slot as u64 + FRESH);
        (found % FRESH) as usize
    }

    /// Whether the buffer between the ends is newer than the reader's own: one load.
    pub(crate) fn look(&self, right: &mut Right) -> bool
        requires table { right.old.table_id ≡ self.now.table.shared.table_id }
        requires reader { right.old.me.0 ≡ Reads (reader_in right.old.me.0) }
        ensures table { (right.new.table_id ≡ right.old.table_id) × (right.new.me.1 ≡ right.old.me.1) }
        ensures newer { IsTrue result → right.new.me.0 ≡ Reads (sees_newer (reader_in right.old.me.0)) }
        ensures all { IsFalse result → (right.new.me.0 ≡ Reads (sees_all (reader_in right.old.me.0))) × StartsWith (reader_in right.old.me.0).seen (reader_in right.old.me.0).known }
    {
        self.table.shared.load::<Looked>(right, 0) >= FRESH
    }

    /// Swaps the reader's buffer with the newer one between the ends: one exchange.
    pub(crate) fn receive(
        &self,
        right: &mut Right,
        slot: usize,
        own: Option<Latest>,
    ) -> (usize, Option<Latest>)
        requires table { right.old.table_id ≡ self.now.table.shared.table_id }
        requires newer { MayReceive self.now.table.shared.key right.old.me slot own }
        ensures table { right.new.table_id ≡ right.old.table_id }
        ensures received { IsReceived self.now.table.shared.key right.old.me right.new.me result.0 result.1 }
    {
        self.table.shared.exchange(right, slot, own);
        let found = self.table.shared.swap::<Taken>(right, 0, slot as u64);
        let slot = (found % FRESH) as usize;
        (slot, self.table.shared.exchange(right, slot, None))
    }

    /// Joins the writer's right with the reader's, which then knows all that was published, and parts them again.
    pub(crate) fn meet(&self, writer: &mut Right, reader: &mut Right)
        requires table { (writer.old.table_id ≡ self.now.table.shared.table_id) × (reader.old.table_id ≡ self.now.table.shared.table_id) }
        requires writer { writer.old.me.0 ≡ Writes (writer_in writer.old.me.0) }
        requires reader { reader.old.me.0 ≡ Reads (reader_in reader.old.me.0) }
        ensures table { (writer.new.table_id ≡ writer.old.table_id) × (reader.new.table_id ≡ reader.old.table_id) }
        ensures writer { writer.new.me ≡ writer.old.me }
        ensures reader { reader.new.me ≡ (Reads (with_known (reader_in reader.old.me.0) (writer_in writer.old.me.0).published), reader.old.me.1) }
        ensures before { StartsWith (writer_in writer.old.me.0).published (reader_in reader.old.me.0).known }
    {
        let shared = &self.table.shared;
        let lent = shared.split_seat::<Lend>(writer);
        shared.join_seat::<Both>(reader, lent);
        shared.load::<Told>(reader, 0);
        let back = shared.split_seat::<Part>(reader);
        shared.join_seat::<Regain>(writer, back);
    }
}
