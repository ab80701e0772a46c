//! Synchronization of a reader with the writer, by a thread that has both ends.
ghost use Rattle.std.specs.Prelude.{◌≡◌, ℕ, ◌<◌};
ghost use Rattle.slot_core.specs.declared.view.Phase.TheVariants.{Idle};
ghost use Rattle.slot_core.specs.State.{StartsWithSeen};
ghost use Rattle.sampling_port.specs.Ends.{IsSameEnd, ReadsLast, is_told};
ghost use Rattle.sampling_port.specs.Plays.{learns, met, parted, place_at, reader_of, tells_published, writer_again, writer_of};
ghost use Rattle.sampling_port.specs.Seats.{reader_with};
ghost use Rattle.sampling_port.specs.declared.rule.SeatView.TheVariants.{Reads, Spent, Writes};

use crate::reader::{MOST_TRIES, Read, Reader};
use crate::reader_seat::ReaderSeat;
use crate::rule::{PortTable, Right, SeatView};
use crate::writer::Writer;
use crate::writer_seat::WriterSeat;
use atomic_table::{Join, Play, Split};

struct Lend;

impl Split<SeatView> for Lend {
    ghost left = { λ _. Spent };

    ghost right = { λ v. v };
}

struct Both;

impl Join<SeatView> for Both {
    ghost both = { met };

    ghost spent = { Spent };
}

struct Told;

impl Play<(), SeatView> for Told {
    ghost then = { tells_published };
}

struct PartAgain;

impl Split<SeatView> for PartAgain {
    ghost left = { parted };

    ghost right = { writer_again };
}

struct Regain;

impl Join<SeatView> for Regain {
    ghost both = { λ _ v. v };

    ghost spent = { Spent };
}

/// Joins the writer's right with the reader's, which then knows all that was published, and parts them
/// again.
fn meet_rights<const READERS: usize>(
    table: &PortTable<READERS>,
    writer: &mut Right,
    reader: &mut Right,
)
    requires table { (writer.old.table_id ≡ table.now.shared.table_id) ×
        (reader.old.table_id ≡ table.now.shared.table_id) × (0 < table.now.shared.table_id.words) }
    requires writer { writer.old.me.0 ≡ Writes (writer_of writer.old.me.0) }
    requires reader { reader.old.me.0 ≡ Reads (place_at reader.old.me.0) (reader_of reader.old.me.0) }
    requires idle { (reader_of reader.old.me.0).view.phase ≡ Idle }
    ensures table { (writer.new.table_id ≡ writer.old.table_id) × (reader.new.table_id ≡ reader.old.table_id) }
    ensures writer { writer.new.me.0 ≡ writer.old.me.0 }
    ensures reader { reader.new.me.0 ≡
        Reads (place_at reader.old.me.0) (learns (reader_of reader.old.me.0) (writer_of writer.old.me.0).view.published) }
    ensures before { StartsWithSeen (writer_of writer.old.me.0).view.published (reader_of reader.old.me.0).view.seen }
{
    let lent = table.shared.split_seat::<Lend>(writer);
    table.shared.join_seat::<Both>(reader, lent);
    table.shared.load::<Told>(reader, 0);
    let back = table.shared.split_seat::<PartAgain>(reader);
    table.shared.join_seat::<Regain>(writer, back);
}

fn meet_seats<const READERS: usize>(
    writer: &mut WriterSeat<READERS>,
    reader: &mut ReaderSeat<READERS>,
)
    requires port { reader.old.port ≡ writer.old.port }
    requires idle { reader.old.knows.view.phase ≡ Idle }
    ensures reader { reader.new ≡ reader_with reader.old (learns reader.old.knows writer.old.knows.view.published) }
    ensures writer { writer.new ≡ writer.old }
    ensures before { StartsWithSeen writer.old.knows.view.published reader.old.knows.view.seen }
{
    meet_rights(&reader.table, &mut writer.right, &mut reader.right);
}

/// Synchronizes a reader of this writer's port: it then knows all that was published. What it had seen
/// is a beginning of that. The words of the port stay as they are, and no step is counted.
///
/// ```rust
/// meet(writer, reader);
/// match reader.read(1, &mut [0; 1471]) {
///     Read::Empty => unreachable!(),
///     answer => assert!(rt; answer == wanted, "{answer:?}"),
/// }
/// ```
pub fn meet<const READERS: usize>(writer: &mut Writer<READERS>, reader: &mut Reader<READERS>)
    requires { reader.old.port ≡ writer.old.port }
    ensures reader { reader.new ≡ is_told reader.old writer.old.published }
    ensures writer { writer.new ≡ writer.old }
    ensures before { StartsWithSeen writer.old.published reader.old.seen }
{
    meet_seats(&mut writer.seat, &mut reader.seat);
}

/// Reads the last message, with a reader of this writer's port that meets the writer before and after
/// the read. So nothing newer was published while it read, and it found the last message, or none if
/// none was published.
///
/// ```rust
/// publish(rt, writer, 1000, &[7, 8, 9], 1);
/// assert_eq!(rt; read_last(writer, reader, &mut out), message(1, 1000, 3));
/// ```
pub fn read_last<const READERS: usize>(
    writer: &mut Writer<READERS>,
    reader: &mut Reader<READERS>,
    out: &mut [u8; 1471],
) -> Read
    requires { reader.old.port ≡ writer.old.port }
    ensures end { IsSameEnd reader.old reader.new }
    ensures writer { writer.new ≡ writer.old }
    ensures seen { reader.new.seen ≡ writer.old.published }
    ensures last { ReadsLast writer.old.published out.old out.new result }
{
    meet(writer, reader);
    let answer = reader.read(MOST_TRIES, out);
    meet(writer, reader);
    answer
}
