//! The seats of a port's ends, and the ends that are made of them.
ghost use Rattle.std.specs.Prelude.{◌≡◌, ◌≢◌, ◌<◌, ◌≤◌, [], ◌∷◌, Some, slice_get};
ghost use Rattle.slot_core.specs.Allowed.{MayBegin};
ghost use Rattle.slot_core.specs.Message.{IsMessage};
ghost use Rattle.slot_core.specs.State.{last_of};
ghost use Rattle.slot_core.specs.declared.view.Phase.TheVariants.{Holding, Loaded};
ghost use Rattle.sampling_port.specs.Reads.{IsIdle};
ghost use Rattle.sampling_port.specs.Rule.{first_reader, new_writer_log};

use crate::messages::{check_read, publish};
use sampling_port::steps::{ReaderSeat, WriterSeat, open_seats};
use sampling_port::{Read, Reader, Writer};
use std::process::Abort;

// ---- a reader's steps

/// LoadFirst finds this word.
pub(crate) fn load_first<const READERS: usize>(
    rt: &impl Abort,
    reader: &mut ReaderSeat<READERS>,
    wanted: u64,
)
    requires turn { MayBegin reader.old.knows.view }
    requires some { 0 < wanted }
    ensures { reader.new.knows.view.phase ≡ Loaded wanted }
{
    let found = reader.load_first();
    assert!(rt; found == wanted, "{found}");
}

/// Announce, and LoadSecond finds this other word.
pub(crate) fn look_again<const READERS: usize>(
    rt: &impl Abort,
    reader: &mut ReaderSeat<READERS>,
    word: u64,
    wanted: u64,
)
    requires turn { reader.old.knows.view.phase ≡ Loaded word }
    ensures own { reader.new.knows.view.own ≡ word }
    ensures loaded { wanted ≢ word → reader.new.knows.view.phase ≡ Loaded wanted }
{
    reader.announce(word);
    let found = reader.load_second();
    assert!(rt; found == wanted, "{found}");
}

// ---- publications by a writer of a seat

fn publish_five_more<const READERS: usize>(rt: &impl Abort, writer: &mut Writer<READERS>) {
    for number in 2..7 {
        publish(rt, writer, 0, &[], number);
    }
}

/// A reader that comes late with its announcement finds the newest message, and so does its next look.
fn check_late_look<const READERS: usize>(
    rt: &impl Abort,
    writer: WriterSeat<READERS>,
    seat: &mut ReaderSeat<READERS>,
)
    requires few { READERS ≤ 14 }
    requires writer { writer.knows ≡ new_writer_log }
    requires reader { seat.old.knows ≡ first_reader }
{
    let mut writer = Writer::from_seat(writer);
    publish(rt, &mut writer, 0, &[], 1);
    load_first(rt, seat, 16);
    publish_five_more(rt, &mut writer);
    look_again(rt, seat, 16, 97);
    seat.clear();
    load_first(rt, seat, 97);
}

// rule: SAMP-23
#[test]
fn a_late_look_finds_the_newest_message(rt: HostRuntime) {
    let (writer, mut seats) = open_seats::<4>(rt.alloc()).expect(&rt, "memory");
    check_late_look(&rt, writer, &mut seats[0]);
    let (writer, mut seats) = open_seats::<8>(rt.alloc()).expect(&rt, "memory");
    check_late_look(&rt, writer, &mut seats[0]);
}

// ---- a reader that is overtaken at each of its tries

/// A message of this number is published, and the next look finds its word in place of the one that it announced.
fn overtake<const READERS: usize>(
    rt: &impl Abort,
    writer: &mut Writer<READERS>,
    seat: &mut ReaderSeat<READERS>,
    number: u64,
    word: u64,
    wanted: u64,
)
    requires turn { seat.old.knows.view.phase ≡ Loaded word }
    requires other { wanted ≢ word }
    ensures own { seat.new.knows.view.own ≡ word }
    ensures loaded { seat.new.knows.view.phase ≡ Loaded wanted }
{
    publish(rt, writer, 0, &[], number);
    look_again(rt, seat, word, wanted);
}

/// The looks of a read with eight tries, each of which finds a newer message: it is Busy, and the newest that it saw is
/// message 9. No slot that it announced is written: the messages go into the slots 0, 1, 2, 0, 2, 1, 0, 2, 1.
fn overtake_eight_times<const READERS: usize>(
    rt: &impl Abort,
    writer: &mut Writer<READERS>,
    seat: &mut ReaderSeat<READERS>,
)
    requires { seat.old.knows ≡ first_reader }
    ensures { seat.new.knows.view.own ≢ 0 }
{
    publish(rt, writer, 0, &[], 1);
    load_first(rt, seat, 16);
    overtake(rt, writer, seat, 2, 16, 33);
    overtake(rt, writer, seat, 3, 33, 50);
    overtake(rt, writer, seat, 4, 50, 64);
    overtake(rt, writer, seat, 5, 64, 81);
    overtake(rt, writer, seat, 6, 81, 98);
    overtake(rt, writer, seat, 7, 98, 112);
    overtake(rt, writer, seat, 8, 112, 129);
    overtake(rt, writer, seat, 9, 129, 146);
}

/// After Clear, the last step of such a read, the reader of the seat gets message 9.
fn check_overtaken<const READERS: usize>(
    rt: &impl Abort,
    writer: WriterSeat<READERS>,
    mut seat: ReaderSeat<READERS>,
)
    requires few { READERS ≤ 14 }
    requires writer { writer.knows ≡ new_writer_log }
    requires reader { seat.knows ≡ first_reader }
{
    let mut writer = Writer::from_seat(writer);
    overtake_eight_times(rt, &mut writer, &mut seat);
    seat.clear();
    let wanted = Read::Message {
        number: 9,
        time: 0,
        len: 0,
    };
    check_read(rt, &mut Reader::from_seat(seat), &mut [0; 1471], wanted);
}

// rule: SAMP-14, SAMP-23, EMB-36
#[test]
fn a_reader_that_is_overtaken_at_each_try_is_busy(rt: HostRuntime) {
    let (writer, seats) = open_seats::<4>(rt.alloc()).expect(&rt, "memory");
    let (seat, _, _, _) = apart(seats);
    check_overtaken(&rt, writer, seat);
    let (writer, seats) = open_seats::<8>(rt.alloc()).expect(&rt, "memory");
    let (_, seats) = apart_eight(seats);
    let (_, _, _, seat) = seats;
    check_overtaken(&rt, writer, seat);
}

// ---- ends of seats

/// The seats of four readers, each by itself.
type FourSeats<const READERS: usize> = (
    ReaderSeat<READERS>,
    ReaderSeat<READERS>,
    ReaderSeat<READERS>,
    ReaderSeat<READERS>,
);

/// The seats of the readers of a port with four.
fn apart(seats: [ReaderSeat<4>; 4]) -> FourSeats<4>
    ensures { seats ≡ result.0 ∷ result.1 ∷ result.2 ∷ result.3 ∷ [] }
{
    let [first, second, third, last] = seats;
    (first, second, third, last)
}

/// The seats of the first four readers of a port with eight, and of the others.
fn apart_eight(seats: [ReaderSeat<8>; 8]) -> (FourSeats<8>, FourSeats<8>)
    ensures last { slice_get seats 7 ≡ Some result.1.3 }
{
    let [a, b, c, d, e, f, g, h] = seats;
    ((a, b, c, d), (e, f, g, h))
}

/// LoadFirst, Announce and LoadSecond find this word, so the message that it shows is held.
fn hold<const READERS: usize>(rt: &impl Abort, seat: &mut ReaderSeat<READERS>, word: u64)
    requires turn { MayBegin seat.old.knows.view }
    requires some { 0 < word }
    ensures holds { (seat.new.knows.view.phase ≡ Holding word) × (seat.new.knows.view.own ≡ word) }
    ensures message { IsMessage (last_of seat.new.knows.view.seen) }
{
    load_first(rt, seat, word);
    seat.announce(word);
    let found = seat.load_second();
    assert!(rt; found == word, "{found}");
}

/// The words of message 1 in slot 0, of the octets 7, 8 and 9 and the time 1000, are loaded one by one.
fn check_held_words<const READERS: usize>(rt: &impl Abort, mut seat: ReaderSeat<READERS>)
    requires { MayBegin seat.knows.view }
{
    hold(rt, &mut seat, 16);
    assert_eq!(rt; seat.load_word(16, 0), 3);
    assert_eq!(rt; seat.load_word(16, 1), 1000);
    assert_eq!(rt; seat.load_word(16, 2), 0x0708_0900_0000_0000);
    seat.clear();
}

/// A reader of a seat reads, and hands the seat back. By the seat the message is held.
fn check_seat_again<const READERS: usize>(
    rt: &impl Abort,
    writer: WriterSeat<READERS>,
    seat: ReaderSeat<READERS>,
)
    requires few { READERS ≤ 14 }
    requires writer { writer.knows ≡ new_writer_log }
    requires reader { IsIdle seat.knows.view }
{
    let mut writer = Writer::from_seat(writer);
    let mut reader = Reader::from_seat(seat);
    publish(rt, &mut writer, 1000, &[7, 8, 9], 1);
    let message = Read::Message {
        number: 1,
        time: 1000,
        len: 3,
    };
    check_read(rt, &mut reader, &mut [0; 1471], message);
    check_held_words(rt, reader.into_seat());
}

// rule: SAMP-20
#[test]
fn an_end_is_made_of_a_seat_and_hands_it_back(rt: HostRuntime) {
    let (writer, seats) = open_seats::<4>(rt.alloc()).expect(&rt, "memory");
    let (seat, _, _, _) = apart(seats);
    check_seat_again(&rt, writer, seat);
    let (writer, seats) = open_seats::<8>(rt.alloc()).expect(&rt, "memory");
    let (_, seats) = apart_eight(seats);
    let (_, _, _, seat) = seats;
    check_seat_again(&rt, writer, seat);
}
