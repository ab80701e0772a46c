//! What partitions read at the ports: each reader is one that the link handed out.
ghost use Rattle.std.specs.Prelude.{◌≡◌, List, Some, slice_get};
ghost use Rattle.std.specs.List.{All};
ghost use Rattle.sampling_port.specs.Ends.{ReaderEnd};
ghost use Rattle.link_receiver.specs.Ends.{IsOfItsPort};
ghost use Rattle.link_receiver.specs.Link.{Channel, samples};

use crate::frames::{check_frame, opened};
use es_base::Net::A;
use es_base::Verdict;
use link_receiver::{LinkState, PortEnd};
use sampling_port::{Held, MOST_TRIES, Read, Reader};
use slot_core::READERS;
use std::alloc::Global;
use std::process::Abort;
use std::sync::Wait;
use test_inputs::rows::POS;
use test_inputs::{IP, LINK, PAYLOAD, UDP};

/// The readers of the sampling port at place 0, which is called `pos`.
pub(crate) fn readers_in(rt: &impl Abort, end: PortEnd) -> [Reader<READERS>; READERS]
    ensures { (channels : List Channel) → IsOfItsPort channels end →
        All (λ (reader : ReaderEnd). slice_get channels 0 ≡ Some (samples reader.port)) result }
{
    match end {
        PortEnd::Sampling {
            port,
            name,
            readers,
        } => {
            assert!(rt; port.0 == 0 && name.as_str() == "pos");
            readers
        }
        PortEnd::Queuing {
            port: _,
            name: _,
            taker: _,
        } => panic!(rt; "a sampling port"),
    }
}

/// A new receiver of link 17, and the readers of `pos`.
pub(crate) fn opened_with_readers(
    rt: &impl Abort,
    alloc: Global,
) -> (LinkState, [Reader<READERS>; READERS])
    ensures { All (λ (reader : ReaderEnd). slice_get result.0.channels 0 ≡ Some (samples reader.port)) result.1 }
{
    let (state, mut ends) = opened(rt, alloc, LINK);
    let _ = ends.pop();
    let end = ends.pop().expect(rt, "an end");
    let readers = readers_in(rt, end);
    (state, readers)
}

/// A reader reads this message: its number, its time in microseconds, and its octets.
pub(crate) fn check_read(
    rt: &impl Abort,
    reader: &mut Reader<READERS>,
    (number, time): (u64, u64),
    octets: &[u8],
) {
    let mut out = [0; 1471];
    let len = octets.len();
    let wanted = Read::Message { number, time, len };
    assert_eq!(rt; reader.read(MOST_TRIES, &mut out), wanted);
    assert!(rt; out.starts_with(octets));
}

/// A reader finds that nothing was published.
pub(crate) fn check_empty(rt: &impl Abort, reader: &mut Reader<READERS>) {
    assert_eq!(rt; reader.read(MOST_TRIES, &mut [0; 1471]), Read::Empty);
}

/// The octets of `PAYLOAD`.
pub(crate) const OCTETS: [u8; 17] = [1, 2, 3, 4, 5, 6, 7, 8, 9, 10, 11, 12, 13, 14, 15, 16, 17];

/// The sequence number of a smallest frame, its time in microseconds, and the number of its message.
type Brought = (u8, u64, u64);

/// The frame brings its message to `pos`.
fn bring(rt: &(impl Abort + Wait), alloc: Global, state: &mut LinkState, brought: Brought)
    ensures { state.new.channels ≡ state.old.channels }
{
    let (sequence_number, time, number) = brought;
    let verdict = Verdict::Sampled(POS, number);
    let row = (A, time, sequence_number, IP, UDP, PAYLOAD, verdict);
    check_frame(rt, alloc, state, row);
}

fn check_all_read(rt: &(impl Abort + Wait), alloc: Global) {
    let (mut state, mut readers) = opened_with_readers(rt, alloc);
    for reader in &mut readers {
        check_empty(rt, reader);
    }
    bring(rt, alloc, &mut state, (0, 1000, 1));
    for reader in &mut readers {
        check_read(rt, reader, (1, 1000), &OCTETS);
    }
    bring(rt, alloc, &mut state, (1, 2000, 2));
    for reader in &mut readers {
        check_read(rt, reader, (2, 2000), &OCTETS);
    }
}

// rule: PORT-4, PORT-7
#[test]
fn every_reader_of_a_port_reads_the_newest_message(rt: HostRuntime) {
    check_all_read(&rt, rt.alloc());
}

/// A reader that meets the link reads the message just taken, at its first try.
fn check_meeting(
    rt: &impl Abort,
    state: &mut LinkState,
    reader: &mut Reader<READERS>,
    message: (u64, u64),
)
    requires { slice_get state.old.channels 0 ≡ Some (samples reader.old.port) }
    ensures state { state.new.channels ≡ state.old.channels }
    ensures reader { reader.new.port ≡ reader.old.port }
{
    state.meet(POS, reader);
    let (number, time) = message;
    let wanted = Read::Message {
        number,
        time,
        len: 17,
    };
    assert_eq!(rt; reader.read(1, &mut [0; 1471]), wanted);
}

fn check_meetings(rt: &(impl Abort + Wait), alloc: Global) {
    let (mut state, mut readers) = opened_with_readers(rt, alloc);
    bring(rt, alloc, &mut state, (0, 1000, 1));
    check_meeting(rt, &mut state, &mut readers[0], (1, 1000));
    bring(rt, alloc, &mut state, (1, 2000, 2));
    check_meeting(rt, &mut state, &mut readers[0], (2, 2000));
}

// rule: PORT-18
#[test]
fn a_reader_that_meets_its_link_reads_the_message_just_taken(rt: HostRuntime) {
    check_meetings(&rt, rt.alloc());
}

/// All readers hold the newest message.
fn held_by_all(
    rt: &impl Abort,
    alloc: Global,
    readers: [Reader<READERS>; READERS],
) -> Vec<Held<READERS>> {
    let mut all = Vec::new(alloc);
    for reader in readers {
        match reader.hold(1) {
            Ok(held) => all.push(held).expect(rt, "memory"),
            Err(_) => panic!(rt; "a message"),
        }
    }
    all
}

/// Twenty frames more bring messages 2 to 21, whatever the readers do.
fn bring_twenty(rt: &(impl Abort + Wait), alloc: Global, state: &mut LinkState) {
    for number in 1..21_u8 {
        let row = (number, 2000, u64::from(number) + 1);
        bring(rt, alloc, state, row);
    }
}

/// While all readers hold message 1 the link takes frames, and the message stays. After that a reader
/// reads the newest; the others are dropped, and the link takes frames still.
fn check_held(rt: &(impl Abort + Wait), alloc: Global) {
    let (mut state, readers) = opened_with_readers(rt, alloc);
    bring(rt, alloc, &mut state, (0, 1000, 1));
    let mut all = held_by_all(rt, alloc, readers);
    bring_twenty(rt, alloc, &mut state);
    for held in &mut all {
        assert_eq!(rt; (held.number(), held.time(), held.len()), (1, 1000, 17));
        assert_eq!(rt; held.word(0), 0x0102_0304_0506_0708);
        assert_eq!(rt; held.word(1), 0x090a_0b0c_0d0e_0f10);
        assert_eq!(rt; held.word(2), 0x1100_0000_0000_0000);
    }
    let mut reader = all.pop().expect(rt, "a reader").release();
    drop(all);
    bring(rt, alloc, &mut state, (21, 3000, 22));
    check_read(rt, &mut reader, (22, 3000), &OCTETS);
}

// rule: PORT-8
#[test]
fn a_link_takes_frames_while_all_readers_hold_and_after_they_are_dropped(rt: HostRuntime) {
    check_held(&rt, rt.alloc());
}
