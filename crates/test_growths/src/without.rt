//! Calls that take no memory. Before the first of them a growth of `MARK` octets is asked for: whoever refuses growths
//! refuses each that comes after it.
ghost use Rattle.std.specs.Prelude.{◌≡◌, ◌≤◌};
ghost use Rattle.sampling_port.specs.Ends.{new_readers};

use crate::cases::{Case, joined, overflowed};
use crate::refusal::OWN;
use end_system::{NoGate, Reply};
use es_base::Net::{A, B};
use es_base::{FilterCause, Message, Octets};
use frame_reader::{Packet, read_frame, read_packet};
use ip_reassembly::{Offered, Reassembly};
use mailbox_port::{MOST_MESSAGES, MailboxReader, ReaderCount, open_mailboxes};
use message_ring::open_ring;
use queuing_port::{Putter, Taker, open_queue};
use receiver::{PortOutlet, Reading, Receiver, RingTaker, Taken, VerdictKind};
use sampling_port::{
    MOST_TRIES, PartitionReader, Read, Reader, Reading as ReadingOfPort, Writer, meet, open_port,
};
use slot_core::READERS;
use std::alloc::Global;
use std::process::Abort;
use std::sync::Wait;
use test_inputs::CONSTANT;
use test_inputs_end_system::Running;
use test_inputs_live_system::Live;

/// Number of octets of the growth that refused ones follow.
const MARK: usize = 1_000_003;

/// From here on each growth is refused.
pub(crate) fn mark(rt: &impl Abort, alloc: Global) {
    let octets = Vec::<u8>::with_capacity(alloc, MARK).expect(rt, OWN);
    assert!(rt; octets.is_empty());
}

// ---- a sampling port

fn check_read(rt: &impl Abort, reader: &mut Reader<READERS>, number: u64) {
    let mut out = [0; 1471];
    let (time, len) = (1000, 3);
    let wanted = Read::Message { number, time, len };
    assert_eq!(rt; reader.read(MOST_TRIES, &mut out), wanted);
    assert!(rt; out[..3] == [7, 8, 9]);
}

/// The reader holds the newest message, and gives it back.
fn check_held(rt: &impl Abort, reader: Reader<READERS>, number: u64) {
    match reader.hold(MOST_TRIES) {
        Ok(mut held) => {
            assert!(rt; held.number() == number && held.time() == 1000 && held.len() == 3);
            let mut reader = held.release();
            check_read(rt, &mut reader, number);
        }
        Err(_) => panic!(rt; "a message"),
    }
}

/// The first two readers of a port.
fn first_two(readers: [Reader<READERS>; READERS]) -> (Reader<READERS>, Reader<READERS>) {
    let [first, second, c, d, e, f, g, h] = readers;
    drop((c, d, e, f, g, h));
    (first, second)
}

/// The ends of a sampling port.
type Ends<const COUNT: usize> = (Writer<COUNT>, [Reader<COUNT>; COUNT]);

fn open<const COUNT: usize>(rt: &impl Abort, alloc: Global) -> Ends<COUNT>
    requires { COUNT ≤ 14 }
    ensures { result.1 ≡ new_readers result.0.port COUNT }
{
    open_port::<COUNT>(alloc).expect(rt, OWN)
}

fn check_port(rt: &impl Abort, alloc: Global) {
    let (mut writer, mut readers) = open::<READERS>(rt, alloc);
    mark(rt, alloc);
    meet(&mut writer, &mut readers[0]);
    for number in 1..=20 {
        assert_eq!(rt; writer.publish(1000, &[7, 8, 9]), Ok(number));
    }
    let (mut first, second) = first_two(readers);
    check_read(rt, &mut first, 20);
    check_held(rt, second, 20);
}

// rule: EMB-40
#[test]
fn a_sampling_port_is_used(rt: HostRuntime) {
    check_port(&rt, rt.alloc());
}

// ---- a queue

/// A message of one octet, which is the time at which it came.
fn message_of(rt: &impl Abort, alloc: Global, time: u8) -> Message {
    Message {
        time: u64::from(time),
        octets: Octets::copy_of(alloc, &[time]).expect(rt, OWN),
    }
}

fn check_put(rt: &(impl Abort + Wait), putter: &mut Putter, message: Message, has_room: bool) {
    assert!(rt; putter.put(rt, message).is_ok() == has_room);
}

fn check_taken(rt: &(impl Abort + Wait), taker: &mut Taker, time: u8) {
    let message = taker.take(rt).expect(rt, "a message");
    assert!(rt; message.time == u64::from(time) && message.octets.as_slice() == [time].as_slice());
}

fn check_queue(rt: &(impl Abort + Wait), alloc: Global) {
    let (mut putter, mut taker) = open_queue(alloc, 2).ok().expect(rt, OWN);
    let first = message_of(rt, alloc, 1);
    let second = message_of(rt, alloc, 2);
    let third = message_of(rt, alloc, 3);
    mark(rt, alloc);
    check_put(rt, &mut putter, first, true);
    check_put(rt, &mut putter, second, true);
    check_put(rt, &mut putter, third, false);
    check_taken(rt, &mut taker, 1);
    check_taken(rt, &mut taker, 2);
    assert!(rt; taker.take(rt).is_none());
}

// rule: EMB-40
#[test]
fn a_queue_is_used(rt: HostRuntime) {
    check_queue(&rt, rt.alloc());
}

// ---- reassembly

fn packet_of<'a>(rt: &impl Abort, octets: &'a [u8]) -> Packet<'a> {
    let frame = read_frame(CONSTANT, octets).expect(rt, "a frame");
    read_packet(&frame).expect(rt, "a packet")
}

/// Whether a datagram is whole.
fn is_whole(offered: &Offered<'_>) -> bool {
    matches!(offered, Offered::Whole { .. })
}

fn check_reassembly(rt: &impl Abort, alloc: Global, case: &Case) {
    let mut reassembly = Reassembly::new(alloc, 50_000).expect(rt, OWN);
    mark(rt, alloc);
    let last = case.rows.len().wrapping_sub(1);
    for (place, row) in case.rows.iter().enumerate() {
        let packet = packet_of(rt, &row.octets);
        let offered = reassembly.offer(&packet, row.time);
        assert!(rt; is_whole(&offered) == (place == last));
    }
}

// rule: EMB-40
#[test]
fn packets_are_joined(rt: HostRuntime) {
    check_reassembly(&rt, rt.alloc(), &joined(&rt, rt.alloc()));
}

// ---- a system

/// A frame that is too short is filtered, and then the system settles.
fn check_system(rt: &(impl Abort + Wait), alloc: Global, case: &Case) {
    let mut running = Running::open(alloc, &case.config, NoGate).expect(rt, OWN);
    for row in &case.rows {
        let received = running.receive(rt, alloc, A, row.time, &row.octets);
        assert!(rt; received.expect(rt, OWN) != Reply::Filtered(FilterCause::TooShort));
    }
    mark(rt, alloc);
    let reply = running.receive(rt, alloc, A, 2000, &[0; 59]);
    assert!(rt; reply.expect(rt, "a reply") == Reply::Filtered(FilterCause::TooShort));
    assert!(rt; running.pass(A).filtered(FilterCause::TooShort) == 1);
    for link in &running.settle().links {
        assert!(rt; link.history().len() == case.rows.len());
    }
}

// rule: EMB-40
#[test]
fn a_filtered_frame_is_received_and_a_system_settles(rt: HostRuntime) {
    check_system(&rt, rt.alloc(), &joined(&rt, rt.alloc()));
}

// ---- a queue in memory that is taken when it is opened

fn check_ring(rt: &impl Abort, alloc: Global) {
    let (mut putter, mut taker) = open_ring(alloc, 2, 3).ok().expect(rt, OWN);
    let mut out = [0; 3];
    mark(rt, alloc);
    assert!(rt; putter.has_room());
    putter.put(1, &[7, 8, 9], 0);
    assert!(rt; putter.has_room());
    putter.put(2, &[7], 5);
    assert!(rt; !putter.has_room());
    message_ring::meet(&mut putter, &mut taker);
    assert!(rt;
        taker.take(&mut out)
            == Some(Taken {
                time: 1,
                len: 3,
                lost: 0
            })
            && out == [7, 8, 9]
    );
    assert!(rt;
        taker.take(&mut out)
            == Some(Taken {
                time: 2,
                len: 1,
                lost: 5
            })
    );
    assert!(rt; taker.take(&mut out).is_none());
}

// rule: EMB-1, EMB-40
#[test]
fn a_ring_is_used(rt: HostRuntime) {
    check_ring(&rt, rt.alloc());
}

// ---- a partition that only reads

fn check_reading(rt: &impl Abort, reading: ReadingOfPort, wanted: u64) {
    match reading {
        ReadingOfPort::Message { number, .. } => assert!(rt; number == wanted),
        _ => panic!(rt; "a message"),
    }
}

fn check_partition(rt: &impl Abort, alloc: Global) {
    let (mut writer, readers) = open::<READERS>(rt, alloc);
    let (first, second) = first_two(readers);
    mark(rt, alloc);
    drop(second);
    let mut reader = PartitionReader::new(first, 20_000, 16);
    let mut out = [0; 16];
    assert!(rt; reader.read(1000, &mut out) == ReadingOfPort::Empty);
    assert_eq!(rt; writer.publish(1000, &[7, 8, 9]), Ok(1));
    check_reading(rt, reader.read(1000, &mut out), 1);
    match reader.hold() {
        Ok(mut held) => {
            if held.len() >= 2 {
                held.copy_range(1, &mut out[..1]);
            }
            let mut reader = held.release();
            check_reading(rt, reader.read(2000, &mut out), 1);
        }
        Err(_) => panic!(rt; "a message"),
    }
}

// rule: EMB-40
#[test]
fn a_partition_reads(rt: HostRuntime) {
    check_partition(&rt, rt.alloc());
}

// ---- a mailbox

fn check_mailbox(rt: &impl Abort, alloc: Global) {
    let readers = ReaderCount::new(2).expect(rt, "1 to 8");
    let (mut writer, mut mailboxes) = open_mailboxes(alloc, 16, readers).expect(rt, OWN);
    let mailbox = mailboxes.pop().expect(rt, "a mailbox");
    mark(rt, alloc);
    drop(mailboxes);
    let mut reader = MailboxReader::new(mailbox, 20_000);
    let mut out = [0; 16];
    assert!(rt; reader.read(1000, &mut out) == Reading::Empty);
    assert!(rt; writer.longest() >= 3 && writer.published() < MOST_MESSAGES);
    assert!(rt; writer.publish(1000, &[7, 8, 9]) == 1);
    assert!(rt; reader.read(1000, &mut out) != Reading::Empty && out[2] == 9);
    reader.update();
    assert!(rt; reader.latest().is_some());
}

// rule: EMB-1, EMB-40
#[test]
fn a_mailbox_is_read(rt: HostRuntime) {
    check_mailbox(&rt, rt.alloc());
}

// ---- a receiver for one task

/// A receiver of the case's configuration, a reader of `pos`, and the taker of `nav`.
fn open_receiver(
    rt: &impl Abort,
    alloc: Global,
    case: &Case,
) -> (Receiver<PortOutlet>, MailboxReader, RingTaker) {
    let readers = ReaderCount::most();
    let mut opened = Receiver::<PortOutlet>::open(alloc, &case.config, readers).expect(rt, OWN);
    let reader = opened.take_reader("pos").expect(rt, "a reader");
    let taker = opened.take_taker("nav").expect(rt, "a taker");
    (opened.receiver, reader, taker)
}

/// The frames come on both networks, again and again, with all that partitions do and all counts between them.
fn check_receiver(rt: &impl Abort, alloc: Global, case: &Case) {
    let (mut receiver, mut reader, mut taker) = open_receiver(rt, alloc, case);
    let mut out = [0; 8192];
    let mut taken = 0u64;
    mark(rt, alloc);
    for _ in 0..100 {
        for row in &case.rows {
            let _reply = receiver.receive(A, row.time, &row.octets);
            let _reply = receiver.receive(B, row.time, &row.octets);
            let _reading = reader.read(row.time, &mut out);
        }
        if taker.max() <= out.len() && taker.take(&mut out).is_some() {
            taken = taken.wrapping_add(1);
        }
        let _reply = receiver.receive(A, 2000, &[0; 59]);
    }
    assert!(rt; taken > 0 && receiver.filtered(A, FilterCause::TooShort) == 100);
    let link = receiver.link(0).expect(rt, "a link");
    assert!(rt; link.count(B, VerdictKind::Redundant) == link.tally().count(B, 2));
    assert!(rt; link.received() == (case.rows.len() as u64).wrapping_mul(200));
}

// rule: EMB-1, EMB-40
#[test]
fn a_receiver_for_one_task_is_used(rt: HostRuntime) {
    check_receiver(&rt, rt.alloc(), &joined(&rt, rt.alloc()));
}

// rule: EMB-1, EMB-40
#[test]
fn a_receiver_for_one_task_with_a_full_queue_is_used(rt: HostRuntime) {
    check_receiver(&rt, rt.alloc(), &overflowed(&rt, rt.alloc()));
}

// ---- a system that keeps no frame

/// The case's frames as they are lent.
fn lent<'a>(rt: &impl Abort, alloc: Global, case: &'a Case) -> Vec<(u64, &'a [u8])> {
    let mut frames = Vec::new(alloc);
    for row in &case.rows {
        frames
            .push((row.time, row.octets.as_slice()))
            .expect(rt, OWN);
    }
    frames
}

/// The frames come one by one on network A, and at once on B.
fn give_both(
    rt: &impl Wait,
    live: &mut Live,
    frames: &[(u64, &[u8])],
    replies: &mut [live_system::Reply],
) -> usize {
    for (time, octets) in frames {
        let _reply = live.receive(rt, A, *time, octets);
    }
    live.receive_all(rt, B, frames, replies)
}

/// The frames come again and again, with all that partitions do between them; the system settles, and is looked at.
fn check_live(rt: &(impl Abort + Wait), alloc: Global, case: &Case) {
    let mut live = Live::open(alloc, &case.config).expect(rt, OWN);
    let mut reader = live.take_reader("pos").expect(rt, "a reader");
    let mut taker = live.take_taker("nav").expect(rt, "a taker");
    let frames = lent(rt, alloc, case);
    let mut replies = [live_system::Reply::Filtered(FilterCause::TooShort); 32];
    let mut out = [0; 8192];
    mark(rt, alloc);
    for _ in 0..100 {
        let many = give_both(rt, &mut live, &frames, &mut replies);
        assert!(rt; many == frames.len());
        let _reading = reader.read(2000, &mut out);
        if taker.max() <= out.len() {
            let _taken = taker.take(&mut out);
        }
    }
    let settled = live.settle();
    for link in &settled.links {
        assert!(rt; link.received() == (frames.len() as u64).wrapping_mul(200));
        assert!(rt; settled.b.count(link.settings().vl(), 2) > 0);
    }
}

// rule: EMB-40
#[test]
fn a_system_that_keeps_no_frame_is_used(rt: HostRuntime) {
    check_live(&rt, rt.alloc(), &joined(&rt, rt.alloc()));
}
