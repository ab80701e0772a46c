//! Frames that come at once, in rows of one link and with frames of no link between them.
use crate::running::{LINK_17, open};
use es_base::FilterCause::{TooLong, TooShort};
use es_base::Net::A;
use es_base::Verdict::Sampled;
use live_system::Reply;
use std::alloc::Global;
use std::process::Abort;
use std::sync::Wait;
use test_inputs::rows::POS;
use test_inputs::smallest;

/// Reply of an entry before a burst, which no frame of these tests gets.
pub(crate) const NOTHING: Reply = Reply::Filtered(TooLong);

/// Number of frames of a burst.
const MANY: u8 = 80;

/// Frames as they are lent.
pub(crate) fn lent<'a>(
    rt: &impl Abort,
    alloc: Global,
    frames: &'a [(u64, Vec<u8>)],
) -> Vec<(u64, &'a [u8])> {
    let mut all = Vec::new(alloc);
    for (time, octets) in frames {
        all.push((*time, octets.as_slice())).expect(rt, "memory");
    }
    all
}

/// Whether the frame with this number is too short: the third one, the fourth one and the fiftieth one.
fn is_short(number: u8) -> bool {
    number == 3 || number == 4 || number == 50
}

/// The smallest frames with the sequence numbers from 1 on, three of them an octet too short.
fn frames_of(rt: &impl Abort, alloc: Global) -> Vec<(u64, Vec<u8>)> {
    let mut frames = Vec::new(alloc);
    let mut sequence_number = 0u8;
    for number in 1..=MANY {
        if !is_short(number) {
            sequence_number = sequence_number.wrapping_add(1);
        }
        let mut octets = smallest(alloc, sequence_number).expect(rt, "octets");
        if is_short(number) {
            octets.truncate(59);
        }
        let frame = (u64::from(number) * 100, octets);
        frames.push(frame).expect(rt, "memory");
    }
    frames
}

/// These are the replies to as many frames, from the first on.
fn check_replies(rt: &impl Abort, replies: &[Reply]) {
    let (mut number, mut place) = (0u8, 0u64);
    for reply in replies {
        number = number.wrapping_add(1);
        if is_short(number) {
            assert!(rt; *reply == Reply::Filtered(TooShort), "{number}: {reply:?}");
        } else {
            let wanted = Reply::Link {
                at: 0,
                vl: LINK_17,
                place,
                verdict: Sampled(POS, place.wrapping_add(1)),
            };
            assert!(rt; *reply == wanted, "{number}: {reply:?}");
            place = place.wrapping_add(1);
        }
    }
}

/// A new system takes as many of the frames as there is room for, at most `most`; all other replies stay.
fn check_burst(rt: &(impl Abort + Wait), alloc: Global, room: usize, most: usize) {
    let frames = frames_of(rt, alloc);
    let lent = lent(rt, alloc, &frames);
    let mut running = open(rt, alloc);
    let mut replies = [NOTHING; 100];
    let given = replies.as_mut_slice().get_mut(..room).expect(rt, "room");
    let many = running.receive_all(rt, A, &lent, given);
    assert!(rt; many == most, "{many}");
    check_replies(rt, replies.as_slice().get(..many).expect(rt, "replies"));
    for reply in replies.iter().skip(many) {
        assert!(rt; *reply == NOTHING);
    }
    let settled = running.settle();
    assert!(rt;
        settled
            .a
            .calls(LINK_17)
            .wrapping_add(settled.a.filtered(TooShort))
            == most as u64
    );
}

fn check_rooms(rt: &(impl Abort + Wait), alloc: Global) {
    check_burst(rt, alloc, 100, 80);
    check_burst(rt, alloc, 80, 80);
    check_burst(rt, alloc, 79, 79);
    check_burst(rt, alloc, 1, 1);
    check_burst(rt, alloc, 0, 0);
}

// rule: EMB-32
#[test]
fn as_many_frames_of_a_burst_are_taken_as_there_is_room_for(rt: HostRuntime) {
    check_rooms(&rt, rt.alloc());
}
