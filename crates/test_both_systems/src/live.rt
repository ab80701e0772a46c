//! The system that keeps no frame: what it is lent, its replies and its ends.
use crate::made::{Burst, number_at};
use end_system::Reply as KeptReply;
use es_base::FilterCause::TooLong;
use es_base::LinkNo;
use live_system::{MailboxReader, Reply, RingTaker};
use receiver::Reading;
use std::alloc::Global;
use std::process::Abort;

/// Numbers of groups that the systems are opened with. Past the number of links each link is a group of its own.
pub(crate) const GROUPS: [usize; 3] = [1, 2, 64];

/// Reply of an entry before a burst, which no frame of these tests gets.
pub(crate) const NOTHING: Reply = Reply::Filtered(TooLong);

/// The frames of a burst as they are lent.
pub(crate) fn lent<'a>(rt: &impl Abort, alloc: Global, burst: &'a Burst) -> Vec<(u64, &'a [u8])> {
    let mut frames = Vec::new(alloc);
    for (time, octets) in &burst.frames {
        frames.push((*time, octets.as_slice())).expect(rt, "memory");
    }
    frames
}

/// The reply that a system with histories gives where one that keeps no frame gives this.
pub(crate) fn without_index(rt: &impl Abort, reply: Reply) -> KeptReply {
    match reply {
        Reply::Filtered(cause) => KeptReply::Filtered(cause),
        Reply::Link {
            at,
            vl,
            place,
            verdict,
        } => {
            assert!(rt; vl == LinkNo(number_at(at)), "{at}");
            KeptReply::Link { vl, place, verdict }
        }
    }
}

/// The number, the time and the length of the newest message of a sampling port, whose octets are copied.
pub(crate) fn read(reader: &mut MailboxReader, out: &mut [u8; 1471]) -> Option<(u64, u64, usize)> {
    match reader.read(0, out) {
        Reading::Message {
            number,
            time,
            len,
            ..
        } => Some((number, time, len)),
        Reading::Empty => None,
    }
}

/// The time and the length of the next message of a queue, whose octets are copied.
pub(crate) fn take(
    rt: &impl Abort,
    taker: &mut RingTaker,
    out: &mut [u8; 8192],
) -> Option<(u64, usize)> {
    assert!(rt; taker.max() <= out.len());
    let taken = taker.take(out)?;
    Some((taken.time, taken.len))
}
