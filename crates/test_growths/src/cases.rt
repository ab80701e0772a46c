//! Frames of link 17 on network A that bring each kind of growth about, and the messages that they leave in the queue.
use crate::refusal::OWN;
use es_base::Net::A;
use es_base::Verdict::{Overflow, Queued, Sampled};
use es_base::{Config, Verdict};
use std::alloc::Global;
use std::process::Abort;
use test_inputs::rows::{
    FrameRow, NAV, NAV_UDP, POS, five_begin, in_order, joined_for_a_sampling_port, last_first,
    packet_row, smallest_row,
};
use test_inputs::{ETHERNET, IP, PAYLOAD, frame_of};
use test_inputs_end_system::config_of;

/// A frame of link 17 on network A: its time in microseconds, its octets, and what becomes of it.
#[derive(Drop)]
pub(crate) struct Row {
    pub time: u64,
    pub octets: Vec<u8>,
    pub verdict: Verdict,
}

/// The links, the frames in order, and the times of the messages that wait in the queue of `nav` after them.
#[derive(Drop)]
pub(crate) struct Case {
    pub config: Config,
    pub rows: Vec<Row>,
    pub queued: Vec<u64>,
}

/// The built-in configuration, in which the queue of `nav` holds this many messages.
fn text_of(rt: &impl Abort, alloc: Global, depth: u8) -> String {
    format!(in alloc;
        "[[link]]\nvl = 17\nskew_max_us = 1000\nreassembly_us = 50000\n\n\
        [[link.port]]\nname = \"pos\"\nkind = \"sampling\"\naddress = \"224.224.0.17\"\n\
        udp = 5000\nrefresh_us = 20000\n\n\
        [[link.port]]\nname = \"nav\"\nkind = \"queuing\"\naddress = \"224.224.0.17\"\n\
        udp = 5002\ndepth = {depth}\n"
    )
    .expect(rt, OWN)
}

/// The built-in link with a queue of this depth, these frames, and the times of the messages that wait after them.
pub(crate) fn case_of(
    rt: &impl Abort,
    alloc: Global,
    depth: u8,
    rows: &[FrameRow<'_>],
    queued: &[u64],
) -> Case {
    let text = text_of(rt, alloc, depth);
    let mut case = Case {
        config: config_of(alloc, &[text.as_str()]).expect(rt, OWN),
        rows: Vec::with_capacity(alloc, rows.len()).expect(rt, OWN),
        queued: Vec::with_capacity(alloc, queued.len()).expect(rt, OWN),
    };
    case.queued.extend_from_slice(queued).expect(rt, OWN);
    for row in rows {
        let (_, time, number, ip, udp, payload, verdict) = *row;
        let octets = frame_of(alloc, &[ETHERNET, ip, udp, payload], number).expect(rt, OWN);
        let row = Row {
            time,
            octets,
            verdict,
        };
        case.rows.push(row).expect(rt, OWN);
    }
    case
}

/// A sample.
pub(crate) fn sampled(rt: &impl Abort, alloc: Global) -> Case {
    let row = smallest_row((A, 1000, 0, Sampled(POS, 1)));
    case_of(rt, alloc, 4, &[row], &[])
}

/// A datagram for `nav` in two fragments.
pub(crate) fn joined(rt: &impl Abort, alloc: Global) -> Case {
    let rows = in_order().map(packet_row);
    case_of(rt, alloc, 4, &rows, &[1100])
}

/// The same, whose last fragment comes first.
pub(crate) fn joined_backwards(rt: &impl Abort, alloc: Global) -> Case {
    let rows = last_first().map(packet_row);
    case_of(rt, alloc, 4, &rows, &[1100])
}

/// A datagram in two fragments for a port that samples.
pub(crate) fn refused(rt: &impl Abort, alloc: Global) -> Case {
    let rows = joined_for_a_sampling_port().map(packet_row);
    case_of(rt, alloc, 4, &rows, &[])
}

/// Five datagrams begin, and none of them ends.
pub(crate) fn given_up(rt: &impl Abort, alloc: Global) -> Case {
    let rows = five_begin().map(packet_row);
    case_of(rt, alloc, 4, &rows, &[])
}

/// Two datagrams for `nav`, whose queue holds one.
pub(crate) fn overflowed(rt: &impl Abort, alloc: Global) -> Case {
    let rows = [
        (A, 1000, 1, IP, NAV_UDP, PAYLOAD, Queued(NAV)),
        (A, 1100, 2, IP, NAV_UDP, PAYLOAD, Overflow(NAV)),
    ];
    case_of(rt, alloc, 1, &rows, &[1000])
}
