//! A receiver of the built-in configuration and a second link, the ends of link 17, and what the tests ask of them.
use receiver::{
    Config, MOST_READERS, MailboxReader, Net, Opened, Outlet, PortOutlet, ReaderCount, Receiver,
    Reply, RingTaker, Verdict, VerdictKind,
};
use std::alloc::Global;
use std::process::Abort;
use test_inputs::rows::FrameRow;
use test_inputs::{ETHERNET, SECOND_LINK, frame_of};
use vl_config::{BUILT_IN, read_config};

/// The built-in configuration, and link 18.
pub(crate) fn config(rt: &impl Abort, alloc: Global) -> Config {
    config_of(rt, alloc, BUILT_IN)
}

/// The configuration of this text, and link 18.
pub(crate) fn config_of(rt: &impl Abort, alloc: Global, first: &str) -> Config {
    let mut text = String::new(alloc);
    text.push_str(first).expect(rt, "memory");
    text.push_str(SECOND_LINK).expect(rt, "memory");
    read_config(alloc, text.as_str())
        .ok()
        .expect(rt, "a configuration")
}

/// A receiver, the readers of `pos` and the taker of `nav`.
#[derive(Drop)]
pub(crate) struct Given {
    pub receiver: Receiver<PortOutlet>,
    pub readers: Vec<MailboxReader>,
    pub taker: RingTaker,
}

/// All readers of the sampling port with this name: eight, and then none.
pub(crate) fn readers_of(
    rt: &impl Abort,
    alloc: Global,
    opened: &mut Opened<PortOutlet>,
    name: &str,
) -> Vec<MailboxReader> {
    let mut readers = Vec::with_capacity(alloc, MOST_READERS).expect(rt, "memory");
    for _ in 0..MOST_READERS {
        let reader = opened.take_reader(name).expect(rt, "a reader");
        readers.push(reader).expect(rt, "memory");
    }
    assert!(rt; opened.take_reader(name).is_none());
    readers
}

/// A new receiver, each of whose sampling ports has so many readers.
pub(crate) fn open_with(
    rt: &impl Abort,
    alloc: Global,
    config: &Config,
    readers: usize,
) -> Opened<PortOutlet> {
    let readers = ReaderCount::new(readers).expect(rt, "1 to 8");
    Receiver::<PortOutlet>::open(alloc, config, readers).expect(rt, "memory")
}

pub(crate) fn opened(rt: &impl Abort, alloc: Global) -> Given {
    let config = config(rt, alloc);
    let mut opened = open_with(rt, alloc, &config, MOST_READERS);
    let readers = readers_of(rt, alloc, &mut opened, "pos");
    let taker = opened.take_taker("nav").expect(rt, "a taker");
    assert!(rt; opened.take_taker("nav").is_none());
    Given {
        receiver: opened.receiver,
        readers,
        taker,
    }
}

/// The frames of these rows.
pub(crate) fn octets_of(rt: &impl Abort, alloc: Global, rows: &[FrameRow<'_>]) -> Vec<Vec<u8>> {
    let mut frames = Vec::with_capacity(alloc, rows.len()).expect(rt, "memory");
    for row in rows {
        let (_, _, number, ip, udp, payload, _) = *row;
        let octets = frame_of(alloc, &[ETHERNET, ip, udp, payload], number).expect(rt, "octets");
        frames.push(octets).expect(rt, "memory");
    }
    frames
}

/// Checks that a reply is this verdict of link 17, the first of the configuration, after so many frames of it.
pub(crate) fn check_reply(rt: &impl Abort, reply: Reply, received: u64, wanted: Verdict) {
    match reply {
        Reply::Link {
            at,
            vl,
            place,
            verdict,
        } => {
            assert!(rt; at == 0 && vl.0 == 17 && place == received && verdict == wanted);
        }
        Reply::Filtered(_) => panic!(rt; "a frame of link 17"),
    }
}

/// The receiver gives these frames these verdicts.
pub(crate) fn check_frames<P: Outlet>(
    rt: &impl Abort,
    alloc: Global,
    receiver: &mut Receiver<P>,
    rows: &[FrameRow<'_>],
) {
    let frames = octets_of(rt, alloc, rows);
    for (row, octets) in rows.iter().zip(frames.iter()) {
        let (net, time, _, _, _, _, verdict) = *row;
        let received = receiver.link(0).expect(rt, "a link").received();
        let reply = receiver.receive(net, time, octets);
        check_reply(rt, reply, received, verdict);
    }
}

/// So many frames of link 17 came on this network with a verdict of the kind of this one.
pub(crate) fn check_count(rt: &impl Abort, given: &Given, net: Net, of: Verdict, wanted: u64) {
    let link = given.receiver.link(0).expect(rt, "a link");
    let count = link.count(net, VerdictKind::of(&of));
    assert!(rt; count == wanted, "{net} {count}");
    assert!(rt; link.tally().count(net, VerdictKind::of(&of).number()) == wanted);
}
