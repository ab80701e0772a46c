//! The ends of all ports, which give the same, and the counts of passes.
use crate::made::{LINKS, name_at, number_at};
use crate::{kept, live};
use end_system::{NoGate, PassCounts as KeptCounts};
use es_base::FilterCause::{ForeignConstant, NotIp, TooLong, TooShort, UnknownLink};
use es_base::{LinkNo, Message, VERDICT_KINDS};
use live_system::{MailboxReader, PassCounts, RingTaker};
use queuing_port::Taker;
use sampling_port::Reader;
use slot_core::READERS;
use std::alloc::Global;
use std::process::Abort;
use std::sync::Wait;
use test_inputs_end_system::Running;
use test_inputs_live_system::Live;

/// The ends of the ports of a system that keeps no frame: a reader for each link, in their order, and the taker of `nav`.
#[derive(Drop)]
pub(crate) struct LiveEnds {
    readers: Vec<MailboxReader>,
    nav: RingTaker,
}

/// The same of the system that keeps its histories.
#[derive(Drop)]
pub(crate) struct KeptEnds {
    readers: Vec<Reader<READERS>>,
    nav: Taker,
}

impl LiveEnds {
    pub(crate) fn of(rt: &impl Abort, alloc: Global, live: &mut Live) -> LiveEnds {
        let mut readers = Vec::new(alloc);
        for place in 0..LINKS {
            let name = name_at(alloc, place).expect(rt, "a name");
            let reader = live.take_reader(name.as_str()).expect(rt, "a reader");
            readers.push(reader).expect(rt, "memory");
        }
        let nav = live.take_taker("nav").expect(rt, "a taker");
        LiveEnds { readers, nav }
    }
}

impl KeptEnds {
    pub(crate) fn of(rt: &impl Abort, alloc: Global, kept: &mut Running<NoGate>) -> KeptEnds {
        let mut readers = Vec::new(alloc);
        for place in 0..LINKS {
            let name = name_at(alloc, place).expect(rt, "a name");
            let reader = kept::reader_of(rt, kept, name.as_str());
            readers.push(reader).expect(rt, "memory");
        }
        let nav = kept::taker_of(rt, kept, "nav");
        KeptEnds { readers, nav }
    }
}

/// Both ends read the same newest message.
fn check_read(rt: &impl Abort, kept: &mut Reader<READERS>, live: &mut MailboxReader) {
    let mut octets = [0; 1471];
    let mut out = [0; 1471];
    let wanted = kept::read(rt, kept, &mut octets);
    let read = live::read(live, &mut out);
    assert!(rt; read == wanted, "{read:?}, not {wanted:?}");
    assert!(rt; out == octets, "{read:?}");
}

/// The taker takes this message, or none.
fn check_taken(rt: &impl Abort, live: &mut RingTaker, wanted: Option<&Message>) {
    let mut out = [0; 8192];
    let taken = live::take(rt, live, &mut out);
    match wanted {
        Some(message) => {
            assert!(rt; taken == Some((message.time, message.octets.len())));
            assert!(rt; out.starts_with(message.octets.as_slice()));
        }
        None => assert!(rt; taken == None),
    }
}

/// All ends read the same newest messages.
pub(crate) fn check_newest(rt: &impl Abort, kept: &mut KeptEnds, lives: &mut [LiveEnds]) {
    for live in lives {
        for (kept, live) in kept.readers.iter_mut().zip(&mut live.readers) {
            check_read(rt, kept, live);
        }
    }
}

/// All ends take the same next message, if any.
pub(crate) fn check_next(rt: &(impl Abort + Wait), kept: &mut KeptEnds, lives: &mut [LiveEnds]) {
    let message = kept.nav.take(rt);
    for live in lives {
        check_taken(rt, &mut live.nav, message.as_ref());
    }
}

/// Two passes counted the same.
pub(crate) fn check_counts(rt: &impl Abort, kept: &KeptCounts, live: &PassCounts) {
    for place in 0..LINKS {
        let vl = LinkNo(number_at(place));
        assert!(rt; kept.calls(vl) == live.calls(vl));
        for kind in 1..=VERDICT_KINDS {
            assert!(rt; kept.count(vl, kind) == live.count(vl, kind), "{kind}");
        }
    }
    for cause in [TooShort, TooLong, NotIp, ForeignConstant, UnknownLink] {
        assert!(rt; kept.filtered(cause) == live.filtered(cause), "{cause:?}");
    }
}
