//! A link with its outlets, without what one network alone keeps.
ghost use Rattle.std.specs.Prelude.{◌≡◌, ◌<◌, ◌≤◌, IfOk, IsFalse, None, length, slice_get};
ghost use Rattle.std.specs.Option.{option_copied};
ghost use Rattle.es_base.specs.Frame.{link_number_of};
ghost use Rattle.es_base.specs.Limits.{most_ports};
ghost use Rattle.es_base.specs.Past.{arrived};
ghost use Rattle.link_rules.specs.Integrity.{passes};
ghost use Rattle.link_core.specs.Counted.{port_no, shown};
ghost use Rattle.link_core.specs.Past.{number_given_up};
ghost use Rattle.link_core.specs.Ports.{TellsCounts};
ghost use Rattle.receiver.specs.Outlet.{IsAnswer, CountsAsked, IsRefusal, LoseNothing, reads_by};
ghost use Rattle.receiver.specs.Ends.{ArePortsOpened};
ghost use Rattle.receiver.specs.Link.{IsNewLink, IsPorted, OverflowsIfRefused, Takes, TakesIfKnown, TellsLosses};

use crate::ends::PortEnd;
use crate::outlet::Outlet;
use crate::readers::Readers;
use es_base::{Decision, LinkSettings, Memory, Net, PortNo, PortSettings, Verdict};
use frame_reader::Frame;
use link_core::{LinkCore, PortCounts};
use std::alloc::Global;
use std::marker::Model;

/// A link with an outlet for each of its ports, without what one network alone keeps of it: whoever gives it a frame says
/// whether that passed integrity checking. Its past is a run of frames of the link, and each outlet was given that run's
/// deliveries to its port.
#[derive(Drop)]
pub struct PortedLink<P: Outlet> {
    /// Number of frames that came. It stands beside what redundancy management reads, since a redundant copy needs no
    /// more of the link.
    received: u64,
    core: LinkCore,
    pub(crate) outlets: Vec<P>,
}

impl<P: Outlet> Model for PortedLink<P> {
    ghost use Rattle.receiver.specs.Link.{Ported, IsPorted, TellsLosses, ported};

    ghost Value = { Ported P };

    ghost view = { λ l. ported l.core l.outlets.items l.received };

    ghost invariant = { λ l. IsPorted P.shows (ported l.core l.outlets.items l.received) × TellsLosses P.loses (ported l.core l.outlets.items l.received) };
}

impl<P: Outlet> PortedLink<P> {
    /// Opens a link with these settings and an empty past, and returns the ends of its ports. Each of its sampling
    /// ports has as many readers as `readers` says.
    pub fn open<R: Readers>(
        alloc: Global,
        settings: &LinkSettings,
        readers: &R,
    ) -> Result<(PortedLink<P>, Vec<PortEnd<P::End>>), Memory>
        ensures { IfOk result (λ opened. IsNewLink P.shows (reads_by P.reads (R.count readers.now)) settings.now opened.0 opened.1.items) }
    {
        let core = LinkCore::open(alloc, settings)?;
        let (outlets, ends) = open_outlets::<P, R>(alloc, settings.ports(), readers)?;
        Ok((
            PortedLink {
                received: 0,
                core,
                outlets,
            },
            ends,
        ))
    }

    /// The link's settings. Its past is a run of frames of the link, and each outlet was given that run's deliveries to
    /// its port.
    pub fn settings(&self) -> &LinkSettings
        ensures value { result.now ≡ self.now.core.settings }
        ensures past { IsPorted P.shows self.now }
        ensures losses { TellsLosses P.loses self.now }
    {
        self.core.settings()
    }

    /// Number of partial datagrams given up. It saturates at 2^64 - 1.
    pub fn given_up(&self) -> u64
        ensures { result ≡ shown (number_given_up self.now.core.settings self.now.core.past) }
    {
        self.core.given_up()
    }

    /// What became of the messages for this port. None if the link has no such port.
    pub fn port_counts(&self, port: PortNo) -> Option<PortCounts>
        ensures { TellsCounts self.now.core.settings self.now.core.past port result }
    {
        self.core.port_counts(port)
    }

    /// Outlet of the port at this place. None if the link has no such port.
    pub fn outlet(&self, port: PortNo) -> Option<&P>
        ensures outlet { option_copied result ≡ slice_get self.now.outlets port.0 }
        ensures past { IsPorted P.shows self.now }
        ensures losses { TellsLosses P.loses self.now }
    {
        self.outlets.get(port.0 as usize)
    }

    /// Number of frames that came. It saturates at 2^64 - 1.
    pub fn received(&self) -> u64
        ensures { result ≡ shown (length self.now.core.past) }
    {
        self.received
    }

    /// Takes a frame that came at `now`, in microseconds, and returns its verdict; `passed` says whether it passed
    /// integrity checking. Its place among the link's frames, from 0, is their number before it. Takes no memory, waits
    /// for nobody, and can't fail.
    pub fn receive(&mut self, net: Net, passed: bool, now: u64, frame: &Frame<'_>) -> Verdict
        requires link { link_number_of frame.now.whole.now ≡ self.old.core.settings.vl.0 }
        requires passed { passed ≡ passes self.old.core.settings self.old.core.past (arrived net now frame.now.whole.now) }
        ensures takes { Takes P.shows P.gives P.answers self.old self.new (arrived net now frame.now.whole.now) self.old.received result }
        ensures known { TakesIfKnown P.has_space self.old self.new (arrived net now frame.now.whole.now) result }
        ensures refused { OverflowsIfRefused P.refuses self.old self.new (arrived net now frame.now.whole.now) result }
        ensures losses { TellsLosses P.loses self.new }
    {
        self.received = self.received.saturating_add(1);
        if let Some(verdict) = self.core.turn_away(net, passed, now, frame) {
            return verdict;
        }
        let step = self.core.look(net, now, frame);
        let room = room_in(&mut self.outlets, step.decision());
        let taken = self.core.take(&step, room);
        if let Some(lent) = taken.payload {
            self.outlets[lent.port.0 as usize].put(now, lent.octets);
        }
        taken.verdict
    }
}

/// The answer of the decision's queue; true if none is asked.
fn room_in<P: Outlet>(outlets: &mut Vec<P>, decision: Decision) -> bool
    ensures answer { IsAnswer P.shows P.has_space P.gives P.answers outlets.old.items outlets.new.items decision result }
    ensures refused { IsFalse result → IsRefusal P.refuses outlets.old.items outlets.new.items decision }
    ensures counted { CountsAsked P.loses outlets.old.items outlets.new.items decision result }
{
    match decision {
        Decision::Final(_) => true,
        Decision::ByQueue(port) => match outlets.get_mut(port.0 as usize) {
            Some(outlet) => outlet.has_room(),
            None => true,
        },
    }
}

/// New outlets of these ports, and their ends.
fn open_outlets<P: Outlet, R: Readers>(
    alloc: Global,
    ports: &[PortSettings],
    readers: &R,
) -> Result<(Vec<P>, Vec<PortEnd<P::End>>), Memory>
    requires { length ports.now ≤ most_ports }
    ensures ports { IfOk result (λ opened. ArePortsOpened P.shows (reads_by P.reads (R.count readers.now)) 0 ports.now opened.0.items opened.1.items) }
    ensures none_lost { IfOk result (λ opened. LoseNothing P.loses opened.0.items) }
{
    let mut outlets = Vec::with_capacity(alloc, ports.len())?;
    let mut ends = Vec::with_capacity(alloc, ports.len())?;
    'ports: for place in 0..ports.len() {
        let settings = &ports[place];
        let count = readers.of(settings);
        let (outlet, reads) = P::open(alloc, settings, count)?;
        let end = end_at(place, settings, reads);
        outlets.push(outlet)?;
        ends.push(end)?;
    }
    Ok((outlets, ends))
}

/// The end of the port at this place.
fn end_at<E: Drop>(place: usize, settings: &PortSettings, reads: E) -> PortEnd<E>
    requires { place < most_ports }
    ensures port { (result.port ≡ port_no place) × (result.name ≡ settings.now.name) }
    ensures settings { (result.max ≡ settings.now.max) × (result.kind ≡ settings.now.kind) }
    ensures reads { result.reads ≡ reads }
{
    PortEnd {
        port: PortNo(place as u8),
        name: settings.name().copy(),
        max: settings.max(),
        kind: settings.kind(),
        reads,
    }
}
