//! One link's state.
ghost use Rattle.std.specs.Prelude.{◌≡◌, ◌<◌, ◌≤◌, ◌+◌, ◌↔◌, ◌++◌, IfErr, IfOk, OnErr, Some, List, Option, [], length, reverse, slice_get, true};
ghost use Rattle.std.specs.List.{All};
ghost use Rattle.std.specs.Vec.{vec_capacity};
ghost use Rattle.es_base.specs.declared.event.Event.{Event};
ghost use Rattle.es_base.specs.Limits.{most_events};
ghost use Rattle.es_base.specs.Frame.{IsFrame, link_number_of};
ghost use Rattle.es_base.specs.Past.{AreFramesOf, arrived};
ghost use Rattle.link_rules.specs.Reassembly.{groups_in};
ghost use Rattle.link_rules.specs.Run.{IsRun};
ghost use Rattle.es_base.specs.Tally.{HasCounts};
ghost use Rattle.ip_reassembly.specs.Kept.{StandsFor};
ghost use Rattle.link_core.specs.Offer.{IsPlaceAt};
ghost use Rattle.slot_core.specs.Octets.{AreOctets};
ghost use Rattle.slot_core.specs.State.{StartsWithSeen};
ghost use Rattle.sampling_port.specs.Ends.{is_told};
ghost use Rattle.es_base.specs.Queue.{BeginsWith};
ghost use Rattle.queuing_port.specs.Queue.{HoldsMessages};
ghost use Rattle.es_base.specs.Verdict.{verdict_kinds};
ghost use Rattle.link_receiver.specs.Ends.{AreEndsOfPorts, IsNewLink, IsOfItsPort, IsWithinDepth};
ghost use Rattle.link_receiver.specs.Link.{Takes, decision_after, all_deliveries_of, deliveries_since, past_of, published_at, queues, samples};
ghost use Rattle.link_receiver.specs.Epoch.{Hands};
ghost use Rattle.link_receiver.specs.Outlet.{HasRoomFor};
ghost use Rattle.link_receiver.specs.declared.epoch.EpochFault.TheVariants.{TooMany};

use crate::ends::PortEnd;
use crate::epoch::{Epoch, EpochFault};
use crate::history::{MOST_EVENTS, reserve_event};
use crate::outlet::{Outlet, give, open_outlets};
use crate::walk::deliveries_after;
use block_list::BlockList;
use es_base::{
    Arrival, Decision, Event, LinkSettings, Memory, Message, Net, Octets, PortKind, PortNo,
    Verdict, VerdictTally,
};
use frame_reader::{Frame, frame_in};
use ip_reassembly::WaitingDatagrams;
use link_core::{NetStates, Place, RulesState, settled};
use past_log::Past;
use queuing_port::Taker;
use sampling_port::Reader;
use slot_core::READERS;
use std::alloc::{AllocError, Global};
use std::marker::Model;
use std::mem;
use std::sync::Wait;

/// State of one link: its settings, and its history. The rest follows from these and from the events taken out before
/// it, which only proofs know: the state kept of all events, and for each port the end that publishes its messages or
/// puts them into its queue.
#[derive(Drop)]
pub struct LinkState {
    settings: LinkSettings,
    /// The events before the history, for proofs alone.
    before: Past,
    /// Number of events before the history.
    taken: u64,
    /// The partial datagrams before the history.
    pieces: WaitingDatagrams,
    history: BlockList<Event>,
    /// State after all events, of each network alone.
    nets: NetStates,
    /// State after all events, of both networks together.
    kept: RulesState,
    outlets: Vec<Outlet>,
}

impl Model for LinkState {
    ghost use Rattle.std.specs.Prelude.{map};
    ghost use Rattle.link_receiver.specs.Link.{Link};

    ghost Value = { Link };

    ghost use Rattle.link_receiver.specs.Kept.{IsLinkKept};
    ghost use Rattle.link_receiver.specs.Outlet.{channel_of};

    ghost view = { λ s. record {
      settings = s.settings;
      before = s.before.events;
      history = s.history.items;
      channels = map channel_of s.outlets.items;
    } };

    ghost invariant = { λ s. IsLinkKept s.settings s.before.events s.history.items s.taken s.pieces s.nets s.kept s.outlets.items };
}

impl LinkState {
    /// Opens a link with these settings and no history, and returns the ends of its ports, in the order of the
    /// settings. All memory of the ports is taken here.
    pub fn new(alloc: Global, settings: &LinkSettings) -> Result<(LinkState, Vec<PortEnd>), Memory>
        ensures link { IfOk result (λ opened. IsNewLink settings.now opened.0) }
        ensures ends { IfOk result (λ opened. AreEndsOfPorts 0 settings.now.ports opened.0.channels opened.1.items) }
        ensures ports { IfOk result (λ opened. All (IsOfItsPort opened.0.channels) opened.1.items) }
    {
        let (outlets, ends) = open_outlets(alloc, settings.ports())?;
        let copied = settings.copy(alloc)?;
        let kept = RulesState::open(alloc, settings)?;
        let pieces = kept.reassembly().waiting(alloc)?;
        let state = LinkState {
            settings: copied,
            before: Past::new(),
            taken: 0,
            pieces,
            history: BlockList::new(alloc),
            nets: NetStates::new(settings.window()),
            kept,
            outlets,
        };
        Ok((state, ends))
    }

    /// The link's settings.
    pub fn settings(&self) -> &LinkSettings
        ensures { result.now ≡ self.now.settings }
    {
        &self.settings
    }

    /// The link's events since the last epoch was taken out, or since the first of all, in the order in which
    /// their frames came. Each has a frame of this link. There are at most `MOST_EVENTS`.
    pub fn history(&self) -> &BlockList<Event>
        ensures events { result.now.items ≡ self.now.history }
        ensures run { IsRun self.now.settings (past_of self.now) }
        ensures frames { AreFramesOf self.now.settings (past_of self.now) }
        ensures own_frames { AreFramesOf self.now.settings (reverse self.now.history) }
        ensures few { length self.now.history ≤ most_events }
    {
        &self.history
    }

    /// Number of events taken out: the place of the history's first event among all events of the link.
    pub fn taken(&self) -> u64
        ensures value { result ≡ length self.now.before }
        ensures few { result ≤ most_events }
    {
        self.taken
    }

    /// Takes the history out: the link goes on from its summary. Verdicts are as without it, places and counts go on,
    /// and a partial datagram can still be completed. The events themselves are handed out, not copies of them. After a
    /// fault nothing has changed.
    // rule: HIST-9, EMB-39
    pub fn take_epoch(&mut self, alloc: Global) -> Result<Epoch, EpochFault>
        ensures ok { IfOk result (λ epoch. Hands self.old epoch self.new) }
        ensures err { OnErr result (self.new ≡ self.old) }
        ensures fault { IfErr result (λ fault. (fault ≡ TooMany) ↔ (most_events < length self.old.before + length self.old.history)) }
    {
        let taken = self.taken() + self.history.len() as u64;
        if taken > MOST_EVENTS as u64 {
            return Err(EpochFault::TooMany);
        }
        let Ok(settings) = self.settings.copy(alloc) else {
            return Err(EpochFault::Memory);
        };
        let Ok(pieces) = self.kept.reassembly().waiting(alloc) else {
            return Err(EpochFault::Memory);
        };
        self.pieces = pieces;
        let all = self.before.and_all(&self.history);
        let before = mem::replace(&mut self.before, all);
        let first = mem::replace(&mut self.taken, taken);
        let events = mem::replace(&mut self.history, BlockList::new(alloc));
        Ok(Epoch::of(settings, before, first, events))
    }

    /// Number of events per network and kind of verdict, from the first event on.
    pub fn tally(&self) -> &VerdictTally
        ensures { HasCounts result.now (past_of self.now) }
    {
        self.nets.tally()
    }

    /// The history's deliveries to a port, in order, worked out from it. This walks through the history, up to the last
    /// event that delivered one.
    pub fn deliveries(&self, alloc: Global, port: PortNo) -> Result<Vec<Message>, Memory>
        ensures { IfOk result (λ messages. messages.items ≡ deliveries_since self.now port) }
    {
        deliveries_after(
            alloc,
            self.settings(),
            self.pieces_before(),
            self.history(),
            port,
        )
    }

    /// The partial datagrams before the history.
    fn pieces_before(&self) -> &WaitingDatagrams
        ensures { StandsFor result.now self.now.settings.reassembly (groups_in self.now.settings self.now.before) }
    {
        &self.pieces
    }

    /// Synchronizes a sampling port of this link with a reader of it: the reader then knows all messages delivered to
    /// the port, before the history and in it, so no later read returns an earlier message than the last of them. What
    /// it had seen is a beginning of them. Takes no memory and waits for nobody, and nothing else changes.
    pub fn meet(&mut self, port: PortNo, reader: &mut Reader<READERS>)
        requires { slice_get self.old.channels port.0 ≡ Some (samples reader.old.port) }
        ensures link { self.new ≡ self.old }
        ensures reader { reader.new ≡ is_told reader.old reader.new.seen }
        ensures goes_on { StartsWithSeen reader.new.seen reader.old.seen }
        ensures seen { reader.new.seen ≡ published_at self.old port }
        ensures octets { All (λ message. AreOctets message.octets) (all_deliveries_of self.old port) }
    {
        self.outlets[port.0 as usize].meet_reader(reader);
    }

    /// Synchronizes a queuing port of this link with its taker: the taker then knows all messages delivered to the
    /// port, before the history and in it. What it knew before is a beginning of them. Returns the number of these
    /// messages that it hasn't taken: at most the depth of the queue. Nothing else changes.
    pub fn meet_taker<R: Wait>(&mut self, rt: &R, port: PortNo, taker: &mut Taker) -> usize
        requires { slice_get self.old.channels port.0 ≡ Some (queues taker.old.queue) }
        ensures link { self.new ≡ self.old }
        ensures taker { taker.new ≡ record taker.old { put = taker.new.put } }
        ensures put { taker.new.put ≡ all_deliveries_of self.old port }
        ensures goes_on { BeginsWith taker.new.put taker.old.put }
        ensures held { HoldsMessages taker.new result }
        ensures depth { IsWithinDepth (slice_get self.old.settings.ports port.0) result }
    {
        self.outlets[port.0 as usize].meet_taker(rt, taker)
    }

    /// Verdict of a frame of this link at `now` microseconds, but for the queue's answer. Nothing changes. The frame's
    /// link number isn't looked at: the caller has to know that it is the link's.
    pub fn decide(&self, net: Net, now: u64, frame: &Frame<'_>) -> Decision
        ensures { result ≡ decision_after self.now (arrived net now frame.now.whole.now) }
    {
        let passed = self.nets.check(net, frame.sequence_number);
        match self.kept.kept_away(&self.settings, passed, now, frame) {
            Some(verdict) => Decision::Final(verdict),
            None => self.kept.look(&self.settings, net, now, frame).decision(),
        }
    }

    /// Takes a frame that came at `now` microseconds: the history gains one event, and the frame's
    /// verdict is returned. A message for a port is published, or put into its queue, after all memory was
    /// taken. If memory runs out nothing has changed; a history of `MOST_EVENTS` events is refused one more
    /// as if it had (own).
    pub fn take<R: Wait>(
        &mut self,
        rt: &R,
        alloc: Global,
        net: Net,
        now: u64,
        frame: &Frame<'_>,
    ) -> Result<Verdict, Memory>
        requires { frame.now.vl ≡ self.old.settings.vl }
        ensures ok { IfOk result (λ verdict. Takes self.old (arrived net now frame.now.whole.now) verdict self.new) }
        ensures err { OnErr result (self.new ≡ self.old) }
    {
        let arrival = Arrival {
            net,
            time: now,
            frame: Octets::copy_of(alloc, frame.whole)?,
        };
        match self.take_arrival(rt, alloc, arrival) {
            Ok(verdict) => Ok(verdict),
            Err(_) => Err(AllocError),
        }
    }

    /// Takes a frame as `take` does, and keeps its octets without a copy. They are those of a frame of this link, as
    /// `read_frame` returned it. If memory runs out the arrival is handed back.
    pub fn take_arrival<R: Wait>(
        &mut self,
        rt: &R,
        alloc: Global,
        arrival: Arrival,
    ) -> Result<Verdict, Arrival>
        requires frame { IsFrame arrival.frame }
        requires link { link_number_of arrival.frame ≡ self.old.settings.vl.0 }
        ensures ok { IfOk result (λ verdict. Takes self.old arrival verdict self.new) }
        ensures err { IfErr result (λ back. (back ≡ arrival) × (self.new ≡ self.old)) }
    {
        let Ok(()) = reserve_event(&mut self.history, alloc) else {
            return Err(arrival);
        };
        let (net, time) = (arrival.net, arrival.time);
        let frame = frame_in(arrival.frame.as_slice());
        let passed = self.nets.check(net, frame.sequence_number);
        if let Some(verdict) = self.kept.kept_away(&self.settings, passed, time, &frame) {
            self.nets.note(net, frame.sequence_number, time, verdict);
            self.history
                .push_reserved(Event::of(arrival, true, verdict));
            return Ok(verdict);
        }
        let step = self.kept.look(&self.settings, net, time, &frame);
        let decision = step.decision();
        let place = step.place(settled(decision, true));
        let Ok(room) = room_for(alloc, &self.settings, place) else {
            return Err(arrival);
        };
        let payload = self.kept.offer(&step, place);
        let had_room = give(rt, &mut self.outlets, payload, time, room);
        let verdict = settled(decision, had_room);
        self.kept.note(verdict);
        self.nets.note(net, frame.sequence_number, time, verdict);
        self.history
            .push_reserved(Event::of(arrival, had_room, verdict));
        Ok(verdict)
    }
}

/// Room for the octets of a message. None is taken for a sampling port, which has its own.
fn room_for(alloc: Global, settings: &LinkSettings, place: Option<Place>) -> Result<Vec<u8>, Memory>
    requires { IsPlaceAt settings.now.ports place }
    ensures empty { IfOk result (λ room. room.items ≡ []) }
    ensures enough { IfOk result (λ room. HasRoomFor settings.now.ports place (vec_capacity room)) }
{
    let Some(place) = place else {
        return Ok(Vec::new(alloc));
    };
    match settings.ports()[place.port.0 as usize].kind() {
        PortKind::Sampling { refresh: _ } => Ok(Vec::new(alloc)),
        PortKind::Queuing { depth: _ } => Vec::with_capacity(alloc, place.len),
    }
}
