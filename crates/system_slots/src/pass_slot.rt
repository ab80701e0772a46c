//! A slot for a network's pass.
ghost use Rattle.std.specs.Prelude.{◌≡◌, ◌<◌, ◌↔◌, ◌⊎◌, is_none, None, Some};
ghost use Rattle.receiver_slots.specs.Codes.{busy, done, no_place, not_open};
ghost use Rattle.system_slots.specs.Passing.{ComesToLink, TellsFillByPass, TellsFiltered, TellsLinkHealth, TellsPortByPass, CountsFrames, IsCodeOrBusy, IsPlaceOfPass, Passing as Seen, Receives, count_code, filtered_code, pass_fill_code, pass_port_code};

use crate::passing::Passing;
use receiver_slots::codes::{BUSY, DONE, NO_KIND, NO_PLACE, NOT_OPEN};
use receiver_slots::{FillReply, FrameReply, LinkHealthReply, PortCountsReply, cause_of, kind_of};
use std::marker::Model;

/// The pass of one network, by which its thread gives frames to the system; or none.
#[derive(Drop)]
pub struct PassSlot {
    passing: Option<Passing>,
}

impl Model for PassSlot {
    ghost use Rattle.std.specs.Prelude.{Option};
    ghost use Rattle.system_slots.specs.Passing.{Passing as Seen};

    ghost Value = { Option Seen };

    ghost view = { λ s. s.passing };
}

impl PassSlot {
    pub fn new() -> PassSlot
        ensures { result ≡ None }
    {
        PassSlot { passing: None }
    }

    /// Whether there is none.
    pub(crate) fn is_closed(&self) -> bool
        ensures { result ≡ is_none self.now }
    {
        self.passing.is_none()
    }

    /// Puts one in the place of what was there.
    pub(crate) fn put(&mut self, passing: Passing)
        ensures { self.new ≡ Some passing }
    {
        self.passing = Some(passing);
    }

    /// Takes the octets of a frame that came on the pass's network at `now` microseconds, and tells its verdict. BUSY
    /// while the other network's thread has the frame's link: nothing has happened, and the program gives the same
    /// frame again.
    pub fn receive(&mut self, now: u64, frame: &[u8], reply: &mut FrameReply) -> u32
        ensures open { (result ≡ not_open) ↔ (self.old ≡ None) }
        ensures received { result ≡ done → Receives self.old self.new now frame.now reply.new }
        ensures busy { result ≡ busy → ComesToLink self.old frame.now }
        ensures same { 0 < result → (self.new ≡ self.old) × (reply.new ≡ reply.old) }
        ensures codes { (result ≡ done) ⊎ ((result ≡ not_open) ⊎ (result ≡ busy)) }
    {
        let Some(passing) = &mut self.passing else {
            return NOT_OPEN;
        };
        match passing.try_receive(now, frame) {
            Some(told) => {
                *reply = told;
                DONE
            }
            None => BUSY,
        }
    }

    /// Tells the number of frames of the link at this place on the pass's network with a verdict of this kind, 1 to 13.
    /// It saturates at 2^64 - 1.
    pub fn count(&self, link: usize, kind: u32, count: &mut u64) -> u32
        ensures code { result ≡ count_code self.now link kind }
        ensures counted { result ≡ done → CountsFrames self.now link kind count.new }
        ensures same { 0 < result → count.new ≡ count.old }
    {
        let Some(passing) = &self.passing else {
            return NOT_OPEN;
        };
        let Some(kind) = kind_of(kind) else {
            return NO_KIND;
        };
        let Some(settings) = passing.system.config().links().get(link) else {
            return NO_PLACE;
        };
        *count = passing.pass.count(settings.vl(), kind.number());
        DONE
    }

    /// Tells, of the link at this place, when its latest frame came on the pass's network, and the number of its frames
    /// and of partial datagrams given up, of both networks. BUSY while the other network's thread has the link.
    pub fn health(&mut self, link: usize, reply: &mut LinkHealthReply) -> u32
        ensures open { (result ≡ not_open) ↔ (self.old ≡ None) }
        ensures place { result ≡ no_place → IsPlaceOfPass self.old link → ⊥ }
        ensures told { result ≡ done → TellsLinkHealth self.old link reply.new }
        ensures busy { result ≡ busy → IsPlaceOfPass self.old link }
        ensures kept { self.new ≡ self.old }
        ensures same { 0 < result → reply.new ≡ reply.old }
        ensures codes { (result ≡ done) ⊎ ((result ≡ not_open) ⊎ ((result ≡ no_place) ⊎ (result ≡ busy))) }
    {
        let Some(passing) = &mut self.passing else {
            return NOT_OPEN;
        };
        if link >= passing.system.config().links().len() {
            return NO_PLACE;
        }
        let Some(told) = passing.try_health(link) else {
            return BUSY;
        };
        *reply = told;
        DONE
    }

    /// Tells how full a port's queue is, by the places of its link and of the port in it: how many messages were
    /// delivered and not taken, as far as the system knows after it looked, and the greatest number that waited.
    /// NONE_LEFT if the port samples, and BUSY while the other network's thread has the link.
    pub fn fill(&mut self, link: usize, port: usize, reply: &mut FillReply) -> u32
        ensures code { IsCodeOrBusy (pass_fill_code self.old link port) result }
        ensures told { result ≡ done → TellsFillByPass self.old link port reply.new }
        ensures kept { self.new ≡ self.old }
        ensures same { 0 < result → reply.new ≡ reply.old }
    {
        let Some(passing) = &mut self.passing else {
            return NOT_OPEN;
        };
        match passing.try_fill(link, port) {
            Ok(told) => {
                *reply = told;
                DONE
            }
            Err(code) => code,
        }
    }

    /// Tells what became of the messages for a port, by the places of its link and of the port in it. BUSY while the other
    /// network's thread has the link.
    pub fn port_counts(&mut self, link: usize, port: usize, reply: &mut PortCountsReply) -> u32
        ensures code { IsCodeOrBusy (pass_port_code self.old link port) result }
        ensures told { result ≡ done → TellsPortByPass self.old link port reply.new }
        ensures kept { self.new ≡ self.old }
        ensures same { 0 < result → reply.new ≡ reply.old }
    {
        let Some(passing) = &mut self.passing else {
            return NOT_OPEN;
        };
        match passing.try_port_counts(link, port) {
            Ok(told) => {
                *reply = told;
                DONE
            }
            Err(code) => code,
        }
    }

    /// Tells the number of frames filtered on the pass's network for this cause, 1 to 5. It saturates at 2^64 - 1.
    pub fn filtered(&self, cause: u32, count: &mut u64) -> u32
        ensures code { result ≡ filtered_code self.now cause }
        ensures counted { result ≡ done → TellsFiltered self.now cause count.new }
        ensures same { 0 < result → count.new ≡ count.old }
    {
        let Some(passing) = &self.passing else {
            return NOT_OPEN;
        };
        let Some(cause) = cause_of(cause) else {
            return NO_KIND;
        };
        *count = passing.pass.filtered(cause);
        DONE
    }

    /// Gives the pass away. Its network's frames reach the system no more.
    pub fn close(&mut self)
        ensures { self.new ≡ None }
    {
        self.passing = None;
    }
}
