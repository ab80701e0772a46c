//! A network's pass, with its system.
ghost use Rattle.std.specs.Prelude.{◌≡◌, ◌<◌, IfErr, IfNone, IfOk, IfSome, Some, length};
ghost use Rattle.receiver_slots.specs.Handing.{code_of};
ghost use Rattle.system_slots.specs.Passing.{ComesToLink, IsCodeOrBusy, ReceivesBy, TellsFillOf, TellsLinkHealthOf, TellsPortOf, pass_fill_code, pass_port_code};

use es_base::{PortKind, PortNo};
use live_system::{LiveSystem, NetPass};
use receiver_slots::codes::{BUSY, NO_PLACE, NONE_LEFT};
use receiver_slots::{
    FillReply, FrameReply, LinkHealthReply, PortCountsReply, fill_reply_of, frame_reply_of,
    link_health_reply_of, port_counts_reply_of,
};
use std::alloc::Global;
use std::marker::Model;
use std::sync::Arc;

/// A pass with a counted reference of its own to the system.
#[derive(Drop)]
pub(crate) struct Passing {
    pub(crate) system: Arc<LiveSystem, Global>,
    pub(crate) pass: NetPass,
}

impl Model for Passing {
    ghost use Rattle.std.specs.Arc.{arc_value};
    ghost use Rattle.live_system.specs.System.{IsPassOf};
    ghost use Rattle.system_slots.specs.Passing.{Passing as Seen};

    ghost Value = { Seen };

    ghost view = { λ p. record { system = arc_value p.system; pass = p.pass } };

    ghost invariant = { λ p. IsPassOf (arc_value p.system) p.pass };
}

impl Passing {
    /// Takes the octets of a frame at `now` microseconds, and tells its verdict. None while the other network's thread
    /// has its link.
    pub fn try_receive(&mut self, now: u64, frame: &[u8]) -> Option<FrameReply>
        ensures some { IfSome result (ReceivesBy self.old self.new now frame.now) }
        ensures none { IfNone result ((self.new ≡ self.old) × ComesToLink (Some self.old) frame.now) }
    {
        let reply = self.system.try_receive(&mut self.pass, now, frame)?;
        Some(frame_reply_of(reply))
    }

    /// What the link at this place tells. None while the other network's thread has it.
    pub fn try_health(&mut self, link: usize) -> Option<LinkHealthReply>
        requires { link < length self.old.system.config.links }
        ensures same { self.new ≡ self.old }
        ensures some { IfSome result (λ told. TellsLinkHealthOf self.old link told) }
    {
        let latest = self.system.latest(&self.pass, link);
        let health = self.system.try_health(&mut self.pass, link)?;
        Some(link_health_reply_of(latest, health.received, health.given_up))
    }

    /// What became of the messages for a port, by the places of its link and of the port in it. The error is the code if
    /// there is no such port, and BUSY while the other network's thread has the link.
    pub fn try_port_counts(&mut self, link: usize, port: usize) -> Result<PortCountsReply, u32>
        ensures same { self.new ≡ self.old }
        ensures ok { IfOk result (λ told. TellsPortOf self.old link port told) }
        ensures code { IsCodeOrBusy (pass_port_code (Some self.old) link port) (code_of result) }
        ensures refused { IfErr result (λ code. 0 < code) }
    {
        let Some(settings) = self.system.config().links().get(link) else {
            return Err(NO_PLACE);
        };
        if port >= settings.ports().len() {
            return Err(NO_PLACE);
        }
        let number = PortNo(port as u8);
        match self.system.try_port_counts(&mut self.pass, link, number) {
            None => Err(BUSY),
            Some(Some(counts)) => Ok(port_counts_reply_of(counts)),
            Some(None) => unreachable!(),
        }
    }

    /// How full a port's queue is, by the places of its link and of the port in it. The error is the code if there is
    /// no such queue, and BUSY while the other network's thread has the link.
    pub fn try_fill(&mut self, link: usize, port: usize) -> Result<FillReply, u32>
        ensures same { self.new ≡ self.old }
        ensures ok { IfOk result (λ told. TellsFillOf self.old link port told) }
        ensures code { IsCodeOrBusy (pass_fill_code (Some self.old) link port) (code_of result) }
        ensures refused { IfErr result (λ code. 0 < code) }
    {
        let Some(settings) = self.system.config().links().get(link) else {
            return Err(NO_PLACE);
        };
        let Some(settings) = settings.ports().get(port) else {
            return Err(NO_PLACE);
        };
        if let PortKind::Sampling { refresh: _ } = settings.kind() {
            return Err(NONE_LEFT);
        }
        match self
            .system
            .try_fill(&mut self.pass, link, PortNo(port as u8))
        {
            None => Err(BUSY),
            Some(Some(fill)) => Ok(fill_reply_of(fill)),
            Some(None) => unreachable!(),
        }
    }
}
