//! Fill levels of the queues of a link's ports.
ghost use Rattle.std.specs.Prelude.{◌≡◌, ℕ, [], slice_get};
ghost use Rattle.receiver.specs.Outlet.{GivesAt};
ghost use Rattle.receiver.specs.Port.{GivesPort};
ghost use Rattle.receiver.specs.Receiver.{LinksStay};
ghost use Rattle.receiver.specs.Fill.{IsFillAt, IsFillIn, LooksAt, LooksIn};

use crate::link::LinkWithPorts;
use crate::port::PortOutlet;
use crate::ported::PortedLink;
use crate::queue::Fill;
use crate::receiver::Receiver;
use es_base::PortNo;

impl PortedLink<PortOutlet> {
    /// Fill level of a port's queue: the messages delivered and not taken, as far as its end of the queue knows after
    /// it looked in this call, and the greatest number that waited. None if the port samples, or the link has no such port. Takes no
    /// memory, and waits for nobody.
    pub fn fill(&mut self, port: PortNo) -> Option<Fill>
        ensures core { self.new.core ≡ self.old.core }
        ensures received { self.new.received ≡ self.old.received }
        ensures outlets { (at : ℕ) → GivesAt GivesPort (slice_get self.old.outlets at) (slice_get self.new.outlets at) [] }
        ensures fill { IsFillAt self.new port result }
        ensures looked { LooksAt (slice_get self.old.outlets port.0) (slice_get self.new.outlets port.0) }
    {
        let outlet = self.outlets.get_mut(port.0 as usize)?;
        outlet.fill()
    }
}

impl LinkWithPorts<PortOutlet> {
    /// Fill level of a port's queue: the messages delivered and not taken, as far as its end of the queue knows after
    /// it looked in this call, and the greatest number that waited. None if the port samples, or the link has no such port. Takes no
    /// memory, and waits for nobody.
    pub fn fill(&mut self, port: PortNo) -> Option<Fill>
        ensures core { self.new.core ≡ self.old.core }
        ensures received { self.new.received ≡ self.old.received }
        ensures outlets { (at : ℕ) → GivesAt GivesPort (slice_get self.old.outlets at) (slice_get self.new.outlets at) [] }
        ensures fill { IsFillAt self.new port result }
        ensures looked { LooksAt (slice_get self.old.outlets port.0) (slice_get self.new.outlets port.0) }
    {
        self.link.fill(port)
    }
}

impl Receiver<PortOutlet> {
    /// Fill level of the queue of a port of the link at this place. None if the port samples, or there is no such port.
    /// Takes no memory, and waits for nobody.
    pub fn fill(&mut self, place: usize, port: PortNo) -> Option<Fill>
        ensures stays { LinksStay GivesPort self.old self.new }
        ensures fill { IsFillIn (slice_get self.new.links place) port result }
        ensures looked { LooksIn (slice_get self.old.links place) (slice_get self.new.links place) port }
    {
        let link = self.links.get_mut(place)?;
        link.fill(port)
    }
}
