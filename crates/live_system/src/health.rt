//! What a link tells of itself while frames come to it.
ghost use Rattle.std.specs.Prelude.{◌≡◌, ◌<◌, IfSome, Some, length, slice_get};
ghost use Rattle.network_calls.specs.Passes.{DoesAt};
ghost use Rattle.live_system.specs.Checked.{latest_of};
ghost use Rattle.live_system.specs.Groups.{HasLinkAt, is_any};
ghost use Rattle.live_system.specs.Health.{TellsOfLink, TellsOfPort};
ghost use Rattle.live_system.specs.Meetings.{VisitsAt};
ghost use Rattle.live_system.specs.Pass.{KnownLink};
ghost use Rattle.live_system.specs.System.{IsPassOf};

use crate::cut::LinkPlace;
use crate::group::Group;
use crate::net_pass::NetPass;
use crate::system::LiveSystem;
use es_base::PortNo;
use receiver::PortCounts;

/// What a link tells of itself. Both numbers saturate at 2^64 - 1.
#[derive(Clone, Copy, Debug, PartialEq, Eq)]
pub struct LinkHealth {
    /// Number of frames that came, on both networks.
    pub received: u64,
    /// Number of partial datagrams given up.
    pub given_up: u64,
}

impl LiveSystem {
    /// Arrival time of the latest frame that the pass gave to the link at this place, in microseconds as given, whatever
    /// its verdict. None if it gave none. Waits for nobody: the pass has it.
    // rule: EMB-42
    pub fn latest(&self, pass: &NetPass, place: usize) -> Option<u64>
        requires own { IsPassOf self.now pass.now }
        requires place { place < length pass.now.links }
        ensures { (on : KnownLink) → slice_get pass.now.links place ≡ Some on → result ≡ latest_of on.calls }
    {
        let LinkPlace { group, index } = self.places[place];
        pass.groups[group].latest(index)
    }

    /// What the link at this place tells, if nobody has its group at this moment. `None` if the other network has a link
    /// of the group. Waits for nobody, takes no memory, and can't fail.
    pub fn try_health(&self, pass: &mut NetPass, place: usize) -> Option<LinkHealth>
        requires own { IsPassOf self.now pass.old }
        requires place { place < length pass.old.links }
        ensures pass { pass.new ≡ pass.old }
        ensures health { IfSome result (λ health. VisitsAt pass.old.links place (λ found left. TellsOfLink health found left)) }
    {
        let LinkPlace { group, index } = self.places[place];
        let lock = &self.groups[group];
        pass.groups[group].try_health(lock, index)
    }

    /// What became of the messages for a port of the link at this place, if nobody has the link's group at this moment.
    /// `None` if the other network has a link of the group, `Some(None)` if the link has no such port. Waits for nobody,
    /// takes no memory, and can't fail.
    pub fn try_port_counts(
        &self,
        pass: &mut NetPass,
        place: usize,
        port: PortNo,
    ) -> Option<Option<PortCounts>>
        requires own { IsPassOf self.now pass.old }
        requires place { place < length pass.old.links }
        ensures pass { pass.new ≡ pass.old }
        ensures counts { IfSome result (λ counts. VisitsAt pass.old.links place (λ found left. TellsOfPort port counts found left)) }
    {
        let LinkPlace { group, index } = self.places[place];
        let lock = &self.groups[group];
        pass.groups[group].try_port_counts(lock, index, port)
    }
}

/// What the link at this index of a locked group tells.
pub(crate) fn health_at(group: &mut Group, index: usize) -> LinkHealth
    requires { HasLinkAt group.old index is_any }
    ensures { DoesAt (λ found left. TellsOfLink result found left) group.old index group.new }
{
    let link = &group.links[index];
    LinkHealth {
        received: link.received(),
        given_up: link.given_up(),
    }
}

/// What became of the messages for a port of the link at this index of a locked group. None if it has no such port.
pub(crate) fn port_counts_at(group: &mut Group, index: usize, port: PortNo) -> Option<PortCounts>
    requires { HasLinkAt group.old index is_any }
    ensures { DoesAt (λ found left. TellsOfPort port result found left) group.old index group.new }
{
    let link = &group.links[index];
    link.port_counts(port)
}
