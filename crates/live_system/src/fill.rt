//! Fill levels of queues while frames come to their links.
ghost use Rattle.std.specs.Prelude.{◌≡◌, ◌<◌, IfSome, length};
ghost use Rattle.network_calls.specs.Passes.{DoesAt};
ghost use Rattle.live_system.specs.Fill.{TellsOfQueue};
ghost use Rattle.live_system.specs.Groups.{HasLinkAt, is_any};
ghost use Rattle.live_system.specs.Meetings.{VisitsAt};
ghost use Rattle.live_system.specs.System.{IsPassOf};

use crate::cut::LinkPlace;
use crate::group::Group;
use crate::net_pass::NetPass;
use crate::system::LiveSystem;
use es_base::PortNo;
use receiver::Fill;

impl LiveSystem {
    /// Fill level of the queue of a port of the link at this place, if nobody has the link's group at this moment: the
    /// queue is looked at once in the call. `None` if the other network has a link of the group, `Some(None)` if the
    /// port samples or the link has no such port. Waits for nobody, takes no memory, and can't fail.
    pub fn try_fill(&self, pass: &mut NetPass, place: usize, port: PortNo) -> Option<Option<Fill>>
        requires own { IsPassOf self.now pass.old }
        requires place { place < length pass.old.links }
        ensures pass { pass.new ≡ pass.old }
        ensures fill { IfSome result (λ fill. VisitsAt pass.old.links place (λ found left. TellsOfQueue port fill found left)) }
    {
        let LinkPlace { group, index } = self.places[place];
        let lock = &self.groups[group];
        pass.groups[group].try_fill(lock, index, port)
    }
}

/// Fill level of the queue of a port of the link at this index of a locked group. None if there is no such queue.
pub(crate) fn fill_at(group: &mut Group, index: usize, port: PortNo) -> Option<Fill>
    requires { HasLinkAt group.old index is_any }
    ensures { DoesAt (λ found left. TellsOfQueue port result found left) group.old index group.new }
{
    group.links[index].fill(port)
}
