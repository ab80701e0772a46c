//! Meetings of ports with their ends, under the links' locks.
ghost use Rattle.std.specs.Prelude.{◌≡◌};
ghost use Rattle.receiver.specs.Meetings.{HasOutletAt};
ghost use Rattle.receiver.specs.Port.{IsPortOf, IsQueueOf};
ghost use Rattle.network_calls.specs.Passes.{DoesAt};
ghost use Rattle.live_system.specs.Groups.{HasLinkAt};
ghost use Rattle.live_system.specs.Meetings.{KnowsOutlet, MeetsReader, MeetsTaker, VisitsAt};
ghost use Rattle.live_system.specs.System.{IsPassOf};

use crate::cut::LinkPlace;
use crate::group::Group;
use crate::net_pass::NetPass;
use crate::system::LiveSystem;
use es_base::PortNo;
use receiver::{MailboxReader, RingTaker};
use std::sync::Wait;

impl LiveSystem {
    /// Synchronizes a sampling port of the link at this place with a reader of it. Waits for the link's lock. The
    /// reader is given and given back, since the lock's contract doesn't say what a visit changes behind a `&mut` that
    /// it is lent.
    pub fn meet_reader<R: Wait>(
        &self,
        rt: &R,
        pass: &mut NetPass,
        place: usize,
        port: PortNo,
        reader: MailboxReader,
    ) -> MailboxReader
        requires own { IsPassOf self.now pass.old }
        requires outlet { KnowsOutlet pass.old.links place port (λ outlet. IsPortOf outlet reader) }
        ensures pass { pass.new ≡ pass.old }
        ensures meets { VisitsAt pass.old.links place (λ found left. MeetsReader port reader result found left) }
    {
        let LinkPlace { group, index } = self.places[place];
        let lock = &self.groups[group];
        pass.groups[group].meet_reader(rt, lock, index, port, reader)
    }

    /// Synchronizes a queuing port of the link at this place with its taker. Waits for the link's lock. The taker is
    /// given and given back, as a reader is.
    pub fn meet_taker<R: Wait>(
        &self,
        rt: &R,
        pass: &mut NetPass,
        place: usize,
        port: PortNo,
        taker: RingTaker,
    ) -> RingTaker
        requires own { IsPassOf self.now pass.old }
        requires outlet { KnowsOutlet pass.old.links place port (λ outlet. IsQueueOf outlet taker) }
        ensures pass { pass.new ≡ pass.old }
        ensures meets { VisitsAt pass.old.links place (λ found left. MeetsTaker port taker result found left) }
    {
        let LinkPlace { group, index } = self.places[place];
        let lock = &self.groups[group];
        pass.groups[group].meet_taker(rt, lock, index, port, taker)
    }
}

/// Synchronizes a reader with its port of the link at this index of a locked group.
pub(crate) fn meet_reader(
    group: &mut Group,
    index: usize,
    port: PortNo,
    mut reader: MailboxReader,
) -> MailboxReader
    requires { HasLinkAt group.old index (λ link. HasOutletAt link port (λ outlet. IsPortOf outlet reader)) }
    ensures { DoesAt (λ found left. MeetsReader port reader result found left) group.old index group.new }
{
    group.links[index].meet_reader(port, &mut reader);
    reader
}

/// Synchronizes a taker with its queue of the link at this index of a locked group.
pub(crate) fn meet_taker(
    group: &mut Group,
    index: usize,
    port: PortNo,
    mut taker: RingTaker,
) -> RingTaker
    requires { HasLinkAt group.old index (λ link. HasOutletAt link port (λ outlet. IsQueueOf outlet taker)) }
    ensures { DoesAt (λ found left. MeetsTaker port taker result found left) group.old index group.new }
{
    group.links[index].meet_taker(port, &mut taker);
    taker
}
