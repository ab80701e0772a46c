//! The ends of ports that are left to hand out, by the names of the ports.
ghost use Rattle.std.specs.Prelude.{◌≡◌};
ghost use Rattle.receiver.specs.Named.{port_named};
ghost use Rattle.receiver.specs.Taking.{HandsNamed, HandsReader, HandsTaker};

use crate::ends::{LinkEnds, place_named};
use crate::partition::PartitionEnd;
use es_base::PortNo;
use mailbox_port::MailboxReader;
use message_ring::RingTaker;

/// Index of the link that has the port with this name, and the port's place in the link. None if no port has it, or its
/// end was taken.
pub fn port_named<E: Drop>(ends: &[LinkEnds<E>], name: &str) -> Option<(usize, PortNo)>
    ensures { result ≡ port_named name.now ends.now }
{
    let (place, at) = place_named(ends, name)?;
    Some((place, ends[place].ports[at].port))
}

/// Moves out a reader of the sampling port with this name, for a partition. None if no sampling port has the name, or its
/// readers were all taken.
pub fn reader_named(ends: &mut [LinkEnds<PartitionEnd>], name: &str) -> Option<MailboxReader>
    ensures { HandsNamed HandsReader name.now ends.old ends.new result }
{
    let (place, at) = place_named(ends, name)?;
    ends[place].ports[at].reads.take_reader()
}

/// Moves out the taker of the queuing port with this name, for a partition. None if no queuing port has the name, or it
/// was taken before.
pub fn taker_named(ends: &mut [LinkEnds<PartitionEnd>], name: &str) -> Option<RingTaker>
    ensures { HandsNamed HandsTaker name.now ends.old ends.new result }
{
    let (place, at) = place_named(ends, name)?;
    ends[place].ports[at].reads.take_taker()
}
