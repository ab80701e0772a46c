//! What became of the messages for a port, in numbers.
ghost use Rattle.std.specs.Prelude.{◌≡◌};
ghost use Rattle.receiver_slots.specs.PortCounts.{net_number, port_counts_reply_of};

use es_base::Net;
use receiver::PortCounts;

/// What became of the messages for a port. The counts stop at the greatest number of 64 bits.
#[repr(C)]
#[derive(Clone, Copy, Debug, Drop, PartialEq, Eq)]
pub struct PortCountsReply {
    /// Messages delivered.
    pub delivered: u64,
    /// Messages for which its queue had no room.
    pub overflowed: u64,
    /// Messages longer than it takes.
    pub too_long: u64,
    /// Messages joined of fragments, if it samples.
    pub fragmented: u64,
    /// 1 if a message was delivered, else 0.
    pub came: u32,
    /// The network that brought the newest: 0 for A, 1 for B.
    pub net: u32,
    /// Arrival time of the frame that did, in microseconds.
    pub latest: u64,
}

/// The number of a network: A is 0, and B is 1.
fn net_number(net: Net) -> u32
    ensures { result ≡ net_number net }
{
    match net {
        Net::A => 0,
        Net::B => 1,
    }
}

/// Counts of a port, as a reply.
pub fn port_counts_reply_of(counts: PortCounts) -> PortCountsReply
    ensures { result ≡ port_counts_reply_of counts }
{
    let (came, net, latest) = match counts.newest {
        None => (0, 0, 0),
        Some(newest) => (1, net_number(newest.net), newest.time),
    };
    PortCountsReply {
        delivered: counts.delivered,
        overflowed: counts.overflowed,
        too_long: counts.too_long,
        fragmented: counts.fragmented,
        came,
        net,
        latest,
    }
}
