//! The receiving half of an end system for two threads, one a network, which keeps no frame: the links stand with their
//! ports in groups of neighbours, each group under a lock of its own, and a link's past is a value that proofs alone
//! read. After the opening no call takes memory or fails, and a call waits for the lock of its link's group and for
//! nothing else; `try_receive` waits for nobody, and gives up while the other network has the group.
//!
//! ```rust
//! let opened = LiveSystem::open(alloc, config, ReaderCount::most())?;
//! ..
//! let Opened { system, a, b, .. } = &mut self.opened;
//! match net {
//!     Net::A => system.receive(rt, a, now, octets),
//!     Net::B => system.receive(rt, b, now, octets),
//! }
//! ..
//! system.settle(a, b)
//! ```
#![tactic(auto)]

mod burst;
mod chunk;
mod crossing;
mod cut;
mod fill;
mod group;
mod health;
pub mod laws;
mod link_pass;
mod meetings;
mod net_pass;
mod opened;
mod opened_group;
mod row;
mod settled;
mod system;
mod visit;

pub use crossing::may_cross;
pub use health::LinkHealth;
pub use net_pass::NetPass;
pub use network_calls::{Call, PassCounts};
pub use opened::Opened;
pub use receiver::{
    Fill, LinkEnds, MailboxReader, Newest, PartitionEnd, PortCounts, PortOutlet, PortedLink,
    ReaderCount, Reply, RingTaker,
};
pub use settled::Settled;
pub use system::LiveSystem;
