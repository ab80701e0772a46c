//! What the passes of two networks did with the links of an end system: their calls, where these stand among a link's
//! events, and how they are counted; and one network's pass on all links. Both end systems are built over it, the one
//! whose links keep their frames and the other.
#![tactic(auto)]

mod call;
mod counts;
mod net_pass;
mod on_link;
mod pass_counts;
mod reply;
mod settled;

pub use call::Call;
pub use counts::LinkCounts;
pub use net_pass::NetPass;
pub use on_link::{PassOnLink, SettledLink};
pub use pass_counts::{PassCounts, counts_on};
pub use reply::Reply;
pub use settled::{Settled, settle};
