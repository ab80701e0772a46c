//! Reassembly of IPv4 datagrams (RFC 791 3.2): the fragments of up to four datagrams at one time are joined, in buffers
//! that are taken at the start. Nothing here knows of frames or of virtual links. Waiting pieces can be kept apart, in
//! no more memory than they take (`WaitingDatagrams`).
//!
//! A joined datagram is, octet by octet, that of all pieces, in whatever order they came: it ends where the latest
//! piece with no more to follow ends, and each octet is that of the latest piece with one at its place
//! ([`laws::joins_the_datagram`]).
//!
//! A receiver of plain IPv4 joins a datagram of 24 octets, whose end comes first:
//!
//! ```rust
//! match offered {
//!     Offered::Whole { octets, joined } => {
//!         assert!(rt; joined);
//!         assert!(rt; octets == b"This is not yet the end.".as_slice());
//!     }
//! ..
//! let mut reassembly = Reassembly::new(rt.alloc(), 500_000).expect(&rt, "memory");
//! let held = matches!(reassembly.offer(&end(), 1_000), Offered::Held);
//! assert!(rt; held);
//! check_joined(&rt, reassembly.offer(&beginning(), 1_200));
//! ```
#![tactic(auto)]

mod answer;
mod buffer;
mod fragment;
pub mod laws;
mod marks;
mod partial;
mod reassembly;
mod runs;
mod stretch;
mod waiting;

pub use answer::{Offered, Preview};
pub use buffer::LONGEST_JOINED;
pub use es_base::Memory;
pub use frame_reader::Packet;
pub use reassembly::{MOST_PARTIALS, Reassembly};
pub use waiting::WaitingDatagrams;
