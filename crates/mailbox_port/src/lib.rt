//! A sampling port with a mailbox for each of its readers, 1 to 8 (ARINC 664 Part 7, sampling service; the protocol is
//! own). A mailbox is a triple buffer: a publication copies the message once for each of them, and nobody waits. A
//! partition's reader of a mailbox knows the port's refresh period: a read says whether its message is fresh at the time
//! of the read, as READ_SAMPLING_MESSAGE of ARINC 653 does, or the message is read in place. No call takes memory after
//! the opening. Arrival times and the `now` of a call are of one clock.
//!
//! ```rust
//! let mut reader = MailboxReader::new(mailbox, 20_000);
//! let mut out = [0; 16];
//! assert!(rt; reader.read(1000, &mut out) == Reading::Empty);
//! ..
//! assert!(rt; writer.publish(1000, &[7, 8, 9]) == 1);
//! assert!(rt; reader.read(1000, &mut out) != Reading::Empty && out[2] == 9);
//! reader.update();
//! assert!(rt; reader.latest().is_some());
//! ```
#![tactic(auto)]

mod count;
pub mod laws;
mod port;
mod reader;
mod reading;

pub use count::ReaderCount;
pub use es_base::{Freshness, MOST_READERS};
pub use port::{Mailbox, PortWriter, open_mailboxes};
pub use reader::MailboxReader;
pub use reading::Reading;
pub use triple_buffer::{Latest, MOST_MESSAGES};
