//! A sampling port (ARINC 664 Part 7, sampling service; the protocol is own): one writer publishes messages, and up
//! to 14 readers, on threads of their own, read the newest. Nobody waits: no call takes a lock, none takes memory
//! after the opening, and nothing that a reader does can refuse or delay a publication. A message that is read or
//! held is whole, with its own number and time, and it was the newest when the reader looked last; `Empty` says
//! that nothing was published at the one look, and `Busy` that each try found a newer message than the one before.
//!
//! ```rust
//! open_port::<COUNT>(alloc).expect(rt, OWN)
//! ..
//! meet(&mut writer, &mut readers[0]);
//! for number in 1..=20 {
//!     assert_eq!(rt; writer.publish(1000, &[7, 8, 9]), Ok(number));
//! }
//! let (mut first, second) = first_two(readers);
//! check_read(rt, &mut first, 20);
//! check_held(rt, second, 20);
//! ```
//!
//! The ends share one table of 64-bit words, which change in single atomic steps (`atomic_table`): `latest`, an
//! announcement for each reader, and slots of 186 words, two more than readers (docs/SAMPLING.md has the words and
//! the steps). By the rule of the table (`KeptTable` in `specs/Rule.antt`) the words, and what the writer and each
//! reader know, are a lawful state of `slot_core`, each call of [`steps`] is one step of that core, and [`laws`]
//! says what follows at every moment.
#![tactic(auto)]

mod copy;
pub mod laws;
mod meeting;
mod open;
mod partition;
mod publish;
mod reader;
mod reader_seat;
mod rule;
mod seek;
pub mod steps;
mod writer;
mod writer_seat;

pub use es_base::{Freshness, freshness};
pub use meeting::{meet, read_last};
pub use open::open_port;
pub use partition::{HeldMessage, PartitionReader, Reading};
pub use reader::{Held, MOST_TRIES, NotHeld, Read, Reader};
pub use writer::{PublishFault, Writer};
