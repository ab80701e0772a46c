//! What a program in C has of an end system of two threads that keeps no frame: a slot for the system, and one for the
//! pass of each network, which the thread of that network has. Readers and takers are in the slots of `receiver_slots`.
//! Both passes share the system by counted references: a pass touches no other slot, and outlives the closing of the
//! system's; the memory goes back with the last of the three. Each call answers one of the [`codes`], and gives its
//! results by numbers, in a reply. Of the calls only the two openings take memory, and none waits: while the other
//! network's thread has a frame's link, [`PassSlot::receive`] answers [`BUSY`](codes::BUSY), and nothing has happened;
//! `system_c` exports them.
//!
//! ```rust
//! let Running { system, a, b } = &mut running;
//! assert!(rt; system.open_text(alloc, text.as_str().as_bytes(), 1, &mut fault) == DONE);
//! assert!(rt; hand_pass(system, A, a) == DONE && hand_pass(system, B, b) == DONE);
//! ..
//! assert!(rt; pass.receive(now, octets, &mut reply) == DONE);
//! ```
#![tactic(auto)]

mod crossing;
mod pass_slot;
mod passing;
mod running;
mod system_slot;

pub use crossing::may_cross;
pub use pass_slot::PassSlot;
pub use receiver_slots::codes;
pub use running::Running;
pub use system_slot::{SystemSlot, hand_pass};
