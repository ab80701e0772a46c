//! Programs that meet what the laws of delivery ask: a message in two fragments, sent on both networks, one of which
//! loses the second. So the laws say of the receiver, of both kinds of end systems and of the player that the message
//! was given once.
#![tactic(auto)]

pub mod keeping;
pub mod laws;
pub mod one_task;
pub mod two_threads;
