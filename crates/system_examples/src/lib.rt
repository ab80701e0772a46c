//! Programs that run an end system to its end, and what its law says of all their calls: one of an end system that keeps
//! its links' histories (`histories`), and one with two threads of an end system that keeps no frame (`live`).
#![tactic(auto)]

pub mod histories;
pub mod live;
