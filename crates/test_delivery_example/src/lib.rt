//! Programs of which the laws of delivery are proved, run on the frames of their example: the port has its message, and a
//! partition takes it once.
#![tactic(auto)]

#[cfg(test)]
mod frames;
#[cfg(test)]
mod systems;
#[cfg(test)]
mod task;
