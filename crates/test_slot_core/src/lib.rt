//! Tests of a sampling port's core: schedules of its steps, with values worked out by hand from the
//! protocol. Each is played step by step, the long ones as one list too. They show that the definition of a
//! step means what the protocol says, and that no core gives up after a while.
#![tactic(auto)]

#[cfg(test)]
mod counts;
#[cfg(test)]
mod mistakes;
#[cfg(test)]
mod places;
#[cfg(test)]
mod publications;
#[cfg(test)]
mod schedule;
#[cfg(test)]
mod sizes;
#[cfg(test)]
mod turns;
#[cfg(test)]
mod writer;
