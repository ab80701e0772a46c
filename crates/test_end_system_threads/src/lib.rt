//! Tests of the end system with a thread for each network: a link that is held stops no other, no call is lost, and
//! each link's history is a run of its own.
#![tactic(auto)]

#[cfg(test)]
mod calls;
#[cfg(test)]
mod gate;
#[cfg(test)]
mod held;
#[cfg(test)]
mod networks;
#[cfg(test)]
mod replays;
#[cfg(test)]
mod traces;
#[cfg(test)]
mod unread;
