//! The end system that keeps no frame: worked frames with each reply, one by one and in bursts, the counts of both
//! passes, and two threads that end as one does.
#![tactic(auto)]

#[cfg(test)]
mod bursts;
#[cfg(test)]
mod example;
#[cfg(test)]
mod fills;
#[cfg(test)]
mod frames;
#[cfg(test)]
mod meetings;
#[cfg(test)]
mod running;
#[cfg(test)]
mod threads;
