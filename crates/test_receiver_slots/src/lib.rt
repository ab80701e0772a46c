//! The slots that programs in C have of the receiver for one task, and of the end system of two threads: each call
//! once, and each of its answers.
#![tactic(auto)]

#[cfg(test)]
mod ends;
#[cfg(test)]
mod frames;
#[cfg(test)]
mod given;
#[cfg(test)]
mod greatest;
#[cfg(test)]
mod health;
#[cfg(test)]
mod opening;
#[cfg(test)]
mod places;
#[cfg(test)]
mod systems;
#[cfg(test)]
mod tables;
