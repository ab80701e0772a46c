//! Tests of the lock, over a book in which two users write, with values worked out by hand, and two threads that
//! visit it until they end. They show what no contract can say: that the lock opens, and that a visit ends.
#![tactic(auto)]

pub mod book;
#[cfg(test)]
mod threads;
#[cfg(test)]
mod visits;
