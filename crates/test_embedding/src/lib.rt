//! A receiver as a program builds it in: opened from a text, fed by one thread a network, read by partitions on
//! threads of their own, and settled. `docs/EMBEDDING.md` quotes this code. It ends by itself, and finds the same
//! whatever the schedule.
#![tactic(auto)]

#[cfg(test)]
mod frames;
#[cfg(test)]
mod life;
#[cfg(test)]
mod networks;
#[cfg(test)]
mod partitions;
