//! The receiver for one task: worked frames, what partitions find at its ports, and what outlets
//! of plain memory keep.
#![tactic(auto)]

#[cfg(test)]
mod counts;
#[cfg(test)]
mod frames;
#[cfg(test)]
mod health;
#[cfg(test)]
mod kept;
#[cfg(test)]
mod meetings;
#[cfg(test)]
mod names;
#[cfg(test)]
mod opened;
#[cfg(test)]
mod ports;
