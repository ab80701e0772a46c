//! Tests of how traces, frames, IPv4 packets and UDP datagrams are read, with values worked out by hand
//! from the formats and the wire layouts. They show that the definitions read each field where the standards
//! have it, and which of two faults is the first.
#![tactic(auto)]

#[cfg(test)]
mod bad_digits;
#[cfg(test)]
mod fields;
#[cfg(test)]
mod frames;
#[cfg(test)]
mod lengths;
#[cfg(test)]
mod packets;
#[cfg(test)]
mod patterns;
#[cfg(test)]
mod times;
