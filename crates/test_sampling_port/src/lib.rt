//! Tests of a running sampling port, with values worked out by hand from the protocol: with eight readers, as the
//! receiver's ports have, and with four, which is the same code with another number. Each public call is made
//! once as its example says. Readers hold while the writer goes on, a schedule of the slot core is
//! played with the ends' seats, the steps of a publication and of a read are counted, and threads publish and read
//! until they end. They show what no contract can say: that a call succeeds, that no reader stops the writer, and
//! that the table's words pass between threads as its rule says.
#![tactic(auto)]

#[cfg(test)]
mod beside_core;
#[cfg(test)]
mod counts;
#[cfg(test)]
mod examples;
#[cfg(test)]
mod held;
#[cfg(test)]
mod messages;
#[cfg(test)]
mod partition;
#[cfg(test)]
mod seats;
#[cfg(test)]
mod threads;
