//! Tests of the ports that partitions read and take from, with values worked out by hand from the rules: a mailbox port,
//! and the queue of a queuing port. Readers and takers look on threads of their own, run to their end. They show what no
//! contract can say: that a call succeeds, that a refused put meant a full queue, and that a take which found nothing
//! meant an empty one.
#![tactic(auto)]

#[cfg(test)]
mod mailbox;
#[cfg(test)]
mod queue;
