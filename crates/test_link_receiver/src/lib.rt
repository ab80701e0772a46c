//! Tests of the receiver of one link, from the octets of a frame to its verdict, the newest messages and
//! what its history delivered: worked frames, with values worked out by hand from the rules. They show that
//! the definitions mean what the standards and this profile say, and that no link gives up after a while.
#![tactic(auto)]

#[cfg(test)]
mod bad_fragments;
#[cfg(test)]
mod beside;
#[cfg(test)]
mod datagrams;
#[cfg(test)]
mod epochs;
#[cfg(test)]
mod frames;
#[cfg(test)]
mod groups;
#[cfg(test)]
mod headers;
#[cfg(test)]
mod histories;
#[cfg(test)]
mod integrity;
#[cfg(test)]
mod kept;
#[cfg(test)]
mod many;
#[cfg(test)]
mod meetings;
#[cfg(test)]
mod messages;
#[cfg(test)]
mod packets;
#[cfg(test)]
mod parted;
#[cfg(test)]
mod partitions;
#[cfg(test)]
mod queued;
#[cfg(test)]
mod queues;
#[cfg(test)]
mod redundancy;
