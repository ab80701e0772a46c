//! Tests of how fragments become datagrams: packets as they are read from frames, with headers and
//! octets that were worked out by hand from the rules. On each packet `preview` is compared with `offer`. They
//! show that the definitions of pieces, groups and their age mean what RFC 791 and this profile say.
#![tactic(auto)]

#[cfg(test)]
mod bad;
#[cfg(test)]
mod datagrams;
#[cfg(test)]
mod groups;
#[cfg(test)]
mod longest;
#[cfg(test)]
mod orders;
#[cfg(test)]
mod plain;
#[cfg(test)]
mod steps;
