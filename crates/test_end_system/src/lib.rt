//! Tests of the end system on one thread: worked frames through all of its calls, with values worked out by hand from
//! the rules.
#![tactic(auto)]

#[cfg(test)]
mod arrivals;
#[cfg(test)]
mod counts;
#[cfg(test)]
mod epochs;
#[cfg(test)]
mod example;
#[cfg(test)]
mod filtered;
#[cfg(test)]
mod histories;
#[cfg(test)]
mod links;
#[cfg(test)]
mod ports;
#[cfg(test)]
mod rows;
