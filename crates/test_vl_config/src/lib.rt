//! Tests of configurations: documents, each with the settings or the fault that it has to give. They show
//! that the definitions say what the formats mean, key by key, and which of two faults is the first.
#![tactic(auto)]

#[cfg(test)]
mod checks;
#[cfg(test)]
mod configurations;
#[cfg(test)]
mod counts;
#[cfg(test)]
mod documents;
#[cfg(test)]
mod link_keys;
#[cfg(test)]
mod numbers;
#[cfg(test)]
mod port_keys;
#[cfg(test)]
mod repetitions;
#[cfg(test)]
mod settings;
#[cfg(test)]
mod strays;
