//! Tests of the whole program, in memory: what it prints and how it ends, for words, files and streams of
//! all kinds. They show the texts that no contract names, those of `clap` and of a configuration's faults, and
//! that a run ends with the status of its fault.
#![tactic(auto)]

#[cfg(test)]
mod command_lines;
#[cfg(test)]
mod configurations;
#[cfg(test)]
mod example;
#[cfg(test)]
mod explanations;
#[cfg(test)]
mod faults;
#[cfg(test)]
mod hostile;
#[cfg(test)]
mod shelf;
#[cfg(test)]
mod streams;
#[cfg(test)]
mod words;
