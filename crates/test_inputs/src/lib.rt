//! What the tests of several crates are given: frames, links, readers and writers, and the
//! words of a command line. There are no tests here, and nothing is promised.
#![tactic(auto)]

mod devices;
pub mod fragments;
mod frames;
mod greatest;
mod links;
pub mod outputs;
pub mod rows;
mod words;

pub use devices::{ReadCall, ScriptedReader, ScriptedWriter, WriteCall};
pub use frames::{
    CONSTANT, ETHERNET, IP, LONGEST_IP, LONGEST_UDP, PAYLOAD, UDP, fives, frame_of, longest,
    sequence_number_at, smallest,
};
pub use greatest::{
    GREATEST_LINKS, GREATEST_PORTS, greatest_frame, greatest_number_at, greatest_payload,
    greatest_samples, greatest_text,
};
pub use links::{LINK, Link, SECOND_LINK, port_of, sampling_port};
pub use words::words_of;
