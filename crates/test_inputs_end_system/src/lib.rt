//! What the tests of the end system are given: configurations of many links, frames of each link, and a system with
//! both of its passes. There are no tests here.
#![tactic(auto)]

mod configurations;
mod given;
mod running;

pub use configurations::{Filtered, config_of, filtered_frames, sampling_links, smallest_for};
pub use given::Given;
pub use running::Running;
pub use vl_config::BUILT_IN;
