//! What the tests of the end system that keeps no frame are given: a system with both of its passes. There are no tests
//! here.
#![tactic(auto)]

mod live;

pub use live::Live;
