//! Plays the hex traces of two networks through the receiver, and prints a line for each frame.
//!
//! What the program does is `program::run`; over a system's streams, `program::run_on`.
#![tactic(auto)]

use program::{Ended, run_on};

fn main(rt: HostRuntime) -> Ended {
    run_on(&rt, rt.stdin(), rt.stdout(), rt.stderr())
}
