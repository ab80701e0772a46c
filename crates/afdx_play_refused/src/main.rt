//! `afdx_play` once more: the gate runs it to a fault. Each stored run needs a crate of its own.
#![tactic(auto)]

use program::{Ended, run_on};

fn main(rt: HostRuntime) -> Ended {
    run_on(&rt, rt.stdin(), rt.stdout(), rt.stderr())
}
