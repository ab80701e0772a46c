//! The end system of two threads for programs in C: a handle for the system and one for each network's pass, beside
//! those of `receiver_c`, which are the same. It is compiled apart from `receiver_c`, and both make one archive: so a
//! program has what it calls, and a frame's way is compiled for each of them.
#![tactic(auto)]

pub mod marked;
pub mod pass_calls;
pub mod pass_handle;
pub mod system_calls;
pub mod system_handle;

use pass_handle::PassHandle;
use system_handle::SystemHandle;

/// What may go to another thread: refused if a handle may not. Never called.
fn may_cross() {
    crosses::<SystemHandle>();
    crosses::<PassHandle>();
}

fn crosses<T: Send>() {}
