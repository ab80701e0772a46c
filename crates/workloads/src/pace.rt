//! How the threads of two networks go on beside one another: by batches, and neither is ahead of the other by one.
use std::sync::Wait;
use std::sync::atomic::{AtomicU64, Ordering};
use std::thread;

/// How many frames of a network come between two waits for the other network.
pub(crate) const BATCH: u64 = 256;

/// Number of batches of a round.
pub(crate) const BATCHES: u64 = 20;

/// How much later the frames of network B come, in microseconds.
pub(crate) const SKEW: u64 = 300;

/// Whether the other thread has ended so many batches, looked at for a while.
fn has_ended(other: &AtomicU64, batches: u64) -> bool {
    for _ in 0..100 {
        if other.load(Ordering::SeqCst) >= batches {
            return true;
        }
    }
    false
}

/// Waits until the other thread has ended so many batches. The greatest number says that it has no more.
pub(crate) fn wait_for<R: Wait>(rt: &R, other: &AtomicU64, batches: u64) {
    for _ in rt.forever() {
        if has_ended(other, batches) {
            return;
        }
        thread::yield_now();
    }
}
