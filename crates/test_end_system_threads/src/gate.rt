//! A gate that holds a link.
use end_system::Gate;
use es_base::LinkNo;
use std::sync::Wait;
use std::sync::atomic::{AtomicBool, Ordering};
use std::thread;

/// How many turns a thread waits for another at most. A turn is one load of a flag after giving up the processor.
pub(crate) const MOST_TURNS: u64 = 10_000_000;

/// Flags by which the threads of a test tell each other how far they are.
#[derive(Drop)]
pub(crate) struct Flags {
    /// A thread has the lock of the link that is held.
    pub is_held: AtomicBool,
    /// The other thread is done.
    pub is_done: AtomicBool,
    /// A thread waited for as many turns as it may.
    pub is_late: AtomicBool,
}

impl Flags {
    pub(crate) fn new() -> Flags {
        Flags {
            is_held: AtomicBool::new(false),
            is_done: AtomicBool::new(false),
            is_late: AtomicBool::new(false),
        }
    }

    /// Waits until this flag is set, for at most this many turns.
    pub(crate) fn wait_for(&self, flag: &AtomicBool, most_turns: u64) {
        for _ in 0..most_turns {
            thread::yield_now();
            if flag.load(Ordering::SeqCst) {
                return;
            }
        }
        self.is_late.store(true, Ordering::SeqCst);
    }
}

/// Holds the first frame of one link, under its lock, until the other thread is done.
#[derive(Clone, Copy)]
pub(crate) struct HoldingGate<'a> {
    pub vl: LinkNo,
    /// How many turns it holds the frame at most.
    pub most_turns: u64,
    pub flags: &'a Flags,
}

impl Gate for HoldingGate<'_> {
    fn enter<R: Wait>(&self, _rt: &R, vl: LinkNo) {
        if vl == self.vl && !self.flags.is_held.swap(true, Ordering::SeqCst) {
            self.flags.wait_for(&self.flags.is_done, self.most_turns);
        }
    }
}
