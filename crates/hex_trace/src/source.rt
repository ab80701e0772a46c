//! Sources of traces.
ghost use Rattle.std.specs.Prelude.{◌≡◌, ◌≤◌, ◌||◌, ℕ, Bool, List, Option, None, is_err, length, IfOk};
ghost use Rattle.std.specs.Io.KnownBytes.{ReadConsumes};

use crate::{Device, Failed, told};
use std::io;

/// A reader of a trace.
pub trait Source {
    /// The bytes still to come, if the source knows them.
    ghost remaining: { Self → Option (List ℕ) } = { λ _. None };

    /// Whether a read has failed.
    ghost has_failed: { Self → Bool };

    /// Reads some bytes into the front of `buffer`, and returns their number. 0 for a buffer that isn't
    /// empty means that no more will come.
    fn read(&mut self, buffer: &mut [u8]) -> Result<usize, Failed>
        ensures count { IfOk result (λ count. count ≤ length buffer.new) }
        ensures bytes { ReadConsumes (remaining self.old) (remaining self.new) result buffer.new }
        ensures flag { has_failed self.new ≡ (has_failed self.old || is_err result) };
}

impl<T: io::Read> Source for Device<T> {
    ghost remaining = { λ device. T.remaining device.inner };

    ghost has_failed = { λ device. device.failed };

    fn read(&mut self, buffer: &mut [u8]) -> Result<usize, Failed> {
        for _ in 0..u64::MAX {
            if let Some(answer) = told(self.inner.read(buffer)) {
                self.failed |= answer.is_err();
                return answer;
            }
        }
        self.failed = true;
        Err(Failed)
    }
}
