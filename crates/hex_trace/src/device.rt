//! Devices over the standard library's readers and writers.
ghost use Rattle.std.specs.Prelude.{◌≡◌, false};
ghost use Rattle.hex_trace.specs.Device.{told_count};

use std::io::{self, ErrorKind};

/// A read or a write that failed.
#[derive(Clone, Copy, Debug, Drop, PartialEq, Eq)]
pub struct Failed;

/// A source or a sink over any reader or writer of the standard library. An interrupted call is
/// made again.
#[derive(Drop)]
pub struct Device<T> {
    /// The reader or the writer.
    pub inner: T,
    /// Whether a read or a write has failed, or a write took nothing.
    pub failed: bool,
}

impl<T> Device<T> {
    pub fn new(inner: T) -> Device<T>
        ensures { result ≡ record { inner = inner; failed = false } }
    {
        Device {
            inner,
            failed: false,
        }
    }
}

/// Answer of a standard reader or writer, as a source's or a sink's. None if the call was interrupted,
/// and is to be made again.
pub fn told(answer: io::Result<usize>) -> Option<Result<usize, Failed>>
    ensures { result ≡ told_count answer }
{
    match answer {
        Ok(count) => Some(Ok(count)),
        Err(error) if error.kind() == ErrorKind::Interrupted => None,
        Err(_) => Some(Err(Failed)),
    }
}
