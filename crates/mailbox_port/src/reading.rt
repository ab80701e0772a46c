//! Result of a read.
use es_base::Freshness;

/// Result of a partition's read.
#[derive(Clone, Copy, Debug, PartialEq, Eq)]
pub enum Reading {
    /// The message of this number, which came at `time` microseconds and has `len` octets. `out` begins with as many of
    /// them as fit. `validity` is that at the time of the read.
    Message {
        number: u64,
        time: u64,
        len: usize,
        validity: Freshness,
    },
    /// Nothing was published.
    Empty,
}
