//! Result of a read. That of a mailbox (`mailbox_port`) has no Busy, so it is another type.
use es_base::Freshness;

/// Result of a partition's read.
#[derive(Clone, Copy, Debug, PartialEq, Eq)]
pub enum Reading {
    /// The message of this number, which came at `time` microseconds and has `len` octets. `out` begins with as many of
    /// them as fit. `validity` is that at the time of the read.
    Message {
        number: u64,
        time: u64,
        len: usize,
        validity: Freshness,
    },
    /// Nothing was published.
    Empty,
    /// Each try found a newer message than the one before; the newest that was seen has this number.
    Busy {
        number: u64,
    },
}
