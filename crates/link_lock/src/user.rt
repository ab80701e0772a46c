//! The two users of a lock.

/// One of the two users of a lock (own).
#[derive(Clone, Copy, Debug, PartialEq, Eq)]
pub enum User {
    First,
    Second,
}
