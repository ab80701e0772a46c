//! A pass's record of a frame that it gave to a link.
use es_base::Verdict;
use std::collections::LinkedList;

/// One frame that a pass gave to a link. It exists in contracts alone: no value of it is made.
pub struct Call {
    /// Place of its event among all events of the link.
    pub place: u64,
    /// Arrival time, in microseconds.
    pub time: u64,
    /// Its octets, without the FCS.
    pub frame: LinkedList<u8>,
    /// Its verdict.
    pub verdict: Verdict,
}
