//! What C holds of a receiver, a reader and a taker: a handle, which lends what stands in room of the caller's, the
//! mark of its kind and a slot. A handle of zeros has no room, and lends nothing. Both libraries of exports stand on it
//! ([`receiver_c`] and [`system_c`]).
#![tactic(auto)]

pub mod marked;
pub mod reader_handle;
pub mod receiver_handle;
pub mod taker_handle;
