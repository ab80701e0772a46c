//! What crosses threads: each slot may be sent. Nothing calls this; its proof is its use: a field that can't be sent is
//! refused as it is added.
use crate::pass_slot::PassSlot;
use crate::system_slot::SystemSlot;

fn may_be_sent<T: Send>(_: &T) {}

/// The slot of a pass goes to the thread of its network, and that of the system to the thread that closes it.
pub fn may_cross(pass: &PassSlot, system: &SystemSlot) {
    may_be_sent(pass);
    may_be_sent(system);
}
