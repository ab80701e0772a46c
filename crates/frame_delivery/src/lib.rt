//! Which networks bring each frame once, in order: whichever of two copies of each frame comes, the first is forwarded,
//! and no other. So each message that comes whole in a frame is delivered once, in the order of sending. Laws alone,
//! over what came to one link, on networks that keep what is asked of them.
#![tactic(auto)]

pub mod laws;
