//! Which senders and networks bring each datagram once, whole, in order: sent whole or in fragments, up to four among
//! one another, over networks of which `frame_delivery` says that they bring each frame once. And whatever the networks
//! do, no message is made up, mixed or cut. Laws alone, over what came to one link.
#![tactic(auto)]

pub mod laws;
