//! What crosses threads: a system may be shared, and a pass may be sent. Nothing calls this; its proof is its use: a
//! field that can't be shared is refused as it is added.
use crate::net_pass::NetPass;
use crate::system::LiveSystem;

fn may_be_sent<T: Send>(_: &T) {}

fn may_be_shared<T: Sync>(_: &T) {}

/// Two threads may each have a pass, and share one system.
pub fn may_cross(system: &LiveSystem, pass: &NetPass) {
    may_be_shared(system);
    may_be_sent(pass);
}
