//! A slot for a system.
ghost use Rattle.std.specs.Prelude.{◌≡◌, ◌<◌};
ghost use Rattle.receiver_slots.specs.Codes.{done};
ghost use Rattle.system_slots.specs.Running.{HandsPass, hand_pass_code};

use crate::pass_slot::PassSlot;
use crate::running::Running;
use receiver_slots::codes::{ALREADY_OPEN, DONE, NO_NETWORK, NONE_LEFT, NOT_OPEN};
use receiver_slots::{Slot, net_of};

/// The system of a configuration, if any, with the passes of the networks and the ends of its ports that are left to
/// hand out.
pub type SystemSlot = Slot<Running>;

/// Hands the pass of a network, 0 for A and 1 for B, to a slot that has none: once.
pub fn hand_pass(from: &mut SystemSlot, net: u32, to: &mut PassSlot) -> u32
    ensures code { result ≡ hand_pass_code from.old to.old net }
    ensures handed { result ≡ done → HandsPass net from.old from.new to.new }
    ensures same { 0 < result → from.new ≡ from.old }
    ensures to { 0 < result → to.new ≡ to.old }
{
    let Some(inside) = &mut from.inside else {
        return NOT_OPEN;
    };
    if !to.is_closed() {
        return ALREADY_OPEN;
    }
    let Some(net) = net_of(net) else {
        return NO_NETWORK;
    };
    let Some(pass) = inside.opened.take_pass(net) else {
        return NONE_LEFT;
    };
    to.put(pass);
    DONE
}
