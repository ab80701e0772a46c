//! Contents of the rooms of a system's and of a pass's handle, as in [`slot_handles::marked`].
ghost use Rattle.std.specs.Prelude.{◌≡◌};

use system_slots::{PassSlot, SystemSlot};

/// The mark of the room of a system.
pub const SYSTEM: u64 = 0x5EC1_7E52_A664_0004;
/// The mark of the room of a network's pass.
pub const PASS: u64 = 0x5EC1_7E52_A664_0005;

/// The room of a system: its slot was made if the mark is [`SYSTEM`].
#[repr(C)]
#[derive(Drop)]
pub struct MarkedSystem {
    pub mark: u64,
    pub slot: SystemSlot,
}

impl MarkedSystem {
    ghost use Rattle.system_c.specs.Made.{made_system};

    pub fn new() -> MarkedSystem
        ensures { result ≡ made_system }
    {
        MarkedSystem {
            mark: SYSTEM,
            slot: SystemSlot::new(),
        }
    }
}

/// The room of a network's pass: its slot was made if the mark is [`PASS`].
#[repr(C)]
#[derive(Drop)]
pub struct MarkedPass {
    pub mark: u64,
    pub slot: PassSlot,
}

impl MarkedPass {
    ghost use Rattle.system_c.specs.Made.{made_pass};

    pub fn new() -> MarkedPass
        ensures { result ≡ made_pass }
    {
        MarkedPass {
            mark: PASS,
            slot: PassSlot::new(),
        }
    }
}
