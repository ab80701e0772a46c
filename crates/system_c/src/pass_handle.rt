//! Handle of a network's pass: the address of its room, or null, as in a handle of zeros.
ghost use Rattle.std.specs.Prelude.{◌≡◌, ◌≢◌, IfNone, IfSome};
ghost use Rattle.system_c.specs.declared.marked.MarkedPass.{MarkedPass};

use crate::marked::MarkedPass;
use std::marker::Model;

/// A slot in room of the caller's. The room begins less than 2^63 octets into its block of memory, as all memory does:
/// so its address may be compared with null.
#[repr(C)]
pub struct PassHandle {
    at: *mut u8,
    pub ghost room: { MarkedPass },
}

impl Model for PassHandle {
    ghost use Rattle.slot_handles.specs.Room.{owns_room};
    ghost use Rattle.system_c.specs.contracts.marked.MarkedPass.{the_row as room_row};

    ghost also_owns = { λ h. owns_room room_row h.at h.room.mark h.room };
}

impl PassHandle {
    ghost use Rattle.std.specs.Borrow.{sem};
    ghost use Rattle.std.specs.Bool.{MatchBool};
    ghost use Rattle.std.specs.Ptr.{null_ptr};
    ghost use Rattle.slot_handles.specs.Marks.{no_mark};
    ghost use Rattle.system_c.specs.PassLending.{LendsRoom, LendsRoomIf};

    /// The contents of the room, to work on, if there is a room.
    pub fn lend(&mut self) -> Option<&mut MarkedPass>
        ensures* writes_back { sem 𝓛 (LendsRoomIf self.entry result) }
        ensures value { IfSome result (λ r. r.now ≡ self.old.room) }
        ensures room { IfSome result (λ r. self.old.at ≢ null_ptr) }
        ensures none { IfNone result (self.old.room.mark ≡ no_mark) }
    {
        if self.is_null() {
            return None;
        }
        Some(self.lend_room())
    }

    /// Whether there is no room.
    fn is_null(&mut self) -> bool
        ensures { (self.new ≡ self.old) × MatchBool result (self.old.room.mark ≡ no_mark) (self.old.at ≢ null_ptr) }
    {
        self.at.is_null()
    }

    /// The contents of the room, to work on.
    fn lend_room(&mut self) -> &mut MarkedPass
        requires { self.old.at ≢ null_ptr }
        ensures* writes_back { sem 𝓛 (LendsRoom self.entry result) }
        ensures value { result.now ≡ self.old.room }
    {
        unsafe { &mut *(self.at as *mut MarkedPass) }
    }
}

// It may go to another thread, since its slot may.
unsafe impl Send for PassHandle {}
