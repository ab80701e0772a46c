//! The calls of a network's pass.
ghost use Rattle.std.specs.Prelude.{◌≡◌, ◌<◌, ◌↔◌, ◌⊎◌, None, false, true};
ghost use Rattle.std.specs.Borrow.{sem};
ghost use Rattle.std.specs.Mem.{type_size};
ghost use Rattle.std.specs.Ptr.{null_ptr, points_to, uninit_at};
ghost use Rattle.system_c.specs.Made.{made_pass};
ghost use Rattle.slot_handles.specs.Marks.{after_close, if_made, is_made, pass_mark};
ghost use Rattle.receiver_slots.specs.Codes.{busy, done, no_place, not_made, not_open};
ghost use Rattle.system_slots.specs.Passing.{ComesToLink, TellsFillByPass, TellsFiltered, TellsLinkHealth, TellsPortByPass, CountsFrames, IsCodeOrBusy, IsPlaceOfPass, Receives, count_code, filtered_code, pass_fill_code, pass_port_code};
ghost use Rattle.system_c.specs.contracts.marked.MarkedPass.{the_row as pass_row};

use crate::marked::{MarkedPass, PASS};
use crate::pass_handle::PassHandle;
use receiver_slots::codes::NOT_MADE;
use receiver_slots::{FillReply, FrameReply, LinkHealthReply, PortCountsReply};

/// Size of the slot of a network's pass, in octets. The room is aligned to 8.
#[unsafe(no_mangle)]
pub extern "C" fn yelunnavi_pass_room() -> usize
    ensures { result ≡ type_size pass_row }
{
    std::mem::size_of::<MarkedPass>()
}

/// Makes a slot in the caller's room in which nothing is open.
#[unsafe(no_mangle)]
pub unsafe extern "C" fn yelunnavi_pass_make(at: *mut u8)
    requires* { sem 𝓛 (uninit_at pass_row at) }
    ensures* { sem 𝓛 (points_to pass_row at made_pass) }
{
    std::ptr::write(at as *mut MarkedPass, MarkedPass::new())
}

/// Takes the octets of a frame that came on the pass's network at `now` microseconds, and tells its verdict. BUSY while
/// the other network's thread has the frame's link: nothing has happened, and the program gives the same frame again.
#[unsafe(no_mangle)]
pub extern "C" fn yelunnavi_pass_receive(
    h: &mut PassHandle,
    now: u64,
    frame: &[u8],
    reply: &mut FrameReply,
) -> u32
    ensures place { (h.new.at ≡ h.old.at) × (h.new.room.mark ≡ h.old.room.mark) }
    ensures zeros { h.old.at ≡ null_ptr → (result ≡ not_made) × (h.new ≡ h.old) × (reply.new ≡ reply.old) }
    ensures made { (result ≡ not_made) ↔ (is_made pass_mark h.old.room.mark ≡ false) }
    ensures open { is_made pass_mark h.old.room.mark ≡ true → (result ≡ not_open) ↔ (h.old.room.slot ≡ None) }
    ensures received { result ≡ done → Receives h.old.room.slot h.new.room.slot now frame.now reply.new }
    ensures busy { result ≡ busy → ComesToLink h.old.room.slot frame.now }
    ensures same { 0 < result → (h.new.room.slot ≡ h.old.room.slot) × (reply.new ≡ reply.old) }
    ensures codes { (result ≡ done) ⊎ ((result ≡ not_open) ⊎ ((result ≡ busy) ⊎ (result ≡ not_made))) }
{
    let Some(made) = h.lend() else {
        return NOT_MADE;
    };
    if made.mark != PASS {
        return NOT_MADE;
    }
    made.slot.receive(now, frame, reply)
}

/// Tells the number of frames of the link at this place on the pass's network with a verdict of this kind, 1 to 13. It
/// saturates at 2^64 - 1.
#[unsafe(no_mangle)]
pub extern "C" fn yelunnavi_pass_count(
    h: &mut PassHandle,
    link: usize,
    kind: u32,
    count: &mut u64,
) -> u32
    ensures place { (h.new.at ≡ h.old.at) × (h.new.room.mark ≡ h.old.room.mark) }
    ensures zeros { h.old.at ≡ null_ptr → (result ≡ not_made) × (h.new ≡ h.old) × (count.new ≡ count.old) }
    ensures code { result ≡ if_made pass_mark h.old.room.mark (count_code h.old.room.slot link kind) }
    ensures counted { result ≡ done → CountsFrames h.old.room.slot link kind count.new }
    ensures same { 0 < result → count.new ≡ count.old }
    ensures kept { h.new.room.slot ≡ h.old.room.slot }
{
    let Some(made) = h.lend() else {
        return NOT_MADE;
    };
    if made.mark != PASS {
        return NOT_MADE;
    }
    made.slot.count(link, kind, count)
}

/// Tells, of the link at this place, when its latest frame came on the pass's network, and the number of its frames and
/// of partial datagrams given up, of both networks. BUSY while the other network's thread has the link.
#[unsafe(no_mangle)]
pub extern "C" fn yelunnavi_pass_health(
    h: &mut PassHandle,
    link: usize,
    reply: &mut LinkHealthReply,
) -> u32
    ensures place { (h.new.at ≡ h.old.at) × (h.new.room.mark ≡ h.old.room.mark) }
    ensures zeros { h.old.at ≡ null_ptr → (result ≡ not_made) × (h.new ≡ h.old) × (reply.new ≡ reply.old) }
    ensures made { (result ≡ not_made) ↔ (is_made pass_mark h.old.room.mark ≡ false) }
    ensures open { is_made pass_mark h.old.room.mark ≡ true → (result ≡ not_open) ↔ (h.old.room.slot ≡ None) }
    ensures link { result ≡ no_place → IsPlaceOfPass h.old.room.slot link → ⊥ }
    ensures told { result ≡ done → TellsLinkHealth h.old.room.slot link reply.new }
    ensures busy { result ≡ busy → IsPlaceOfPass h.old.room.slot link }
    ensures kept { h.new.room.slot ≡ h.old.room.slot }
    ensures same { 0 < result → reply.new ≡ reply.old }
    ensures codes { (result ≡ done) ⊎ ((result ≡ not_open) ⊎ ((result ≡ no_place) ⊎ ((result ≡ busy) ⊎ (result ≡ not_made)))) }
{
    let Some(made) = h.lend() else {
        return NOT_MADE;
    };
    if made.mark != PASS {
        return NOT_MADE;
    }
    made.slot.health(link, reply)
}

/// Tells how full a port's queue is, by the places of its link and of the port in it: how many messages were delivered
/// and not taken, as far as the system knows after it looked, and the greatest number that waited. NONE_LEFT if the port
/// samples, and BUSY while the other network's thread has the link.
#[unsafe(no_mangle)]
pub extern "C" fn yelunnavi_pass_fill(
    h: &mut PassHandle,
    link: usize,
    port: usize,
    reply: &mut FillReply,
) -> u32
    ensures place { (h.new.at ≡ h.old.at) × (h.new.room.mark ≡ h.old.room.mark) }
    ensures zeros { h.old.at ≡ null_ptr → (result ≡ not_made) × (h.new ≡ h.old) × (reply.new ≡ reply.old) }
    ensures code { IsCodeOrBusy (if_made pass_mark h.old.room.mark (pass_fill_code h.old.room.slot link port)) result }
    ensures told { result ≡ done → TellsFillByPass h.old.room.slot link port reply.new }
    ensures kept { h.new.room.slot ≡ h.old.room.slot }
    ensures same { 0 < result → reply.new ≡ reply.old }
{
    let Some(made) = h.lend() else {
        return NOT_MADE;
    };
    if made.mark != PASS {
        return NOT_MADE;
    }
    made.slot.fill(link, port, reply)
}

/// Tells what became of the messages for a port, by the places of its link and of the port in it. BUSY while the other
/// network's thread has the link.
#[unsafe(no_mangle)]
pub extern "C" fn yelunnavi_pass_port_counts(
    h: &mut PassHandle,
    link: usize,
    port: usize,
    reply: &mut PortCountsReply,
) -> u32
    ensures place { (h.new.at ≡ h.old.at) × (h.new.room.mark ≡ h.old.room.mark) }
    ensures zeros { h.old.at ≡ null_ptr → (result ≡ not_made) × (h.new ≡ h.old) × (reply.new ≡ reply.old) }
    ensures code { IsCodeOrBusy (if_made pass_mark h.old.room.mark (pass_port_code h.old.room.slot link port)) result }
    ensures told { result ≡ done → TellsPortByPass h.old.room.slot link port reply.new }
    ensures kept { h.new.room.slot ≡ h.old.room.slot }
    ensures same { 0 < result → reply.new ≡ reply.old }
{
    let Some(made) = h.lend() else {
        return NOT_MADE;
    };
    if made.mark != PASS {
        return NOT_MADE;
    }
    made.slot.port_counts(link, port, reply)
}

/// Tells the number of frames filtered on the pass's network for this cause, 1 to 5. It saturates at 2^64 - 1.
#[unsafe(no_mangle)]
pub extern "C" fn yelunnavi_pass_filtered(h: &mut PassHandle, cause: u32, count: &mut u64) -> u32
    ensures place { (h.new.at ≡ h.old.at) × (h.new.room.mark ≡ h.old.room.mark) }
    ensures zeros { h.old.at ≡ null_ptr → (result ≡ not_made) × (h.new ≡ h.old) × (count.new ≡ count.old) }
    ensures code { result ≡ if_made pass_mark h.old.room.mark (filtered_code h.old.room.slot cause) }
    ensures counted { result ≡ done → TellsFiltered h.old.room.slot cause count.new }
    ensures same { 0 < result → count.new ≡ count.old }
    ensures kept { h.new.room.slot ≡ h.old.room.slot }
{
    let Some(made) = h.lend() else {
        return NOT_MADE;
    };
    if made.mark != PASS {
        return NOT_MADE;
    }
    made.slot.filtered(cause, count)
}

/// Gives the pass away. Its network's frames reach the system no more.
#[unsafe(no_mangle)]
pub extern "C" fn yelunnavi_pass_close(h: &mut PassHandle)
    ensures place { (h.new.at ≡ h.old.at) × (h.new.room.mark ≡ h.old.room.mark) }
    ensures zeros { h.old.at ≡ null_ptr → h.new ≡ h.old }
    ensures value { h.new.room.slot ≡ after_close pass_mark h.old.room.mark None h.old.room.slot }
{
    if let Some(made) = h.lend() {
        if made.mark == PASS {
            made.slot.close();
        }
    }
}
