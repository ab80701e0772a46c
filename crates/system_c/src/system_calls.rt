//! The calls of a system.
ghost use Rattle.std.specs.Prelude.{◌≡◌, ◌≢◌, ◌<◌, ◌≤◌, ◌↔◌, ◌⊎◌, IsSome, None, Some, false, true};
ghost use Rattle.std.specs.Borrow.{sem};
ghost use Rattle.std.specs.Mem.{type_size};
ghost use Rattle.std.specs.Ptr.{null_ptr, points_to, uninit_at};
ghost use Rattle.message_ring.specs.Queue.{Known};
ghost use Rattle.mailbox_port.specs.Reads.{PortReader};
ghost use Rattle.receiver.specs.Taking.{HandsReader, HandsTaker};
ghost use Rattle.mailbox_port.specs.Port.{is_reader_count};
ghost use Rattle.system_c.specs.Made.{made_system};
ghost use Rattle.slot_handles.specs.Marks.{after_close, if_made, is_made, pass_mark, reader_mark, system_mark, taker_mark};
ghost use Rattle.receiver_slots.specs.Codes.{already_open, done, faulty, no_memory, none_left, not_made, not_open, out_of_range};
ghost use Rattle.receiver_slots.specs.Receiving.{HasFault, HasTableFault};
ghost use Rattle.receiver_slots.specs.declared.reader_slot.ReaderState.TheVariants.{Reads};
ghost use Rattle.receiver_slots.specs.Slot.{CountsLinks, HandsOut, Opens, OpensTable, TellsLink, TellsPlace, TellsPort, hand_reader_code, hand_taker_code, link_code, links_code, place_code, port_code};
ghost use Rattle.system_slots.specs.Running.{HandsPass, IsNewSystem, config_of_system, hand_pass_code};
ghost use Rattle.system_c.specs.contracts.marked.MarkedSystem.{the_row as system_row};

use crate::marked::{MarkedSystem, PASS, SYSTEM};
use crate::pass_handle::PassHandle;
use crate::system_handle::SystemHandle;
use receiver_slots::codes::NOT_MADE;
use receiver_slots::{FaultReply, LinkReply, LinkRow, PlaceReply, PortReply, PortRow};
use slot_handles::marked::{READER, TAKER};
use slot_handles::reader_handle::ReaderHandle;
use slot_handles::taker_handle::TakerHandle;
use std::alloc::Global;
use system_slots::hand_pass;

/// Size of the slot of a system, in octets. The room is aligned to 8.
#[unsafe(no_mangle)]
pub extern "C" fn yelunnavi_system_room() -> usize
    ensures { result ≡ type_size system_row }
{
    std::mem::size_of::<MarkedSystem>()
}

/// Makes a slot in the caller's room in which nothing is open.
#[unsafe(no_mangle)]
pub unsafe extern "C" fn yelunnavi_system_make(at: *mut u8)
    requires* { sem 𝓛 (uninit_at system_row at) }
    ensures* { sem 𝓛 (points_to system_row at made_system) }
{
    std::ptr::write(at as *mut MarkedSystem, MarkedSystem::new())
}

/// Opens the system of the configuration in these octets, a TOML document. Each sampling port has `readers` readers, 1
/// to 8, else OUT_OF_RANGE. All memory is taken here. FAULTY, and its first fault with its key, link and port, if it
/// has one.
#[unsafe(no_mangle)]
pub extern "C" fn yelunnavi_system_open(
    alloc: Global,
    h: &mut SystemHandle,
    text: &[u8],
    readers: usize,
    fault: &mut FaultReply,
) -> u32
    ensures place { (h.new.at ≡ h.old.at) × (h.new.room.mark ≡ h.old.room.mark) }
    ensures zeros { h.old.at ≡ null_ptr → (result ≡ not_made) × (h.new ≡ h.old) × (fault.new ≡ fault.old) }
    ensures opened { result ≡ done → Opens IsNewSystem readers text.now h.new.room.slot }
    ensures fault { result ≡ faulty → HasFault text.now fault.new }
    ensures made { (result ≡ not_made) ↔ (is_made system_mark h.old.room.mark ≡ false) }
    ensures already { is_made system_mark h.old.room.mark ≡ true → (result ≡ already_open) ↔ IsSome h.old.room.slot }
    ensures range { is_made system_mark h.old.room.mark ≡ true → h.old.room.slot ≡ None → (result ≡ out_of_range) ↔ (is_reader_count readers ≡ false) }
    ensures same { 0 < result → h.new.room.slot ≡ h.old.room.slot }
    ensures others { result ≢ faulty → fault.new ≡ fault.old }
    ensures codes { (result ≤ no_memory) ⊎ ((result ≡ out_of_range) ⊎ (result ≡ not_made)) }
    ensures tried { result ≢ not_open }
{
    let Some(made) = h.lend() else {
        return NOT_MADE;
    };
    if made.mark != SYSTEM {
        return NOT_MADE;
    }
    made.slot.open_text(alloc, text, readers, fault)
}

/// Opens the system of the configuration of a table: the constant field, the links, and their ports one after another.
/// Else as `yelunnavi_system_open`, with the same faults, which have no line.
#[unsafe(no_mangle)]
pub extern "C" fn yelunnavi_system_open_table(
    alloc: Global,
    h: &mut SystemHandle,
    constant: &[u8; 4],
    links: &[LinkRow],
    ports: &[PortRow],
    readers: usize,
    fault: &mut FaultReply,
) -> u32
    ensures place { (h.new.at ≡ h.old.at) × (h.new.room.mark ≡ h.old.room.mark) }
    ensures zeros { h.old.at ≡ null_ptr → (result ≡ not_made) × (h.new ≡ h.old) × (fault.new ≡ fault.old) }
    ensures opened { result ≡ done → OpensTable IsNewSystem readers constant.now links.now ports.now h.new.room.slot }
    ensures fault { result ≡ faulty → HasTableFault constant.now links.now ports.now fault.new }
    ensures made { (result ≡ not_made) ↔ (is_made system_mark h.old.room.mark ≡ false) }
    ensures already { is_made system_mark h.old.room.mark ≡ true → (result ≡ already_open) ↔ IsSome h.old.room.slot }
    ensures range { is_made system_mark h.old.room.mark ≡ true → h.old.room.slot ≡ None → (result ≡ out_of_range) ↔ (is_reader_count readers ≡ false) }
    ensures same { 0 < result → h.new.room.slot ≡ h.old.room.slot }
    ensures others { result ≢ faulty → fault.new ≡ fault.old }
    ensures codes { (result ≤ no_memory) ⊎ ((result ≡ out_of_range) ⊎ (result ≡ not_made)) }
    ensures tried { result ≢ not_open }
{
    let Some(made) = h.lend() else {
        return NOT_MADE;
    };
    if made.mark != SYSTEM {
        return NOT_MADE;
    }
    made.slot
        .open_table(alloc, constant, links, ports, readers, fault)
}

/// Gives the system away, and the passes and ends that weren't handed out. A pass that was goes on.
#[unsafe(no_mangle)]
pub extern "C" fn yelunnavi_system_close(h: &mut SystemHandle)
    ensures place { (h.new.at ≡ h.old.at) × (h.new.room.mark ≡ h.old.room.mark) }
    ensures zeros { h.old.at ≡ null_ptr → h.new ≡ h.old }
    ensures value { h.new.room.slot ≡ after_close system_mark h.old.room.mark None h.old.room.slot }
{
    if let Some(made) = h.lend() {
        if made.mark == SYSTEM {
            made.slot.close();
        }
    }
}

/// Hands the pass of a network, 0 for A and 1 for B, to a slot that has none: once.
#[unsafe(no_mangle)]
pub extern "C" fn yelunnavi_system_hand_pass(
    h: &mut SystemHandle,
    net: u32,
    to: &mut PassHandle,
) -> u32
    ensures place { (h.new.at ≡ h.old.at) × (h.new.room.mark ≡ h.old.room.mark) }
    ensures to_place { (to.new.at ≡ to.old.at) × (to.new.room.mark ≡ to.old.room.mark) }
    ensures zeros { h.old.at ≡ null_ptr → (result ≡ not_made) × (h.new ≡ h.old) × (to.new ≡ to.old) }
    ensures to_zeros { to.old.at ≡ null_ptr → (result ≡ not_made) × (h.new.room ≡ h.old.room) × (to.new ≡ to.old) }
    ensures code { result ≡ if_made system_mark h.old.room.mark (if_made pass_mark to.old.room.mark (hand_pass_code h.old.room.slot to.old.room.slot net)) }
    ensures handed { result ≡ done → HandsPass net h.old.room.slot h.new.room.slot to.new.room.slot }
    ensures same { 0 < result → h.new.room.slot ≡ h.old.room.slot }
    ensures to { 0 < result → to.new.room.slot ≡ to.old.room.slot }
{
    let Some(made) = h.lend() else {
        return NOT_MADE;
    };
    let Some(room) = to.lend() else {
        return NOT_MADE;
    };
    if made.mark != SYSTEM || room.mark != PASS {
        return NOT_MADE;
    }
    hand_pass(&mut made.slot, net, &mut room.slot)
}

/// Hands a reader of the sampling port with this name to a slot that has none: as often as the opening was told.
/// NONE_LEFT if the port queues, or all its readers were handed out.
#[unsafe(no_mangle)]
pub extern "C" fn yelunnavi_system_hand_reader(
    h: &mut SystemHandle,
    to: &mut ReaderHandle,
    name: &[u8],
) -> u32
    ensures place { (h.new.at ≡ h.old.at) × (h.new.room.mark ≡ h.old.room.mark) }
    ensures to_place { (to.new.at ≡ to.old.at) × (to.new.room.mark ≡ to.old.room.mark) }
    ensures zeros { h.old.at ≡ null_ptr → (result ≡ not_made) × (h.new ≡ h.old) × (to.new ≡ to.old) }
    ensures to_zeros { to.old.at ≡ null_ptr → (result ≡ not_made) × (h.new.room ≡ h.old.room) × (to.new ≡ to.old) }
    ensures code { result ≡ if_made system_mark h.old.room.mark (if_made reader_mark to.old.room.mark (hand_reader_code h.old.room.slot to.old.room.slot name.now)) }
    ensures handed { result ≡ done → (reader : PortReader) × (to.new.room.slot ≡ Reads reader) × HandsOut HandsReader name.now h.old.room.slot h.new.room.slot (Some reader) }
    ensures left { result ≡ none_left → HandsOut HandsReader name.now h.old.room.slot h.new.room.slot None }
    ensures same { 0 < result → result ≢ none_left → h.new.room.slot ≡ h.old.room.slot }
    ensures to { 0 < result → to.new.room.slot ≡ to.old.room.slot }
{
    let Some(made) = h.lend() else {
        return NOT_MADE;
    };
    let Some(room) = to.lend() else {
        return NOT_MADE;
    };
    if made.mark != SYSTEM || room.mark != READER {
        return NOT_MADE;
    }
    made.slot.hand_reader(&mut room.slot, name)
}

/// Hands the end of the queue of the queuing port with this name to a slot that has none: once. NONE_LEFT if the port
/// samples, or the end was handed out.
#[unsafe(no_mangle)]
pub extern "C" fn yelunnavi_system_hand_queue(
    h: &mut SystemHandle,
    to: &mut TakerHandle,
    name: &[u8],
) -> u32
    ensures place { (h.new.at ≡ h.old.at) × (h.new.room.mark ≡ h.old.room.mark) }
    ensures to_place { (to.new.at ≡ to.old.at) × (to.new.room.mark ≡ to.old.room.mark) }
    ensures zeros { h.old.at ≡ null_ptr → (result ≡ not_made) × (h.new ≡ h.old) × (to.new ≡ to.old) }
    ensures to_zeros { to.old.at ≡ null_ptr → (result ≡ not_made) × (h.new.room ≡ h.old.room) × (to.new ≡ to.old) }
    ensures code { result ≡ if_made system_mark h.old.room.mark (if_made taker_mark to.old.room.mark (hand_taker_code h.old.room.slot to.old.room.slot name.now)) }
    ensures handed { result ≡ done → (taker : Known) × (to.new.room.slot ≡ Some taker) × HandsOut HandsTaker name.now h.old.room.slot h.new.room.slot (Some taker) }
    ensures left { result ≡ none_left → HandsOut HandsTaker name.now h.old.room.slot h.new.room.slot None }
    ensures same { 0 < result → result ≢ none_left → h.new.room.slot ≡ h.old.room.slot }
    ensures to { 0 < result → to.new.room.slot ≡ to.old.room.slot }
{
    let Some(made) = h.lend() else {
        return NOT_MADE;
    };
    let Some(room) = to.lend() else {
        return NOT_MADE;
    };
    if made.mark != SYSTEM || room.mark != TAKER {
        return NOT_MADE;
    }
    made.slot.hand_taker(&mut room.slot, name)
}

/// Tells the number of links of the configuration.
#[unsafe(no_mangle)]
pub extern "C" fn yelunnavi_system_links(h: &mut SystemHandle, links: &mut usize) -> u32
    ensures place { (h.new.at ≡ h.old.at) × (h.new.room.mark ≡ h.old.room.mark) }
    ensures zeros { h.old.at ≡ null_ptr → (result ≡ not_made) × (h.new ≡ h.old) × (links.new ≡ links.old) }
    ensures code { result ≡ if_made system_mark h.old.room.mark (links_code h.old.room.slot) }
    ensures told { result ≡ done → CountsLinks config_of_system h.old.room.slot links.new }
    ensures same { 0 < result → links.new ≡ links.old }
    ensures kept { h.new.room.slot ≡ h.old.room.slot }
{
    let Some(made) = h.lend() else {
        return NOT_MADE;
    };
    if made.mark != SYSTEM {
        return NOT_MADE;
    }
    made.slot.links(links)
}

/// Tells the settings of the link at this place of the configuration, and its number of ports.
#[unsafe(no_mangle)]
pub extern "C" fn yelunnavi_system_link(
    h: &mut SystemHandle,
    link: usize,
    reply: &mut LinkReply,
) -> u32
    ensures place { (h.new.at ≡ h.old.at) × (h.new.room.mark ≡ h.old.room.mark) }
    ensures zeros { h.old.at ≡ null_ptr → (result ≡ not_made) × (h.new ≡ h.old) × (reply.new ≡ reply.old) }
    ensures code { result ≡ if_made system_mark h.old.room.mark (link_code config_of_system h.old.room.slot link) }
    ensures told { result ≡ done → TellsLink config_of_system h.old.room.slot link reply.new }
    ensures same { 0 < result → reply.new ≡ reply.old }
    ensures kept { h.new.room.slot ≡ h.old.room.slot }
{
    let Some(made) = h.lend() else {
        return NOT_MADE;
    };
    if made.mark != SYSTEM {
        return NOT_MADE;
    }
    made.slot.link(link, reply)
}

/// Tells the settings of a port, by the places of its link and of the port in it, and its name, at the beginning of
/// `name`.
#[unsafe(no_mangle)]
pub extern "C" fn yelunnavi_system_port(
    h: &mut SystemHandle,
    link: usize,
    port: usize,
    reply: &mut PortReply,
    name: &mut [u8; 16],
) -> u32
    ensures place { (h.new.at ≡ h.old.at) × (h.new.room.mark ≡ h.old.room.mark) }
    ensures zeros { h.old.at ≡ null_ptr → (result ≡ not_made) × (h.new ≡ h.old) × (reply.new ≡ reply.old) × (name.new ≡ name.old) }
    ensures code { result ≡ if_made system_mark h.old.room.mark (port_code config_of_system h.old.room.slot link port) }
    ensures told { result ≡ done → TellsPort config_of_system h.old.room.slot link port reply.new name.old name.new }
    ensures same { 0 < result → (reply.new ≡ reply.old) × (name.new ≡ name.old) }
    ensures kept { h.new.room.slot ≡ h.old.room.slot }
{
    let Some(made) = h.lend() else {
        return NOT_MADE;
    };
    if made.mark != SYSTEM {
        return NOT_MADE;
    }
    made.slot.port(link, port, reply, name)
}

/// Tells the place of the link that has the port with this name, and the place of the port in it.
#[unsafe(no_mangle)]
pub extern "C" fn yelunnavi_system_place(
    h: &mut SystemHandle,
    name: &[u8],
    reply: &mut PlaceReply,
) -> u32
    ensures place { (h.new.at ≡ h.old.at) × (h.new.room.mark ≡ h.old.room.mark) }
    ensures zeros { h.old.at ≡ null_ptr → (result ≡ not_made) × (h.new ≡ h.old) × (reply.new ≡ reply.old) }
    ensures code { result ≡ if_made system_mark h.old.room.mark (place_code h.old.room.slot name.now) }
    ensures told { result ≡ done → TellsPlace h.old.room.slot name.now reply.new }
    ensures same { 0 < result → reply.new ≡ reply.old }
    ensures kept { h.new.room.slot ≡ h.old.room.slot }
{
    let Some(made) = h.lend() else {
        return NOT_MADE;
    };
    if made.mark != SYSTEM {
        return NOT_MADE;
    }
    made.slot.place(name, reply)
}
