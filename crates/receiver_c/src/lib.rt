//! The receiver for one task, for programs in C: three kinds of handles, each of a slot in room of the caller's. What a
//! call does is said at the slots ([`receiver_slots`]) and, for C, in `examples/c/yelunnavi.h`. Of all calls the two
//! openings alone take memory, and none waits. A handle of zeros has no room: calls answer NOT_MADE. What C has to
//! keep, and nothing checks: a handle is of zeros or of a room that is as large as `.._room()` says, aligned to 8, made
//! by `.._init` once and used through one handle; one call at a time is made on a handle; what a call is passed doesn't
//! overlap.
#![tactic(auto)]

ghost use Rattle.std.specs.Prelude.{◌≡◌, ◌≢◌, ◌<◌, ◌≤◌, ◌↔◌, ◌⊎◌, IsSome, length, None, Some, false, true};
ghost use Rattle.std.specs.Borrow.{sem};
ghost use Rattle.std.specs.Mem.{type_size};
ghost use Rattle.std.specs.Ptr.{null_ptr, points_to, uninit_at};
ghost use Rattle.message_ring.specs.Queue.{Known};
ghost use Rattle.mailbox_port.specs.Reads.{PortReader};
ghost use Rattle.receiver.specs.Taking.{HandsReader, HandsTaker};
ghost use Rattle.mailbox_port.specs.Port.{is_reader_count};
ghost use Rattle.receiver_c.specs.Abi.{abi};
ghost use Rattle.receiver_c.specs.HeldOctets.{TellsOctets};
ghost use Rattle.slot_handles.specs.Made.{made_reader, made_receiver, made_taker};
ghost use Rattle.slot_handles.specs.Marks.{after_close, if_made, is_made, reader_mark, receiver_mark, taker_mark};
ghost use Rattle.receiver_slots.specs.Codes.{already_open, done, faulty, no_memory, none_left, not_made, not_open, out_of_range, stray_key};
ghost use Rattle.receiver_slots.specs.Checking.{HasStray, IsWithoutStray};
ghost use Rattle.receiver_slots.specs.Health.{TellsFill, TellsHealth, fill_code, health_code};
ghost use Rattle.receiver_slots.specs.PortCounts.{TellsPortCounts, port_counts_code};
ghost use Rattle.receiver_slots.specs.Reading.{Copies, DidHold, DidRead, TellsReader, copy_code, held_octets, read_code, release_code, released};
ghost use Rattle.receiver_slots.specs.Receiving.{CountsFrames, TellsFiltered, HasFault, HasTableFault, IsNewReceiver, Receives, config_of_receiver, count_code, filtered_code, receive_code};
ghost use Rattle.receiver_slots.specs.Slot.{CountsLinks, HandsOut, Opens, OpensTable, TellsLink, TellsPlace, TellsPort, hand_reader_code, hand_taker_code, link_code, links_code, place_code, port_code};
ghost use Rattle.receiver_slots.specs.Taking.{DidTake, TellsTaker, TellsWaiting, take_code, taker_code};
ghost use Rattle.receiver_slots.specs.declared.reader_slot.ReaderState.TheVariants.{Closed, Reads};
ghost use Rattle.slot_handles.specs.contracts.marked.MarkedReceiver.{the_row as receiver_row};
ghost use Rattle.slot_handles.specs.contracts.marked.MarkedReader.{the_row as reader_row};
ghost use Rattle.slot_handles.specs.contracts.marked.MarkedTaker.{the_row as taker_row};

use receiver_slots::codes::{DONE, HOLDS_NONE, NOT_MADE};
use receiver_slots::{
    FaultReply, FillReply, FrameReply, HealthReply, LimitReply, LinkReply, LinkRow, PlaceReply,
    PortCountsReply, PortReply, PortRow, ReadReply, TakeReply, check_text,
};
use std::alloc::Global;

pub mod held_octets;

use held_octets::{HeldOctets, octets_at};
use slot_handles::marked::{MarkedReader, MarkedReceiver, MarkedTaker, READER, RECEIVER, TAKER};
use slot_handles::reader_handle::ReaderHandle;
use slot_handles::receiver_handle::ReceiverHandle;
use slot_handles::taker_handle::TakerHandle;

/// The number of the interface: raised with each change of a struct, a call or a number.
pub const ABI: u32 = 9;

/// The number of the interface of this library. A program compares it with that of the header that it was compiled
/// with.
#[unsafe(no_mangle)]
pub extern "C" fn yelunnavi_abi() -> u32
    ensures { result ≡ abi }
{
    ABI
}

/// Reads the configuration in these octets, a TOML document, and opens nothing. FAULTY, and its first fault, as
/// `yelunnavi_receiver_open` tells it. STRAY_KEY, and the first table with a key that isn't its own, if that is all that is
/// wrong. All memory that is taken is given back.
#[unsafe(no_mangle)]
pub extern "C" fn yelunnavi_check_text(alloc: Global, text: &[u8], fault: &mut FaultReply) -> u32
    ensures done { result ≡ done → IsWithoutStray text.now }
    ensures fault { result ≡ faulty → HasFault text.now fault.new }
    ensures stray { result ≡ stray_key → HasStray text.now fault.new }
    ensures same { (result ≡ done) ⊎ (result ≡ no_memory) → fault.new ≡ fault.old }
    ensures codes { (result ≡ done) ⊎ ((result ≡ faulty) ⊎ ((result ≡ no_memory) ⊎ (result ≡ stray_key))) }
{
    check_text(alloc, text, fault)
}

// ---- the slot of a receiver

/// Size of the slot of a receiver, in octets. The room is aligned to 8.
#[unsafe(no_mangle)]
pub extern "C" fn yelunnavi_receiver_room() -> usize
    ensures { result ≡ type_size receiver_row }
{
    std::mem::size_of::<MarkedReceiver>()
}

/// Makes a slot in the caller's room in which nothing is open.
#[unsafe(no_mangle)]
pub unsafe extern "C" fn yelunnavi_receiver_make(at: *mut u8)
    requires* { sem 𝓛 (uninit_at receiver_row at) }
    ensures* { sem 𝓛 (points_to receiver_row at made_receiver) }
{
    std::ptr::write(at as *mut MarkedReceiver, MarkedReceiver::new())
}

/// Opens the receiver of the configuration in these octets, a TOML document. Each sampling port has `readers` readers,
/// 1 to 8, else OUT_OF_RANGE. All memory is taken here. FAULTY, and its first fault with its key, link and port, if it
/// has one.
#[unsafe(no_mangle)]
pub extern "C" fn yelunnavi_receiver_open(
    alloc: Global,
    h: &mut ReceiverHandle,
    text: &[u8],
    readers: usize,
    fault: &mut FaultReply,
) -> u32
    ensures place { (h.new.at ≡ h.old.at) × (h.new.room.mark ≡ h.old.room.mark) }
    ensures zeros { h.old.at ≡ null_ptr → (result ≡ not_made) × (h.new ≡ h.old) × (fault.new ≡ fault.old) }
    ensures opened { result ≡ done → Opens IsNewReceiver readers text.now h.new.room.slot }
    ensures fault { result ≡ faulty → HasFault text.now fault.new }
    ensures made { (result ≡ not_made) ↔ (is_made receiver_mark h.old.room.mark ≡ false) }
    ensures already { is_made receiver_mark h.old.room.mark ≡ true → (result ≡ already_open) ↔ IsSome h.old.room.slot }
    ensures range { is_made receiver_mark h.old.room.mark ≡ true → h.old.room.slot ≡ None → (result ≡ out_of_range) ↔ (is_reader_count readers ≡ false) }
    ensures same { 0 < result → h.new.room.slot ≡ h.old.room.slot }
    ensures others { result ≢ faulty → fault.new ≡ fault.old }
    ensures codes { (result ≤ no_memory) ⊎ ((result ≡ out_of_range) ⊎ (result ≡ not_made)) }
    ensures tried { result ≢ not_open }
{
    let Some(made) = h.lend() else {
        return NOT_MADE;
    };
    if made.mark != RECEIVER {
        return NOT_MADE;
    }
    made.slot.open_text(alloc, text, readers, fault)
}

/// Opens the receiver of the configuration of a table: the constant field, the links, and their ports one after
/// another. Else as `yelunnavi_receiver_open`, with the same faults, which have no line.
#[unsafe(no_mangle)]
pub extern "C" fn yelunnavi_receiver_open_table(
    alloc: Global,
    h: &mut ReceiverHandle,
    constant: &[u8; 4],
    links: &[LinkRow],
    ports: &[PortRow],
    readers: usize,
    fault: &mut FaultReply,
) -> u32
    ensures place { (h.new.at ≡ h.old.at) × (h.new.room.mark ≡ h.old.room.mark) }
    ensures zeros { h.old.at ≡ null_ptr → (result ≡ not_made) × (h.new ≡ h.old) × (fault.new ≡ fault.old) }
    ensures opened { result ≡ done → OpensTable IsNewReceiver readers constant.now links.now ports.now h.new.room.slot }
    ensures fault { result ≡ faulty → HasTableFault constant.now links.now ports.now fault.new }
    ensures made { (result ≡ not_made) ↔ (is_made receiver_mark h.old.room.mark ≡ false) }
    ensures already { is_made receiver_mark h.old.room.mark ≡ true → (result ≡ already_open) ↔ IsSome h.old.room.slot }
    ensures range { is_made receiver_mark h.old.room.mark ≡ true → h.old.room.slot ≡ None → (result ≡ out_of_range) ↔ (is_reader_count readers ≡ false) }
    ensures same { 0 < result → h.new.room.slot ≡ h.old.room.slot }
    ensures others { result ≢ faulty → fault.new ≡ fault.old }
    ensures codes { (result ≤ no_memory) ⊎ ((result ≡ out_of_range) ⊎ (result ≡ not_made)) }
    ensures tried { result ≢ not_open }
{
    let Some(made) = h.lend() else {
        return NOT_MADE;
    };
    if made.mark != RECEIVER {
        return NOT_MADE;
    }
    made.slot
        .open_table(alloc, constant, links, ports, readers, fault)
}

/// Gives the receiver away, and the ends of its ports that weren't handed out.
#[unsafe(no_mangle)]
pub extern "C" fn yelunnavi_receiver_close(h: &mut ReceiverHandle)
    ensures place { (h.new.at ≡ h.old.at) × (h.new.room.mark ≡ h.old.room.mark) }
    ensures zeros { h.old.at ≡ null_ptr → h.new ≡ h.old }
    ensures value { h.new.room.slot ≡ after_close receiver_mark h.old.room.mark None h.old.room.slot }
{
    if let Some(made) = h.lend() {
        if made.mark == RECEIVER {
            made.slot.close();
        }
    }
}

/// Takes the octets of a frame that came on a network, 0 for A and 1 for B, at `now` microseconds, and tells what
/// became of it.
#[unsafe(no_mangle)]
pub extern "C" fn yelunnavi_receiver_receive(
    h: &mut ReceiverHandle,
    net: u32,
    now: u64,
    frame: &[u8],
    reply: &mut FrameReply,
) -> u32
    ensures place { (h.new.at ≡ h.old.at) × (h.new.room.mark ≡ h.old.room.mark) }
    ensures zeros { h.old.at ≡ null_ptr → (result ≡ not_made) × (h.new ≡ h.old) × (reply.new ≡ reply.old) }
    ensures code { result ≡ if_made receiver_mark h.old.room.mark (receive_code h.old.room.slot net) }
    ensures received { result ≡ done → Receives h.old.room.slot h.new.room.slot net now frame.now reply.new }
    ensures same { 0 < result → (h.new.room.slot ≡ h.old.room.slot) × (reply.new ≡ reply.old) }
{
    let Some(made) = h.lend() else {
        return NOT_MADE;
    };
    if made.mark != RECEIVER {
        return NOT_MADE;
    }
    made.slot.receive(net, now, frame, reply)
}

/// Hands a reader of the sampling port with this name to a slot that has none: as often as the opening was told.
/// NONE_LEFT if the port queues, or all its readers were handed out.
#[unsafe(no_mangle)]
pub extern "C" fn yelunnavi_receiver_hand_reader(
    h: &mut ReceiverHandle,
    to: &mut ReaderHandle,
    name: &[u8],
) -> u32
    ensures place { (h.new.at ≡ h.old.at) × (h.new.room.mark ≡ h.old.room.mark) }
    ensures to_place { (to.new.at ≡ to.old.at) × (to.new.room.mark ≡ to.old.room.mark) }
    ensures zeros { h.old.at ≡ null_ptr → (result ≡ not_made) × (h.new ≡ h.old) × (to.new ≡ to.old) }
    ensures to_zeros { to.old.at ≡ null_ptr → (result ≡ not_made) × (h.new.room ≡ h.old.room) × (to.new ≡ to.old) }
    ensures code { result ≡ if_made receiver_mark h.old.room.mark (if_made reader_mark to.old.room.mark (hand_reader_code h.old.room.slot to.old.room.slot name.now)) }
    ensures handed { result ≡ done → (reader : PortReader) × (to.new.room.slot ≡ Reads reader) × HandsOut HandsReader name.now h.old.room.slot h.new.room.slot (Some reader) }
    ensures left { result ≡ none_left → HandsOut HandsReader name.now h.old.room.slot h.new.room.slot None }
    ensures same { 0 < result → result ≢ none_left → h.new.room.slot ≡ h.old.room.slot }
    ensures to { 0 < result → to.new.room.slot ≡ to.old.room.slot }
{
    let Some(made) = h.lend() else {
        return NOT_MADE;
    };
    let Some(room) = to.lend() else {
        return NOT_MADE;
    };
    if made.mark != RECEIVER || room.mark != READER {
        return NOT_MADE;
    }
    made.slot.hand_reader(&mut room.slot, name)
}

/// Hands the end of the queue of the queuing port with this name to a slot that has none: once. NONE_LEFT if the port
/// samples, or the end was handed out.
#[unsafe(no_mangle)]
pub extern "C" fn yelunnavi_receiver_hand_queue(
    h: &mut ReceiverHandle,
    to: &mut TakerHandle,
    name: &[u8],
) -> u32
    ensures place { (h.new.at ≡ h.old.at) × (h.new.room.mark ≡ h.old.room.mark) }
    ensures to_place { (to.new.at ≡ to.old.at) × (to.new.room.mark ≡ to.old.room.mark) }
    ensures zeros { h.old.at ≡ null_ptr → (result ≡ not_made) × (h.new ≡ h.old) × (to.new ≡ to.old) }
    ensures to_zeros { to.old.at ≡ null_ptr → (result ≡ not_made) × (h.new.room ≡ h.old.room) × (to.new ≡ to.old) }
    ensures code { result ≡ if_made receiver_mark h.old.room.mark (if_made taker_mark to.old.room.mark (hand_taker_code h.old.room.slot to.old.room.slot name.now)) }
    ensures handed { result ≡ done → (taker : Known) × (to.new.room.slot ≡ Some taker) × HandsOut HandsTaker name.now h.old.room.slot h.new.room.slot (Some taker) }
    ensures left { result ≡ none_left → HandsOut HandsTaker name.now h.old.room.slot h.new.room.slot None }
    ensures same { 0 < result → result ≢ none_left → h.new.room.slot ≡ h.old.room.slot }
    ensures to { 0 < result → to.new.room.slot ≡ to.old.room.slot }
{
    let Some(made) = h.lend() else {
        return NOT_MADE;
    };
    let Some(room) = to.lend() else {
        return NOT_MADE;
    };
    if made.mark != RECEIVER || room.mark != TAKER {
        return NOT_MADE;
    }
    made.slot.hand_taker(&mut room.slot, name)
}

/// Tells the number of frames of the link at this place on this network with a verdict of this kind, 1 to 13. It
/// saturates at 2^64 - 1.
#[unsafe(no_mangle)]
pub extern "C" fn yelunnavi_receiver_count(
    h: &mut ReceiverHandle,
    link: usize,
    net: u32,
    kind: u32,
    count: &mut u64,
) -> u32
    ensures place { (h.new.at ≡ h.old.at) × (h.new.room.mark ≡ h.old.room.mark) }
    ensures zeros { h.old.at ≡ null_ptr → (result ≡ not_made) × (h.new ≡ h.old) × (count.new ≡ count.old) }
    ensures code { result ≡ if_made receiver_mark h.old.room.mark (count_code h.old.room.slot link net kind) }
    ensures counted { result ≡ done → CountsFrames h.old.room.slot link net kind count.new }
    ensures same { 0 < result → count.new ≡ count.old }
    ensures kept { h.new.room.slot ≡ h.old.room.slot }
{
    let Some(made) = h.lend() else {
        return NOT_MADE;
    };
    if made.mark != RECEIVER {
        return NOT_MADE;
    }
    made.slot.count(link, net, kind, count)
}

/// Tells the number of frames filtered on this network for this cause, 1 to 5. It saturates at 2^64 - 1.
#[unsafe(no_mangle)]
pub extern "C" fn yelunnavi_receiver_filtered(
    h: &mut ReceiverHandle,
    net: u32,
    cause: u32,
    count: &mut u64,
) -> u32
    ensures place { (h.new.at ≡ h.old.at) × (h.new.room.mark ≡ h.old.room.mark) }
    ensures zeros { h.old.at ≡ null_ptr → (result ≡ not_made) × (h.new ≡ h.old) × (count.new ≡ count.old) }
    ensures code { result ≡ if_made receiver_mark h.old.room.mark (filtered_code h.old.room.slot net cause) }
    ensures counted { result ≡ done → TellsFiltered h.old.room.slot net cause count.new }
    ensures same { 0 < result → count.new ≡ count.old }
    ensures kept { h.new.room.slot ≡ h.old.room.slot }
{
    let Some(made) = h.lend() else {
        return NOT_MADE;
    };
    if made.mark != RECEIVER {
        return NOT_MADE;
    }
    made.slot.filtered(net, cause, count)
}

/// Tells, of the link at this place, the arrival time of its latest frame on each network, whatever its verdict, and
/// the number of partial datagrams given up.
#[unsafe(no_mangle)]
pub extern "C" fn yelunnavi_receiver_health(
    h: &mut ReceiverHandle,
    link: usize,
    reply: &mut HealthReply,
) -> u32
    ensures place { (h.new.at ≡ h.old.at) × (h.new.room.mark ≡ h.old.room.mark) }
    ensures zeros { h.old.at ≡ null_ptr → (result ≡ not_made) × (h.new ≡ h.old) × (reply.new ≡ reply.old) }
    ensures code { result ≡ if_made receiver_mark h.old.room.mark (health_code h.old.room.slot link) }
    ensures told { result ≡ done → TellsHealth h.old.room.slot link reply.new }
    ensures same { 0 < result → reply.new ≡ reply.old }
    ensures kept { h.new.room.slot ≡ h.old.room.slot }
{
    let Some(made) = h.lend() else {
        return NOT_MADE;
    };
    if made.mark != RECEIVER {
        return NOT_MADE;
    }
    made.slot.health(link, reply)
}

/// Tells what became of the messages for a port, by the places of its link and of the port in it.
#[unsafe(no_mangle)]
pub extern "C" fn yelunnavi_receiver_port_counts(
    h: &mut ReceiverHandle,
    link: usize,
    port: usize,
    reply: &mut PortCountsReply,
) -> u32
    ensures place { (h.new.at ≡ h.old.at) × (h.new.room.mark ≡ h.old.room.mark) }
    ensures zeros { h.old.at ≡ null_ptr → (result ≡ not_made) × (h.new ≡ h.old) × (reply.new ≡ reply.old) }
    ensures code { result ≡ if_made receiver_mark h.old.room.mark (port_counts_code h.old.room.slot link port) }
    ensures told { result ≡ done → TellsPortCounts h.old.room.slot link port reply.new }
    ensures same { 0 < result → reply.new ≡ reply.old }
    ensures kept { h.new.room.slot ≡ h.old.room.slot }
{
    let Some(made) = h.lend() else {
        return NOT_MADE;
    };
    if made.mark != RECEIVER {
        return NOT_MADE;
    }
    made.slot.port_counts(link, port, reply)
}

/// Tells how full a port's queue is, by the places of its link and of the port in it: how many messages were delivered
/// and not taken, as far as the receiver knows after it looked, and the greatest number that waited. NONE_LEFT if the
/// port samples.
#[unsafe(no_mangle)]
pub extern "C" fn yelunnavi_receiver_fill(
    h: &mut ReceiverHandle,
    link: usize,
    port: usize,
    reply: &mut FillReply,
) -> u32
    ensures place { (h.new.at ≡ h.old.at) × (h.new.room.mark ≡ h.old.room.mark) }
    ensures zeros { h.old.at ≡ null_ptr → (result ≡ not_made) × (h.new ≡ h.old) × (reply.new ≡ reply.old) }
    ensures code { result ≡ if_made receiver_mark h.old.room.mark (fill_code h.old.room.slot link port) }
    ensures told { result ≡ done → TellsFill h.old.room.slot h.new.room.slot link port reply.new }
    ensures same { 0 < result → (h.new.room.slot ≡ h.old.room.slot) × (reply.new ≡ reply.old) }
{
    let Some(made) = h.lend() else {
        return NOT_MADE;
    };
    if made.mark != RECEIVER {
        return NOT_MADE;
    }
    made.slot.fill(link, port, reply)
}

/// Tells the number of links of the configuration.
#[unsafe(no_mangle)]
pub extern "C" fn yelunnavi_receiver_links(h: &mut ReceiverHandle, links: &mut usize) -> u32
    ensures place { (h.new.at ≡ h.old.at) × (h.new.room.mark ≡ h.old.room.mark) }
    ensures zeros { h.old.at ≡ null_ptr → (result ≡ not_made) × (h.new ≡ h.old) × (links.new ≡ links.old) }
    ensures code { result ≡ if_made receiver_mark h.old.room.mark (links_code h.old.room.slot) }
    ensures told { result ≡ done → CountsLinks config_of_receiver h.old.room.slot links.new }
    ensures same { 0 < result → links.new ≡ links.old }
    ensures kept { h.new.room.slot ≡ h.old.room.slot }
{
    let Some(made) = h.lend() else {
        return NOT_MADE;
    };
    if made.mark != RECEIVER {
        return NOT_MADE;
    }
    made.slot.links(links)
}

/// Tells the settings of the link at this place of the configuration, and its number of ports.
#[unsafe(no_mangle)]
pub extern "C" fn yelunnavi_receiver_link(
    h: &mut ReceiverHandle,
    link: usize,
    reply: &mut LinkReply,
) -> u32
    ensures place { (h.new.at ≡ h.old.at) × (h.new.room.mark ≡ h.old.room.mark) }
    ensures zeros { h.old.at ≡ null_ptr → (result ≡ not_made) × (h.new ≡ h.old) × (reply.new ≡ reply.old) }
    ensures code { result ≡ if_made receiver_mark h.old.room.mark (link_code config_of_receiver h.old.room.slot link) }
    ensures told { result ≡ done → TellsLink config_of_receiver h.old.room.slot link reply.new }
    ensures same { 0 < result → reply.new ≡ reply.old }
    ensures kept { h.new.room.slot ≡ h.old.room.slot }
{
    let Some(made) = h.lend() else {
        return NOT_MADE;
    };
    if made.mark != RECEIVER {
        return NOT_MADE;
    }
    made.slot.link(link, reply)
}

/// Tells the settings of a port, by the places of its link and of the port in it, and its name, at the beginning of
/// `name`.
#[unsafe(no_mangle)]
pub extern "C" fn yelunnavi_receiver_port(
    h: &mut ReceiverHandle,
    link: usize,
    port: usize,
    reply: &mut PortReply,
    name: &mut [u8; 16],
) -> u32
    ensures place { (h.new.at ≡ h.old.at) × (h.new.room.mark ≡ h.old.room.mark) }
    ensures zeros { h.old.at ≡ null_ptr → (result ≡ not_made) × (h.new ≡ h.old) × (reply.new ≡ reply.old) × (name.new ≡ name.old) }
    ensures code { result ≡ if_made receiver_mark h.old.room.mark (port_code config_of_receiver h.old.room.slot link port) }
    ensures told { result ≡ done → TellsPort config_of_receiver h.old.room.slot link port reply.new name.old name.new }
    ensures same { 0 < result → (reply.new ≡ reply.old) × (name.new ≡ name.old) }
    ensures kept { h.new.room.slot ≡ h.old.room.slot }
{
    let Some(made) = h.lend() else {
        return NOT_MADE;
    };
    if made.mark != RECEIVER {
        return NOT_MADE;
    }
    made.slot.port(link, port, reply, name)
}

/// Tells the place of the link that has the port with this name, and the place of the port in it.
#[unsafe(no_mangle)]
pub extern "C" fn yelunnavi_receiver_place(
    h: &mut ReceiverHandle,
    name: &[u8],
    reply: &mut PlaceReply,
) -> u32
    ensures place { (h.new.at ≡ h.old.at) × (h.new.room.mark ≡ h.old.room.mark) }
    ensures zeros { h.old.at ≡ null_ptr → (result ≡ not_made) × (h.new ≡ h.old) × (reply.new ≡ reply.old) }
    ensures code { result ≡ if_made receiver_mark h.old.room.mark (place_code h.old.room.slot name.now) }
    ensures told { result ≡ done → TellsPlace h.old.room.slot name.now reply.new }
    ensures same { 0 < result → reply.new ≡ reply.old }
    ensures kept { h.new.room.slot ≡ h.old.room.slot }
{
    let Some(made) = h.lend() else {
        return NOT_MADE;
    };
    if made.mark != RECEIVER {
        return NOT_MADE;
    }
    made.slot.place(name, reply)
}

// ---- the slot of a reader

/// Size of the slot of a reader, in octets. The room is aligned to 8.
#[unsafe(no_mangle)]
pub extern "C" fn yelunnavi_reader_room() -> usize
    ensures { result ≡ type_size reader_row }
{
    std::mem::size_of::<MarkedReader>()
}

/// Makes a slot in the caller's room in which nothing is open.
#[unsafe(no_mangle)]
pub unsafe extern "C" fn yelunnavi_reader_make(at: *mut u8)
    requires* { sem 𝓛 (uninit_at reader_row at) }
    ensures* { sem 𝓛 (points_to reader_row at made_reader) }
{
    std::ptr::write(at as *mut MarkedReader, MarkedReader::new())
}

/// Reads the newest message at `now` microseconds, which is of the clock of the arrival times, and tells its number,
/// time, length and validity. The octets that fit are copied to the beginning of `out`.
#[unsafe(no_mangle)]
pub extern "C" fn yelunnavi_reader_read(
    h: &mut ReaderHandle,
    now: u64,
    out: &mut [u8],
    reply: &mut ReadReply,
) -> u32
    ensures place { (h.new.at ≡ h.old.at) × (h.new.room.mark ≡ h.old.room.mark) }
    ensures zeros { h.old.at ≡ null_ptr → (result ≡ not_made) × (h.new ≡ h.old) × (out.new ≡ out.old) × (reply.new ≡ reply.old) }
    ensures code { result ≡ if_made reader_mark h.old.room.mark (read_code h.old.room.slot) }
    ensures read { result ≡ done → DidRead h.old.room.slot h.new.room.slot now out.old out.new reply.new }
    ensures same { 0 < result → (h.new.room.slot ≡ h.old.room.slot) × (out.new ≡ out.old) × (reply.new ≡ reply.old) }
{
    let Some(made) = h.lend() else {
        return NOT_MADE;
    };
    if made.mark != READER {
        return NOT_MADE;
    }
    made.slot.read(now, out, reply)
}

/// Holds the newest message, and tells its number, time, length and validity at `now` microseconds. It stays as it is
/// until it is released.
#[unsafe(no_mangle)]
pub extern "C" fn yelunnavi_reader_hold(
    h: &mut ReaderHandle,
    now: u64,
    reply: &mut ReadReply,
) -> u32
    ensures place { (h.new.at ≡ h.old.at) × (h.new.room.mark ≡ h.old.room.mark) }
    ensures zeros { h.old.at ≡ null_ptr → (result ≡ not_made) × (h.new ≡ h.old) × (reply.new ≡ reply.old) }
    ensures code { result ≡ if_made reader_mark h.old.room.mark (read_code h.old.room.slot) }
    ensures held { result ≡ done → DidHold h.old.room.slot h.new.room.slot now reply.new }
    ensures same { 0 < result → (h.new.room.slot ≡ h.old.room.slot) × (reply.new ≡ reply.old) }
{
    let Some(made) = h.lend() else {
        return NOT_MADE;
    };
    if made.mark != READER {
        return NOT_MADE;
    }
    made.slot.hold(now, reply)
}

/// Tells the address and the number of the held message's octets. They stay as they are until the message is released
/// or the reader is closed.
#[unsafe(no_mangle)]
pub extern "C" fn yelunnavi_reader_octets(h: &mut ReaderHandle, octets: &mut HeldOctets) -> u32
    ensures place { (h.new.at ≡ h.old.at) × (h.new.room.mark ≡ h.old.room.mark) }
    ensures zeros { h.old.at ≡ null_ptr → (result ≡ not_made) × (h.new ≡ h.old) × (octets.new ≡ octets.old) }
    ensures code { result ≡ if_made reader_mark h.old.room.mark (release_code h.old.room.slot) }
    ensures told { result ≡ done → TellsOctets (held_octets h.old.room.slot) octets.new }
    ensures same { 0 < result → octets.new ≡ octets.old }
    ensures kept { h.new.room.slot ≡ h.old.room.slot }
{
    let Some(made) = h.lend() else {
        return NOT_MADE;
    };
    if made.mark != READER {
        return NOT_MADE;
    }
    match made.slot.octets() {
        Some(held) => {
            *octets = octets_at(held);
            DONE
        }
        None => HOLDS_NONE,
    }
}

/// Fills `out` with octets of the held message, from `first` on.
#[unsafe(no_mangle)]
pub extern "C" fn yelunnavi_reader_copy(h: &mut ReaderHandle, first: usize, out: &mut [u8]) -> u32
    ensures place { (h.new.at ≡ h.old.at) × (h.new.room.mark ≡ h.old.room.mark) }
    ensures zeros { h.old.at ≡ null_ptr → (result ≡ not_made) × (h.new ≡ h.old) × (out.new ≡ out.old) }
    ensures code { result ≡ if_made reader_mark h.old.room.mark (copy_code h.old.room.slot first (length out.old)) }
    ensures copied { result ≡ done → Copies h.old.room.slot first out.new }
    ensures length { length out.new ≡ length out.old }
    ensures same { 0 < result → out.new ≡ out.old }
    ensures kept { h.new.room.slot ≡ h.old.room.slot }
{
    let Some(made) = h.lend() else {
        return NOT_MADE;
    };
    if made.mark != READER {
        return NOT_MADE;
    }
    made.slot.copy(first, out)
}

/// Releases the held message.
#[unsafe(no_mangle)]
pub extern "C" fn yelunnavi_reader_release(h: &mut ReaderHandle) -> u32
    ensures place { (h.new.at ≡ h.old.at) × (h.new.room.mark ≡ h.old.room.mark) }
    ensures zeros { h.old.at ≡ null_ptr → (result ≡ not_made) × (h.new ≡ h.old) }
    ensures code { result ≡ if_made reader_mark h.old.room.mark (release_code h.old.room.slot) }
    ensures released { h.new.room.slot ≡ after_close reader_mark h.old.room.mark (released h.old.room.slot) h.old.room.slot }
{
    let Some(made) = h.lend() else {
        return NOT_MADE;
    };
    if made.mark != READER {
        return NOT_MADE;
    }
    made.slot.release()
}

/// Tells the longest message of the port, in octets, and its refresh period, in microseconds.
#[unsafe(no_mangle)]
pub extern "C" fn yelunnavi_reader_limits(h: &mut ReaderHandle, reply: &mut LimitReply) -> u32
    ensures place { (h.new.at ≡ h.old.at) × (h.new.room.mark ≡ h.old.room.mark) }
    ensures zeros { h.old.at ≡ null_ptr → (result ≡ not_made) × (h.new ≡ h.old) × (reply.new ≡ reply.old) }
    ensures code { result ≡ if_made reader_mark h.old.room.mark (read_code h.old.room.slot) }
    ensures told { result ≡ done → TellsReader h.old.room.slot reply.new }
    ensures same { 0 < result → reply.new ≡ reply.old }
    ensures kept { h.new.room.slot ≡ h.old.room.slot }
{
    let Some(made) = h.lend() else {
        return NOT_MADE;
    };
    if made.mark != READER {
        return NOT_MADE;
    }
    made.slot.limits(reply)
}

/// Gives the reader away, with a message that it holds.
#[unsafe(no_mangle)]
pub extern "C" fn yelunnavi_reader_close(h: &mut ReaderHandle)
    ensures place { (h.new.at ≡ h.old.at) × (h.new.room.mark ≡ h.old.room.mark) }
    ensures zeros { h.old.at ≡ null_ptr → h.new ≡ h.old }
    ensures value { h.new.room.slot ≡ after_close reader_mark h.old.room.mark Closed h.old.room.slot }
{
    if let Some(made) = h.lend() {
        if made.mark == READER {
            made.slot.close();
        }
    }
}

// ---- the slot of the end of a queue, a taker

/// Size of the slot of a taker, in octets. The room is aligned to 8.
#[unsafe(no_mangle)]
pub extern "C" fn yelunnavi_queue_room() -> usize
    ensures { result ≡ type_size taker_row }
{
    std::mem::size_of::<MarkedTaker>()
}

/// Makes a slot in the caller's room in which nothing is open.
#[unsafe(no_mangle)]
pub unsafe extern "C" fn yelunnavi_queue_make(at: *mut u8)
    requires* { sem 𝓛 (uninit_at taker_row at) }
    ensures* { sem 𝓛 (points_to taker_row at made_taker) }
{
    std::ptr::write(at as *mut MarkedTaker, MarkedTaker::new())
}

/// Takes the oldest message, if this end knows of one, into the beginning of `out`, and tells its time and length, and
/// how many messages the queue lost right before it.
/// `out` has to be as long as the port's longest message, else TOO_SHORT.
#[unsafe(no_mangle)]
pub extern "C" fn yelunnavi_queue_take(
    h: &mut TakerHandle,
    out: &mut [u8],
    reply: &mut TakeReply,
) -> u32
    ensures place { (h.new.at ≡ h.old.at) × (h.new.room.mark ≡ h.old.room.mark) }
    ensures zeros { h.old.at ≡ null_ptr → (result ≡ not_made) × (h.new ≡ h.old) × (out.new ≡ out.old) × (reply.new ≡ reply.old) }
    ensures code { result ≡ if_made taker_mark h.old.room.mark (take_code h.old.room.slot (length out.old)) }
    ensures took { result ≡ done → DidTake h.old.room.slot h.new.room.slot out.old out.new reply.new }
    ensures same { 0 < result → (h.new.room.slot ≡ h.old.room.slot) × (out.new ≡ out.old) × (reply.new ≡ reply.old) }
{
    let Some(made) = h.lend() else {
        return NOT_MADE;
    };
    if made.mark != TAKER {
        return NOT_MADE;
    }
    made.slot.take(out, reply)
}

/// Tells how many messages wait, after a look in this call.
#[unsafe(no_mangle)]
pub extern "C" fn yelunnavi_queue_waiting(h: &mut TakerHandle, waiting: &mut usize) -> u32
    ensures place { (h.new.at ≡ h.old.at) × (h.new.room.mark ≡ h.old.room.mark) }
    ensures zeros { h.old.at ≡ null_ptr → (result ≡ not_made) × (h.new ≡ h.old) × (waiting.new ≡ waiting.old) }
    ensures code { result ≡ if_made taker_mark h.old.room.mark (taker_code h.old.room.slot) }
    ensures told { result ≡ done → TellsWaiting h.old.room.slot h.new.room.slot waiting.new }
    ensures same { 0 < result → (h.new.room.slot ≡ h.old.room.slot) × (waiting.new ≡ waiting.old) }
{
    let Some(made) = h.lend() else {
        return NOT_MADE;
    };
    if made.mark != TAKER {
        return NOT_MADE;
    }
    made.slot.waiting(waiting)
}

/// Tells the longest message of the port, in octets.
#[unsafe(no_mangle)]
pub extern "C" fn yelunnavi_queue_longest(h: &mut TakerHandle, max: &mut usize) -> u32
    ensures place { (h.new.at ≡ h.old.at) × (h.new.room.mark ≡ h.old.room.mark) }
    ensures zeros { h.old.at ≡ null_ptr → (result ≡ not_made) × (h.new ≡ h.old) × (max.new ≡ max.old) }
    ensures code { result ≡ if_made taker_mark h.old.room.mark (taker_code h.old.room.slot) }
    ensures told { result ≡ done → TellsTaker h.old.room.slot max.new }
    ensures same { 0 < result → max.new ≡ max.old }
    ensures kept { h.new.room.slot ≡ h.old.room.slot }
{
    let Some(made) = h.lend() else {
        return NOT_MADE;
    };
    if made.mark != TAKER {
        return NOT_MADE;
    }
    made.slot.longest(max)
}

/// Gives the end away. What waits in the queue is lost.
#[unsafe(no_mangle)]
pub extern "C" fn yelunnavi_queue_close(h: &mut TakerHandle)
    ensures place { (h.new.at ≡ h.old.at) × (h.new.room.mark ≡ h.old.room.mark) }
    ensures zeros { h.old.at ≡ null_ptr → h.new ≡ h.old }
    ensures value { h.new.room.slot ≡ after_close taker_mark h.old.room.mark None h.old.room.slot }
{
    if let Some(made) = h.lend() {
        if made.mark == TAKER {
            made.slot.close();
        }
    }
}

/// What may go to another thread: refused if a handle may not. Never called.
fn may_cross() {
    crosses::<ReceiverHandle>();
    crosses::<ReaderHandle>();
    crosses::<TakerHandle>();
}

fn crosses<T: Send>() {}
