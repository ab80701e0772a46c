//! A slot: for a receiver, or for a system, with the ends of its ports that are left to hand out.
ghost use Rattle.std.specs.Prelude.{◌≡◌, ◌≢◌, ◌<◌, ◌≤◌, ◌↔◌, ◌⊎◌, ℕ, List, IfOk, IsSome, None, Some, false};
ghost use Rattle.es_base.specs.Config.{Configuration};
ghost use Rattle.es_base.specs.Port.{Port};
ghost use Rattle.message_ring.specs.Queue.{Known};
ghost use Rattle.mailbox_port.specs.Port.{is_reader_count};
ghost use Rattle.mailbox_port.specs.Reads.{PortReader};
ghost use Rattle.receiver.specs.declared.ends.LinkEnds.{LinkEnds as EndsOfLink};
ghost use Rattle.receiver.specs.declared.partition.PartitionEnd.{PartitionEnd as EndOfPort};
ghost use Rattle.receiver.specs.Taking.{HandsReader, HandsTaker};
ghost use Rattle.receiver_slots.specs.Codes.{already_open, done, faulty, no_memory, none_left, not_open, out_of_range};
ghost use Rattle.receiver_slots.specs.Readers.{readers_in};
ghost use Rattle.receiver_slots.specs.Receiving.{HasFault, HasTableFault};
ghost use Rattle.receiver_slots.specs.Slot.{CountsLinks, HandsOut, Opens, OpensConfig, OpensTable, TellsLink, TellsPlace, TellsPort, hand_reader_code, hand_taker_code, link_code, links_code, place_code, port_code};
ghost use Rattle.receiver_slots.specs.declared.reader_slot.ReaderState.TheVariants.{Reads};

use crate::codes::{ALREADY_OPEN, DONE, NO_MEMORY, NO_NAME, NOT_OPEN};
use crate::handing::place_of;
use crate::opening::wanted::{Wanted, wanted_in_table, wanted_in_text};
use crate::reader_slot::ReaderSlot;
use crate::taker_slot::TakerSlot;
use crate::told::facts::{tell_link, tell_port};
use crate::told::replies::{FaultReply, LinkReply, PlaceReply, PortReply};
use es_base::{Config, Memory};
use receiver::{LinkEnds, PartitionEnd};
use std::alloc::Global;
use std::marker::Model;
use vl_config::{LinkRow, PortRow};

/// What a slot is for: a receiver, or a system.
pub trait Configured: Drop {
    /// Its configuration.
    ghost config_in: { Self → Configuration };

    /// A new one of this configuration, and the ends of all ports, where each sampling port has as many readers as this
    /// says.
    ghost is_new: { (Port → ℕ) → Configuration → Self → List (EndsOfLink EndOfPort) → Type 0 };

    /// Opens one, and the ends of all ports, in the order of the links. All memory is taken here.
    fn open(
        alloc: Global,
        wanted: &Wanted<'_>,
    ) -> Result<(Self, Vec<LinkEnds<PartitionEnd>>), Memory>
        ensures { IfOk result (λ opened. is_new (readers_in wanted.now.readers.others wanted.now.readers.rows.now) wanted.now.config opened.0 opened.1.items) };

    /// Its configuration.
    fn config(&self) -> &Config
        ensures { result.now ≡ config_in self.now };
}

/// What is open in a slot, with the ends of its ports that are left to hand out.
#[derive(Drop)]
pub struct InSlot<T> {
    pub opened: T,
    pub ends: Vec<LinkEnds<PartitionEnd>>,
}

impl<T> Model for InSlot<T> {
    ghost use Rattle.receiver_slots.specs.Slot.{InSlot as Seen};

    ghost Value = { Seen T };

    ghost view = { λ s. record { opened = s.opened; ends = s.ends.items } };
}

/// The receiver or the system of a configuration, if any, with the ends of its ports that are left to hand out.
#[derive(Drop)]
pub struct Slot<T> {
    pub inside: Option<InSlot<T>>,
}

impl<T> Model for Slot<T> {
    ghost use Rattle.std.specs.Prelude.{Option};
    ghost use Rattle.receiver_slots.specs.Slot.{InSlot as Seen};

    ghost Value = { Option (Seen T) };

    ghost view = { λ s. s.inside };
}

impl<T: Configured> Slot<T> {
    pub fn new() -> Slot<T>
        ensures { result ≡ None }
    {
        Slot { inside: None }
    }

    /// Opens what it is for, of the configuration in these octets, a TOML document. Each sampling port has `readers`
    /// readers, 1 to 8, else OUT_OF_RANGE. All memory is taken here. FAULTY, and its first fault with its key, link and
    /// port, if it has one.
    pub fn open_text(
        &mut self,
        alloc: Global,
        text: &[u8],
        readers: usize,
        fault: &mut FaultReply,
    ) -> u32
        ensures opened { result ≡ done → Opens T.is_new readers text.now self.new }
        ensures fault { result ≡ faulty → HasFault text.now fault.new }
        ensures already { (result ≡ already_open) ↔ IsSome self.old }
        ensures range { self.old ≡ None → (result ≡ out_of_range) ↔ (is_reader_count readers ≡ false) }
        ensures same { 0 < result → self.new ≡ self.old }
        ensures others { result ≢ faulty → fault.new ≡ fault.old }
        ensures codes { (result ≤ no_memory) ⊎ (result ≡ out_of_range) }
        ensures tried { result ≢ not_open }
    {
        if self.inside.is_some() {
            return ALREADY_OPEN;
        }
        match wanted_in_text(alloc, text, readers, fault) {
            Ok(wanted) => self.open(alloc, &wanted),
            Err(code) => code,
        }
    }

    /// Opens what it is for, of the configuration of a table: the constant field, the links, and their ports one after
    /// another. Each sampling port has as many readers as its row says, 1 to 8, or `readers` for 0, 1 to 8, else
    /// OUT_OF_RANGE. All memory is taken here. FAULTY, and the fault of [`open_text`](Slot::open_text) of a text that says
    /// the same, but for its line; a row's number of readers above 8 is a fault of its port.
    pub fn open_table(
        &mut self,
        alloc: Global,
        constant: &[u8; 4],
        links: &[LinkRow],
        ports: &[PortRow],
        readers: usize,
        fault: &mut FaultReply,
    ) -> u32
        ensures opened { result ≡ done → OpensTable T.is_new readers constant.now links.now ports.now self.new }
        ensures fault { result ≡ faulty → HasTableFault constant.now links.now ports.now fault.new }
        ensures already { (result ≡ already_open) ↔ IsSome self.old }
        ensures range { self.old ≡ None → (result ≡ out_of_range) ↔ (is_reader_count readers ≡ false) }
        ensures same { 0 < result → self.new ≡ self.old }
        ensures others { result ≢ faulty → fault.new ≡ fault.old }
        ensures codes { (result ≤ no_memory) ⊎ (result ≡ out_of_range) }
        ensures tried { result ≢ not_open }
    {
        if self.inside.is_some() {
            return ALREADY_OPEN;
        }
        match wanted_in_table(alloc, constant, links, ports, readers, fault) {
            Ok(wanted) => self.open(alloc, &wanted),
            Err(code) => code,
        }
    }

    /// Opens what a slot is for, which has none, of this configuration.
    fn open(&mut self, alloc: Global, wanted: &Wanted<'_>) -> u32
        ensures opened { result ≡ done → OpensConfig T.is_new (readers_in wanted.now.readers.others wanted.now.readers.rows.now) wanted.now.config self.new }
        ensures same { 0 < result → self.new ≡ self.old }
        ensures codes { (result ≡ done) ⊎ (result ≡ no_memory) }
    {
        match T::open(alloc, wanted) {
            Ok((opened, ends)) => {
                self.inside = Some(InSlot { opened, ends });
                DONE
            }
            Err(_) => NO_MEMORY,
        }
    }

    /// Gives away what is open, and the ends of its ports that weren't handed out.
    pub fn close(&mut self)
        ensures { self.new ≡ None }
    {
        self.inside = None;
    }

    /// Hands a reader of the sampling port with this name to a slot that has none: as often as the opening was told.
    /// NONE_LEFT if the port queues, or all its readers were handed out.
    pub fn hand_reader(&mut self, to: &mut ReaderSlot, name: &[u8]) -> u32
        ensures code { result ≡ hand_reader_code self.old to.old name.now }
        ensures handed { result ≡ done → (reader : PortReader) × (to.new ≡ Reads reader) × HandsOut HandsReader name.now self.old self.new (Some reader) }
        ensures left { result ≡ none_left → HandsOut HandsReader name.now self.old self.new None }
        ensures same { 0 < result → result ≢ none_left → self.new ≡ self.old }
        ensures to { 0 < result → to.new ≡ to.old }
    {
        match &mut self.inside {
            Some(inside) => to.open(&mut inside.ends, name),
            None => NOT_OPEN,
        }
    }

    /// Hands the end of the queue of the queuing port with this name to a slot that has none: once. NONE_LEFT if the
    /// port samples, or the end was handed out.
    pub fn hand_taker(&mut self, to: &mut TakerSlot, name: &[u8]) -> u32
        ensures code { result ≡ hand_taker_code self.old to.old name.now }
        ensures handed { result ≡ done → (taker : Known) × (to.new ≡ Some taker) × HandsOut HandsTaker name.now self.old self.new (Some taker) }
        ensures left { result ≡ none_left → HandsOut HandsTaker name.now self.old self.new None }
        ensures same { 0 < result → result ≢ none_left → self.new ≡ self.old }
        ensures to { 0 < result → to.new ≡ to.old }
    {
        match &mut self.inside {
            Some(inside) => to.open(&mut inside.ends, name),
            None => NOT_OPEN,
        }
    }

    /// Tells the number of links of the configuration.
    pub fn links(&self, links: &mut usize) -> u32
        ensures code { result ≡ links_code self.now }
        ensures told { result ≡ done → CountsLinks T.config_in self.now links.new }
        ensures same { 0 < result → links.new ≡ links.old }
    {
        let Some(inside) = &self.inside else {
            return NOT_OPEN;
        };
        *links = inside.opened.config().links().len();
        DONE
    }

    /// Tells the settings of the link at this place of the configuration, and its number of ports.
    pub fn link(&self, link: usize, reply: &mut LinkReply) -> u32
        ensures code { result ≡ link_code T.config_in self.now link }
        ensures told { result ≡ done → TellsLink T.config_in self.now link reply.new }
        ensures same { 0 < result → reply.new ≡ reply.old }
    {
        let Some(inside) = &self.inside else {
            return NOT_OPEN;
        };
        tell_link(inside.opened.config(), link, reply)
    }

    /// Tells the settings of a port, by the places of its link and of the port in it, and its name, at the beginning of
    /// `name`.
    pub fn port(&self, link: usize, port: usize, reply: &mut PortReply, name: &mut [u8; 16]) -> u32
        ensures code { result ≡ port_code T.config_in self.now link port }
        ensures told { result ≡ done → TellsPort T.config_in self.now link port reply.new name.old name.new }
        ensures same { 0 < result → (reply.new ≡ reply.old) × (name.new ≡ name.old) }
    {
        let Some(inside) = &self.inside else {
            return NOT_OPEN;
        };
        let config = inside.opened.config();
        tell_port(config, link, port, reply, name)
    }

    /// Tells the place of the link that has the port with this name, and the place of the port in it.
    pub fn place(&self, name: &[u8], reply: &mut PlaceReply) -> u32
        ensures code { result ≡ place_code self.now name.now }
        ensures told { result ≡ done → TellsPlace self.now name.now reply.new }
        ensures same { 0 < result → reply.new ≡ reply.old }
    {
        let Some(inside) = &self.inside else {
            return NOT_OPEN;
        };
        let Some(found) = place_of(&inside.ends, name) else {
            return NO_NAME;
        };
        *reply = found;
        DONE
    }
}
