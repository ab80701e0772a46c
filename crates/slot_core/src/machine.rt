//! The machine: a port's words, and the knowledge of its writer and its readers, stepped by events.
ghost use Rattle.std.specs.Prelude.{◌≡◌, IfErr, IfOk, OnErr, replicate};
ghost use Rattle.slot_core.specs.Limits.{port_readers, port_slots};
ghost use Rattle.slot_core.specs.Words.{table_words};
ghost use Rattle.slot_core.specs.State.{opening};
ghost use Rattle.slot_core.specs.Steps.{after_event};
ghost use Rattle.slot_core.specs.Allowed.{Allowed};
ghost use Rattle.slot_core.specs.Refusal.{IsRefusedBy};

use crate::reader::Reader;
use crate::{CoreEvent, MessageWords, Phase, READERS, SLOTS, StepRefusal, TABLE_WORDS, WORDS};
use arrayvec::ArrayVec;
use std::alloc::{AllocError, Global};
use std::marker::Model;

/// A sampling port, as data: its words, the published messages, and the phases of the writer and of each
/// reader. Contracts see it as a `State`.
#[derive(Drop)]
pub struct Core {
    pub(crate) words: [u64; TABLE_WORDS],
    /// For each reader scanned so far the slot that it announced, or None.
    pub(crate) scanned: ArrayVec<Option<u64>, READERS>,
    /// The slot that is written.
    pub(crate) chosen: u64,
    /// The words stored in it so far.
    pub(crate) stored: ArrayVec<u64, WORDS>,
    pub(crate) published: Vec<MessageWords>,
    pub(crate) readers: [Reader; READERS],
}

impl Model for Core {
    ghost use Rattle.slot_core.specs.State.{State};

    ghost Value = { State };

    ghost use Rattle.slot_core.specs.Stored.{IsStored, state_of};

    ghost view = { state_of };

    ghost invariant = { IsStored };
}

impl Core {
    /// A port without publications, whose writer scans and whose readers are idle. It takes no memory.
    pub fn opening(alloc: Global) -> Core
        ensures { result ≡ opening port_readers port_slots }
    {
        Core {
            words: zeros(),
            scanned: ArrayVec::new(),
            chosen: 0,
            stored: ArrayVec::new(),
            published: Vec::new(alloc),
            readers: newcomers(),
        }
    }

    /// Takes one step. Ok exactly if the step is allowed and there is memory for it; only the store of
    /// `latest` takes memory. The refusal is the first in the order place, turn, latest, announced,
    /// memory. After a refusal the core is as before.
    ///
    /// ```rust
    /// Refused(WRITE_SLOT_0, NotItsTurn),
    /// Step(Scan { reader: 0 }),
    /// Refused(WRITE_SLOT_0, NotItsTurn),
    /// Step(Scan { reader: 1 }),
    /// ```
    // rule: SAMP-7, SAMP-8, SAMP-9, SAMP-10, SAMP-11, SAMP-17
    pub fn step(&mut self, alloc: Global, event: &CoreEvent) -> Result<(), StepRefusal>
        ensures allowed { IfOk result (λ _. Allowed port_readers port_slots self.old event.now) }
        ensures state { IfOk result (λ _. self.new ≡ after_event port_readers self.old event.now) }
        ensures refusal { IfErr result (λ refusal. IsRefusedBy port_readers port_slots self.old event.now refusal) }
        ensures unchanged { OnErr result (self.new ≡ self.old) }
    {
        match self.refusal_of(event) {
            Some(refusal) => Err(refusal),
            None => match self.take(alloc, event) {
                Ok(()) => Ok(()),
                Err(AllocError) => Err(StepRefusal::Memory),
            },
        }
    }

    /// Takes a step that is allowed.
    fn take(&mut self, alloc: Global, event: &CoreEvent) -> Result<(), AllocError>
        requires { Allowed port_readers port_slots self.old event.now }
        ensures ok { IfOk result (λ _. self.new ≡ after_event port_readers self.old event.now) }
        ensures err { OnErr result (event.now ≡ CoreEvent.StoreLatest) }
        ensures unchanged { OnErr result (self.new ≡ self.old) }
    {
        match *event {
            CoreEvent::Scan { reader } => self.scan(reader),
            CoreEvent::StoreWord { slot, index, word } => self.store_word(slot, index, word),
            CoreEvent::StoreLatest => return self.store_latest(alloc),
            CoreEvent::LoadFirst { reader } => self.load_first(reader),
            CoreEvent::Announce { reader } => self.announce(reader),
            CoreEvent::LoadSecond { reader } => self.load_second(reader),
            CoreEvent::LoadWord { .. } => {}
            CoreEvent::Clear { reader } => self.clear(reader),
        }
        Ok(())
    }
}

/// The words of a table in which nothing was stored.
fn zeros() -> [u64; TABLE_WORDS]
    ensures { result ≡ replicate (table_words port_readers port_slots) 0 }
{
    [0; TABLE_WORDS]
}

/// Readers that have loaded nothing.
fn newcomers() -> [Reader; READERS]
    ensures { result ≡ replicate port_readers (record { phase = Phase.Idle; own = 0; seen = 0 }) }
{
    [Reader::newcomer(); READERS]
}
