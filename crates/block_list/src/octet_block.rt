//! Octets with their arrival times, many of them in one block of memory, which grows. A push that finds room for its
//! octets can't fail; after one that fails the block has what it had. Contracts see the octets in order, and the room.
ghost use Rattle.std.specs.Prelude.{◌≡◌, ◌<◌, ◌≤◌, ◌+◌, ◌++◌, ◌∷◌, [], length, slice_get, IsOk, IfOk, OnOk, OnErr};
ghost use Rattle.std.specs.Option.{option_map};
ghost use Rattle.block_list.specs.OctetBlock.{octets_as, timed_octets};

use std::alloc::{AllocError, Global};
use std::marker::Model;

/// Octets and their arrival time.
#[derive(Debug, Clone, Copy)]
pub struct LentOctets<'a> {
    /// Arrival time, in microseconds.
    pub time: u64,
    pub octets: &'a [u8],
}

/// Arrival time of an item, in microseconds, and where its octets begin and end in the block.
#[derive(Clone, Copy)]
struct Entry {
    time: u64,
    start: usize,
    end: usize,
}

/// Octets with their arrival times, each an item of the block, in the order in which they were added. They lie one after
/// another, so that no item has memory of its own.
#[derive(Drop)]
pub struct OctetBlock {
    entries: Vec<Entry>,
    octets: Vec<u8>,
}

impl Model for OctetBlock {
    ghost use Rattle.std.specs.Prelude.{length, map};
    ghost use Rattle.std.specs.Vec.{vec_capacity};
    ghost use Rattle.block_list.specs.OctetBlock.{OctetBlock, AreWithin, octets_of_entry};

    ghost Value = { OctetBlock };

    ghost view = { λ b. record {
      items = map (octets_of_entry b.octets.items) b.entries.items;
      used = length b.octets.items;
      most_items = vec_capacity b.entries;
      most_octets = vec_capacity b.octets;
    } };

    ghost invariant = { λ b. AreWithin b.octets.items b.entries.items };
}

impl OctetBlock {
    /// An empty block. It takes no memory.
    pub fn new(alloc: Global) -> OctetBlock
        ensures { result ≡ record { items = []; used = 0; most_items = 0; most_octets = 0 } }
    {
        OctetBlock {
            entries: Vec::new(alloc),
            octets: Vec::new(alloc),
        }
    }

    /// An empty block with memory for this many items, and for this many octets of all of them together.
    pub fn with_room(alloc: Global, items: usize, octets: usize) -> Result<OctetBlock, AllocError>
        ensures { IfOk result (λ block. block ≡ record { items = []; used = 0; most_items = items; most_octets = octets }) }
    {
        Ok(OctetBlock {
            entries: Vec::with_capacity(alloc, items)?,
            octets: Vec::with_capacity(alloc, octets)?,
        })
    }

    /// Adds octets that came at `time`, in microseconds, after the others. If memory runs out nothing is added.
    #[inline(always)]
    #[tactic(auto, using(crate::proofs::Entries::one_more))]
    pub fn push(&mut self, time: u64, octets: &[u8]) -> Result<(), AllocError>
        ensures items { OnOk result (self.new.items ≡ self.old.items ++ timed_octets time octets.now ∷ []) }
        ensures used { OnOk result (self.new.used ≡ self.old.used + length octets.now) }
        ensures room { length self.old.items < self.old.most_items → self.old.used + length octets.now ≤ self.old.most_octets → IsOk result }
        ensures most { (self.old.most_items ≤ self.new.most_items) × (self.old.most_octets ≤ self.new.most_octets) }
        ensures err { OnErr result ((self.new.items ≡ self.old.items) × (self.new.used ≡ self.old.used)) }
    {
        self.entries.reserve(1)?;
        let start = self.octets.len();
        self.octets.extend_from_slice(octets)?;
        let end = self.octets.len();
        self.entries.push_reserved(Entry { time, start, end });
        Ok(())
    }

    /// Number of items.
    #[inline(always)]
    pub fn len(&self) -> usize
        ensures { result ≡ length self.now.items }
    {
        self.entries.len()
    }

    /// Number of octets of all items together.
    #[inline(always)]
    pub fn used(&self) -> usize
        ensures { result ≡ self.now.used }
    {
        self.octets.len()
    }

    /// The item at this place. None if there are fewer.
    #[inline(always)]
    pub fn get(&self, place: usize) -> Option<LentOctets<'_>>
        ensures { option_map octets_as result ≡ slice_get self.now.items place }
    {
        match self.entries.get(place) {
            Some(entry) => Some(LentOctets {
                time: entry.time,
                octets: &self.octets[entry.start..entry.end],
            }),
            None => None,
        }
    }
}
