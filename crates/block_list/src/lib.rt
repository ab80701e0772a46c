//! A list that grows by blocks: no growth moves an entry, however long the list is. And octets of many items one after
//! another (`OctetBlock`).
//!
//! A `Vec` grows by copying itself, so one of a million calls that add an entry copies all entries before it. Here a
//! growth takes the memory of one block of `BLOCK` entries, and at most moves the list of the blocks, three words
//! for each. Contracts see where the memory of each block begins, and that no call changes it.
#![tactic(auto)]

ghost use Rattle.std.specs.Prelude.{◌≡◌, ◌<◌, ◌==◌, ◌-◌, ◌^◌, ◌++◌, ◌∷◌, [], length, slice_get, IsOk, OnOk, OnErr};
ghost use Rattle.std.specs.Option.{option_map};
ghost use Rattle.std.specs.Vec.{vec_capacity};
ghost use Rattle.block_list.specs.BlockList.{Grows, block_size};
ghost use Rattle.block_list.specs.Kept.{block_at};

mod octet_block;

pub use octet_block::{LentOctets, OctetBlock};
use std::alloc::{AllocError, Global};
use std::marker::Model;
use std::mem;

/// Entries of a block.
pub const BLOCK: usize = 1024;

/// Most full blocks: no memory has room for more entries.
const MOST_BLOCKS: usize = usize::MAX / 2 / BLOCK;

/// A list that grows by blocks.
///
/// ```rust
/// let mut list = BlockList::new(rt.alloc());
/// list.reserve_one(rt.alloc())?;
/// list.push_reserved('a');
/// assert_eq!(rt; list.get(0), Some(&'a'));
/// ```
#[derive(Drop)]
pub struct BlockList<T> {
    /// The blocks before the last, each with `BLOCK` entries.
    full: Vec<Vec<T>>,
    /// The last block, with at most `BLOCK` entries, and memory for as many. Before the first growth it
    /// has neither.
    last: Vec<T>,
}

impl<T> Model for BlockList<T> {
    ghost use Rattle.block_list.specs.BlockList.{BlockList};
    ghost use Rattle.block_list.specs.Kept.{entries_of, room_in, addresses_of, IsKept};

    ghost Value = { BlockList T };

    ghost view = { λ l. record {
      items = entries_of l.full.items l.last.items;
      room = room_in l.last;
      blocks = addresses_of l.full.items l.last;
    } };

    ghost invariant = { λ l. IsKept l.full.items l.last };
}

impl<T> BlockList<T> {
    /// A list with no entries. It takes no memory.
    pub fn new(alloc: Global) -> BlockList<T>
        ensures { result ≡ record { items = []; room = 0; blocks = [] } }
    {
        BlockList {
            full: Vec::new(alloc),
            last: Vec::new(alloc),
        }
    }

    /// Number of entries that may be added without taking memory: at most `BLOCK`.
    pub fn room(&self) -> usize
        ensures { result ≡ self.now.room }
    {
        self.last.capacity().min(BLOCK) - self.last.len()
    }

    /// Takes the memory of a whole block if there is no room for one more entry. No entry is moved. If memory runs
    /// out nothing has changed. No memory has room for 2^63 entries.
    pub fn reserve_one(&mut self, alloc: Global) -> Result<(), AllocError>
        ensures items { self.new.items ≡ self.old.items }
        ensures room { OnOk result (0 < self.new.room) }
        ensures few { OnOk result (length self.new.items < 2 ^ 63) }
        ensures same { 0 < self.old.room → IsOk result × (self.new ≡ self.old) }
        ensures grown { self.old.room ≡ 0 → OnOk result (Grows self.old self.new) }
        ensures err { OnErr result (self.new ≡ self.old) }
    {
        if self.room() > 0 {
            return Ok(());
        }
        if self.last.is_empty() {
            return self.last.reserve_exact(BLOCK);
        }
        if self.full.len() >= MOST_BLOCKS {
            return Err(AllocError);
        }
        add_block(alloc, &mut self.full, &mut self.last)
    }

    /// Adds an entry after the others, into memory that `reserve_one` took. No other entry is moved.
    pub fn push_reserved(&mut self, entry: T)
        requires { 0 < self.old.room }
        ensures items { self.new.items ≡ self.old.items ++ entry ∷ [] }
        ensures room { self.new.room ≡ self.old.room - 1 }
        ensures blocks { self.new.blocks ≡ self.old.blocks }
    {
        self.last.push_reserved(entry);
    }

    /// Number of entries.
    pub fn len(&self) -> usize
        ensures { result ≡ length self.now.items }
    {
        self.full.len() * BLOCK + self.last.len()
    }

    pub fn is_empty(&self) -> bool
        ensures { result ≡ (length self.now.items == 0) }
    {
        self.len() == 0
    }

    /// The entry at a place, counted from 0.
    pub fn get(&self, place: usize) -> Option<&T>
        ensures { option_map (λ entry. entry.now) result ≡ slice_get self.now.items place }
    {
        self.block(place / BLOCK).get(place % BLOCK)
    }

    /// The entry that was added last.
    pub fn last(&self) -> Option<&T>
        ensures { option_map (λ entry. entry.now) result ≡ slice_get self.now.items (length self.now.items - 1) }
    {
        match self.len() {
            0 => None,
            len => self.get(len - 1),
        }
    }

    /// The entries of one block, counted from 0: `BLOCK` of them, and fewer in the last. None after it.
    fn block(&self, number: usize) -> &[T]
        ensures { result.now ≡ block_at number self.now.items }
    {
        match self.full.get(number) {
            Some(block) => block.as_slice(),
            None if number == self.full.len() => self.last.as_slice(),
            None => &[],
        }
    }
}

/// Moves the last block among those before it, its entries in place, and begins a new one with no entries, and memory
/// for `BLOCK`. If memory runs out no block has changed.
fn add_block<T>(alloc: Global, full: &mut Vec<Vec<T>>, last: &mut Vec<T>) -> Result<(), AllocError>
    ensures before { OnOk result (full.new.items ≡ full.old.items ++ last.old ∷ []) }
    ensures last { OnOk result ((last.new.items ≡ []) × (vec_capacity last.new ≡ block_size)) }
    ensures err { OnErr result ((full.new.items ≡ full.old.items) × (last.new ≡ last.old)) }
{
    full.reserve(1)?;
    let next = Vec::with_capacity(alloc, BLOCK)?;
    let before = mem::replace(last, next);
    full.push_reserved(before);
    Ok(())
}
