//! The frames of a trace, in their order.
ghost use Rattle.std.specs.Prelude.{◌≡◌, ◌++◌, [], ◌∷◌, IfOk, OnOk, drop, slice_get};
ghost use Rattle.std.specs.Option.{option_map};
ghost use Rattle.hex_trace.specs.Frames.{frames_of_block, lent_as, timed_frame};

use crate::line::MOST_OCTETS;
use block_list::OctetBlock;
use es_base::Memory;
use std::alloc::Global;
use std::collections::VecDeque;
use std::marker::Model;
use std::mem;

/// A frame of a trace.
pub use block_list::LentOctets as LentFrame;

/// Octets from which on a block with frames is full.
const FULL: usize = 256 * 1024;

/// Frames for which a block has room at first; for more it grows.
const MANY: usize = 4096;

/// The frames of a trace that were read so far.
#[derive(Drop)]
pub(crate) struct ReadFrames {
    full: VecDeque<OctetBlock>,
    last: OctetBlock,
}

impl Model for ReadFrames {
    ghost use Rattle.std.specs.Prelude.{◌++◌, List};
    ghost use Rattle.hex_trace.specs.Frames.{TimedFrame, NoneIsEmpty, frames_of_block, joined_blocks};

    ghost Value = { List TimedFrame };

    ghost view = { λ f. joined_blocks f.full.items ++ frames_of_block f.last };

    ghost invariant = { λ f. NoneIsEmpty f.full.items };
}

impl ReadFrames {
    /// No frames.
    pub(crate) fn new(alloc: Global) -> ReadFrames
        ensures { result ≡ [] }
    {
        ReadFrames {
            full: VecDeque::new(alloc),
            last: OctetBlock::new(alloc),
        }
    }

    /// No frames, with room for those of a block.
    pub(crate) fn open(alloc: Global) -> Result<ReadFrames, Memory>
        ensures { IfOk result (λ frames. frames ≡ []) }
    {
        Ok(ReadFrames {
            full: VecDeque::new(alloc),
            last: open_block(alloc)?,
        })
    }

    /// Adds a frame that came at `time`, in microseconds, after the others.
    #[tactic(auto, using(crate::proofs::Blocks::joined_append))]
    pub(crate) fn push(&mut self, alloc: Global, time: u64, octets: &[u8]) -> Result<(), Memory>
        ensures { OnOk result (self.new ≡ self.old ++ timed_frame time octets.now ∷ []) }
    {
        if self.last.len() == 0 || self.last.used() < FULL {
            return self.last.push(time, octets);
        }
        let full = mem::replace(&mut self.last, open_block(alloc)?);
        self.full.push_back(full)?;
        self.last.push(time, octets)
    }

    /// The frames, to be played.
    #[tactic(auto, using(crate::proofs::Blocks::joined_append))]
    pub(crate) fn close(self) -> Result<Frames, Memory>
        ensures { IfOk result (λ frames. frames ≡ self) }
    {
        let ReadFrames { full, last } = self;
        let mut blocks = full;
        if last.len() == 0 {
            return Ok(Frames { blocks, at: 0 });
        }
        blocks.push_back(last)?;
        Ok(Frames { blocks, at: 0 })
    }
}

/// The frames of a trace that are left to play. Their octets lie in blocks, and the memory of each is freed once its
/// frames were dropped.
#[derive(Drop)]
pub struct Frames {
    blocks: VecDeque<OctetBlock>,
    /// Index of the next frame in the first block.
    at: usize,
}

impl Model for Frames {
    ghost use Rattle.std.specs.Prelude.{List, drop};
    ghost use Rattle.hex_trace.specs.Frames.{TimedFrame, NoneIsEmpty, IsInFirst, joined_blocks};

    ghost Value = { List TimedFrame };

    ghost view = { λ f. drop f.at (joined_blocks f.blocks.items) };

    ghost invariant = { λ f. NoneIsEmpty f.blocks.items × IsInFirst f.at f.blocks.items };
}

impl Frames {
    /// The next frame.
    pub fn first(&self) -> Option<LentFrame<'_>>
        ensures { option_map lent_as result ≡ slice_get self.now 0 }
    {
        match self.blocks.front() {
            Some(block) => block.get(self.at),
            None => None,
        }
    }

    /// Drops the next frame, if any.
    pub fn skip(&mut self)
        ensures { self.new ≡ drop 1 self.old }
    {
        let Some(block) = self.blocks.front() else {
            return;
        };
        let len = block.len();
        if self.at + 1 < len {
            self.at += 1;
        } else {
            self.blocks.pop_front();
            self.at = 0;
        }
    }
}

/// A block without frames, with room for the octets of a full one.
fn open_block(alloc: Global) -> Result<OctetBlock, Memory>
    ensures { IfOk result (λ block. block.items ≡ []) }
{
    OctetBlock::with_room(alloc, MANY, FULL + MOST_OCTETS)
}
