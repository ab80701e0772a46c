//! A trace that is read piece by piece.
ghost use Rattle.std.specs.Prelude.{◌≡◌, ℕ, List, [], IfOk};
ghost use Rattle.hex_trace.specs.Reading.{said_after};
ghost use Rattle.hex_trace.specs.Trace.{frames_of_text, with_front};

use crate::Frames;
use crate::lines::Lines;
use es_base::Memory;
use std::alloc::Global;
use std::marker::Model;

/// A trace that is read piece by piece. Contracts see the frames that were read and not yet taken out.
#[derive(Drop)]
pub struct Reading {
    /// Buffer for the bytes read.
    pub(crate) text: Vec<u8>,
    /// Number of bytes, at the front of the text, of the line that hasn't ended.
    pub(crate) filled: usize,
    pub(crate) lines: Lines,
}

impl Model for Reading {
    ghost use Rattle.std.specs.Prelude.{◌≡◌, ◌≤◌, None, length, take};
    ghost use Rattle.hex_trace.specs.Lines.{HasNoEnd};
    ghost use Rattle.hex_trace.specs.Reading.{Read, read_so_far};

    ghost Value = { Read };

    ghost view = { λ r. read_so_far r.lines (take r.filled r.text.items) };

    ghost invariant = { λ r. (r.filled ≤ length r.text.items) × (r.lines.fault ≡ None → HasNoEnd (take r.filled r.text.items)) };
}

impl Reading {
    /// Before the first byte.
    pub fn new(alloc: Global) -> Reading
        ensures { (text : List ℕ) → said_after result text ≡ frames_of_text text }
    {
        Reading {
            text: Vec::new(alloc),
            filled: 0,
            lines: Lines::new(alloc),
        }
    }

    /// Takes the frames out that were read.
    pub fn take_frames(&mut self, alloc: Global) -> Result<Frames, Memory>
        ensures said { IfOk result (λ frames. (text : List ℕ) → said_after self.old text ≡ with_front frames (said_after self.new text)) }
        ensures all { IfOk result (λ frames. (frames ≡ self.old.lines.frames) × (self.new.lines.frames ≡ [])) }
    {
        self.lines.take_frames(alloc)
    }
}
