//! A whole trace, from its source to its frames.
ghost use Rattle.std.specs.Prelude.{◌≡◌, ◌≤◌, ◌-◌, ◌++◌, ℕ, List, None, IfOk, false, length, take, drop};
ghost use Rattle.hex_trace.specs.Source.{given_source};
ghost use Rattle.hex_trace.specs.Trace.{ReadsTrace};
ghost use Rattle.hex_trace.specs.Lines.{said_by, HasNoEnd};
ghost use Rattle.hex_trace.specs.Progress.{ReadsOn};

use crate::lines::Lines;
use crate::piece::read_more;
use crate::{Frames, Reading, Source, TraceFault};
use es_base::Memory;
use std::alloc::Global;

/// Progress of reading a trace.
#[derive(Drop)]
pub enum Progress {
    /// There may be more to read.
    More(Reading),
    /// The trace was read to its end: its frames, but for those that were taken out before.
    Ended(Frames),
}

impl Reading {
    /// Reads some bytes of the source, none only at its end, and checks the lines that have ended. After a fault of a
    /// line all that follows is read and kept, and the fault is returned at the end, since a failed read comes before
    /// it.
    pub fn read_on<S: Source>(self, alloc: Global, source: &mut S) -> Result<Progress, TraceFault>
        requires { S.has_failed source.old ≡ false }
        ensures { ReadsOn (S.remaining source.old) (S.remaining source.new) (S.has_failed source.new) self result }
    {
        let Reading {
            text,
            filled,
            lines,
        } = self;
        let mut text = text;
        let mut lines = lines;
        let count = read_more(source, &mut text, filled)?;
        if count == 0 {
            return Ok(Progress::Ended(lines.finish(alloc, &text[..filled])?));
        }
        let filled = take_piece(alloc, &mut lines, &mut text, filled + count)?;
        Ok(Progress::More(Reading {
            text,
            filled,
            lines,
        }))
    }
}

/// Reads a source whole and checks its lines: the frames of the trace, or its first fault. After a fault
/// the rest is read, since a failed read comes before it.
///
/// A source that never ends runs out of memory, since each line that was read is kept: one with a frame as
/// that frame, which is returned; a skipped one as it came, by the clause `kept` of `Lines::take_line`; and
/// after a fault all bytes.
pub fn read_trace<S: Source>(alloc: Global, source: &mut S) -> Result<Frames, TraceFault>
    requires { S.has_failed source.old ≡ false }
    ensures { ReadsTrace (given_source (S.remaining source.old) (S.has_failed source.new)) result }
{
    let mut reading = Reading::new(alloc);
    'pieces: for _ in 0..u64::MAX {
        match reading.read_on(alloc, source)? {
            Progress::Ended(frames) => return Ok(frames),
            Progress::More(more) => reading = more,
        }
    }
    Err(TraceFault::Memory)
}

/// Takes the whole lines of the first `filled` bytes of a text. The rest of them moves to its front; returns its number
/// of bytes.
fn take_piece(
    alloc: Global,
    lines: &mut Lines,
    text: &mut [u8],
    filled: usize,
) -> Result<usize, Memory>
    requires { filled ≤ length text.old }
    ensures said { IfOk result (λ left. (more : List ℕ)
        → said_by lines.new (take left text.new ++ more) ≡ said_by lines.old (take filled text.old ++ more)) }
    ensures rest { IfOk result (λ left. lines.new.fault ≡ None → HasNoEnd (take left text.new)) }
    ensures within { IfOk result (λ left. left ≤ length text.new) }
    ensures whole { length text.new ≡ length text.old }
{
    let taken = lines.take_lines(alloc, &text[..filled])?;
    move_to_front(text, taken, filled);
    Ok(filled - taken)
}

/// Moves the bytes from `start` to `end` to the front of a text.
fn move_to_front(text: &mut [u8], start: usize, end: usize)
    requires order { start ≤ end }
    requires within { end ≤ length text.old }
    ensures front { take (end - start) text.new ≡ drop start (take end text.old) }
    ensures whole { length text.new ≡ length text.old }
{
    if start > 0 {
        text.copy_within(start..end, 0);
    }
}
