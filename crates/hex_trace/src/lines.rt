//! The lines of a trace, one after another as they come.
ghost use Rattle.std.specs.Prelude.{◌≡◌, ◌≤◌, ◌<◌, ◌-◌, ◌∷◌, ◌++◌, ℕ, List, [], None, IfOk, IfSome, IfNone, OnOk, length, drop};
ghost use Rattle.std.specs.List.{slice_split};
ghost use Rattle.hex_trace.specs.Line.{frame_from};
ghost use Rattle.hex_trace.specs.Trace.{is_line_end, frames_of_text, with_front};
ghost use Rattle.hex_trace.specs.Lines.{said_with, said_by, skipped_after, HasNoEnd, TellsTrace};

use crate::frames::ReadFrames;
use crate::line::{LONGEST_LINE, MOST_OCTETS, frame_from};
use crate::{Frames, TraceCause, TraceFault};
use es_base::Memory;
use memchr::memchr;
use std::alloc::{AllocError, Global};
use std::mem;

/// End of a line. After the last one of a text there is one more line, which may be empty.
const LINE_END: u8 = b'\n';

/// The lines of a trace that were read: their frames, up to the first fault.
#[derive(Drop)]
pub(crate) struct Lines {
    frames: ReadFrames,
    /// The line number of the next line, counted from 1.
    line_number: u64,
    /// The time of the frame before it, in microseconds.
    before: u64,
    /// The first fault, by its line number.
    fault: Option<(u64, TraceCause)>,
    /// The skipped lines, each with its end. They are kept so that a trace that has no other, and never ends,
    /// runs out of memory.
    skipped: Vec<u8>,
}

impl Lines {
    /// Before the first line.
    pub(crate) fn new(alloc: Global) -> Lines
        ensures said { (text : List ℕ) → said_by result text ≡ frames_of_text text }
        ensures fault { result.fault ≡ None }
    {
        Lines {
            frames: ReadFrames::new(alloc),
            line_number: 1,
            before: 0,
            fault: None,
            skipped: Vec::new(alloc),
        }
    }

    /// Takes the whole lines that a text begins with, up to the first fault, and returns their number of bytes, with
    /// their ends.
    pub(crate) fn take_lines(&mut self, alloc: Global, text: &[u8]) -> Result<usize, Memory>
        ensures said { IfOk result (λ taken. (more : List ℕ)
            → said_by self.new (drop taken text.now ++ more) ≡ said_by self.old (text.now ++ more)) }
        ensures rest { IfOk result (λ taken. self.new.fault ≡ None → HasNoEnd (drop taken text.now)) }
        ensures within { IfOk result (λ taken. taken ≤ length text.now) }
    {
        let mut scratch = [0; MOST_OCTETS];
        let mut rest = text;
        'lines: while self.fault.is_none() {
            let Some((line, more)) = cut_line(rest) else {
                self.refuse_long(rest);
                break;
            };
            self.take_line(alloc, line, &mut scratch)?;
            rest = more;
        }
        Ok(text.len() - rest.len())
    }

    /// Takes the frames out that were read.
    pub(crate) fn take_frames(&mut self, alloc: Global) -> Result<Frames, Memory>
        ensures said { IfOk result (λ frames. (text : List ℕ) → said_by self.old text ≡ with_front frames (said_by self.new text)) }
        ensures all { IfOk result (λ frames. (frames ≡ self.old.frames) × (self.new.frames ≡ [])) }
        ensures fault { self.new.fault ≡ self.old.fault }
    {
        mem::replace(&mut self.frames, ReadFrames::open(alloc)?).close()
    }

    /// The frames of the trace, or its first fault, if this line is the last.
    pub(crate) fn finish(mut self, alloc: Global, last: &[u8]) -> Result<Frames, TraceFault>
        requires { self.fault ≡ None → HasNoEnd last.now }
        ensures { TellsTrace (said_by self last.now) result }
    {
        if self.fault.is_none() {
            self.take_line(alloc, last, &mut [0; MOST_OCTETS])?;
        }
        match self.fault {
            Some((line, cause)) => Err(TraceFault::Line { line, cause }),
            None => Ok(self.frames.close()?),
        }
    }

    /// Takes one line; its octets are decoded in `scratch`. A skipped one is kept, with its end.
    fn take_line(
        &mut self,
        alloc: Global,
        line: &[u8],
        scratch: &mut [u8; MOST_OCTETS],
    ) -> Result<(), Memory>
        requires { self.old.fault ≡ None }
        ensures said { OnOk result ((more : List (List ℕ)) → said_with self.new more ≡ said_with self.old (line.now ∷ more)) }
        ensures kept { OnOk result (self.new.skipped.items
            ≡ skipped_after self.old.skipped.items line.now (frame_from self.old.before line.now)) }
    {
        match frame_from(self.before, line, scratch) {
            Ok(Some(frame)) => {
                self.before = frame.time;
                self.frames.push(alloc, frame.time, frame.octets)?;
            }
            Ok(None) => {
                self.skipped.extend_from_slice(line)?;
                self.skipped.push(LINE_END)?;
            }
            Err(cause) => self.fault = Some((self.line_number, cause)),
        }
        self.line_number = self.line_number.checked_add(1).ok_or(AllocError)?;
        Ok(())
    }

    /// Refuses a line that is too long before its end has come.
    fn refuse_long(&mut self, front: &[u8])
        requires line { HasNoEnd front.now }
        requires fault { self.old.fault ≡ None }
        ensures { (more : List ℕ) → said_by self.new (front.now ++ more) ≡ said_by self.old (front.now ++ more) }
    {
        if front.len() > LONGEST_LINE {
            self.fault = Some((self.line_number, TraceCause::LongLine));
        }
    }
}

/// The first line of a text, and the text after its end. None if no line ends.
fn cut_line(text: &[u8]) -> Option<(&[u8], &[u8])>
    ensures line { IfSome result (λ cut. (more : List ℕ) → slice_split is_line_end (text.now ++ more)
        ≡ cut.0.now ∷ slice_split is_line_end (cut.1.now ++ more)) }
    ensures rest { IfSome result (λ cut. (length cut.1.now < length text.now) × (cut.1.now ≡ drop (length text.now - length cut.1.now) text.now)) }
    ensures none { IfNone result (HasNoEnd text.now) }
{
    match memchr(LINE_END, text) {
        None => None,
        Some(end) => Some((&text[..end], &text[end + 1..])),
    }
}
