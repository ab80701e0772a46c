//! Readers and writers that do what a test asks, call by call.
ghost use Rattle.std.specs.Prelude.{◌≤◌, length};

use std::io::{Error, ErrorKind, Read, Result, Write};

/// Answer of a reader to one call.
#[derive(Clone, Copy, Drop)]
pub enum ReadCall<'a> {
    /// These bytes, or as many as there is room for, and the others at the next calls.
    Gives(&'a [u8]),
    /// One of these bytes, and the others at the next calls.
    Drips(&'a [u8]),
    /// An interruption at this many calls, one after another, and at least at one.
    Interrupted(usize),
    Fails,
    /// The end.
    Ends,
}

/// A reader that does this, one call after another, and is then at its end.
#[derive(Clone, Copy, Drop)]
pub struct ScriptedReader<'a> {
    pub calls: [ReadCall<'a>; 3],
    /// The place of the next call.
    pub next: usize,
    /// How many of that call's bytes were given, or how many of its interruptions were made, before.
    pub given: usize,
}

impl<'a> ScriptedReader<'a> {
    /// A reader that does this, from its first call.
    pub fn new(calls: [ReadCall<'a>; 3]) -> ScriptedReader<'a> {
        ScriptedReader {
            calls,
            next: 0,
            given: 0,
        }
    }

    /// A reader that gives these bytes at once, and is then at its end.
    pub fn of(bytes: &'a [u8]) -> ScriptedReader<'a> {
        ScriptedReader::new([ReadCall::Gives(bytes), ReadCall::Ends, ReadCall::Ends])
    }

    /// Gives what is left of these bytes, or as many as there is room for.
    fn give(&mut self, bytes: &[u8], buffer: &mut [u8]) -> usize
        ensures { result ≤ length buffer.new }
    {
        let rest = &bytes[self.given.min(bytes.len())..];
        let count = rest.len().min(buffer.len());
        buffer[..count].copy_from_slice(&rest[..count]);
        self.count_to(rest.len(), count);
        count
    }

    /// This many more were given or made, of as many as are left: after all of them the next call comes.
    fn count_to(&mut self, left: usize, count: usize) {
        if count >= left {
            self.next = self.next.wrapping_add(1);
            self.given = 0;
        } else {
            self.given = self.given.wrapping_add(count);
        }
    }
}

impl Read for ScriptedReader<'_> {
    fn read(&mut self, buffer: &mut [u8]) -> Result<usize> {
        let Some(call) = self.calls.get(self.next).copied() else {
            return Ok(0);
        };
        match call {
            ReadCall::Gives(bytes) => Ok(self.give(bytes, buffer)),
            ReadCall::Drips(bytes) => {
                let count = buffer.len().min(1);
                Ok(self.give(bytes, &mut buffer[..count]))
            }
            ReadCall::Interrupted(times) => {
                self.count_to(times.saturating_sub(self.given), 1);
                Err(Error::from(ErrorKind::Interrupted))
            }
            ReadCall::Fails => {
                self.count_to(1, 1);
                Err(Error::from(ErrorKind::BrokenPipe))
            }
            ReadCall::Ends => {
                self.count_to(1, 1);
                Ok(0)
            }
        }
    }
}

/// Answer of a writer to one call.
#[derive(Clone, Copy, Drop)]
pub enum WriteCall {
    /// It takes at most this many bytes.
    Takes(usize),
    Interrupted,
    Fails,
}

/// A writer that does this, one call after another, and then takes everything.
#[derive(Drop)]
pub struct ScriptedWriter<'a> {
    pub calls: &'a [WriteCall],
    /// The bytes that it took.
    pub written: Vec<u8>,
}

impl Write for ScriptedWriter<'_> {
    fn write(&mut self, piece: &[u8]) -> Result<usize> {
        let mut count = piece.len();
        if let Some((call, rest)) = self.calls.split_first() {
            self.calls = rest;
            match call {
                WriteCall::Takes(most) => count = count.min(*most),
                WriteCall::Interrupted => return Err(Error::from(ErrorKind::Interrupted)),
                WriteCall::Fails => return Err(Error::from(ErrorKind::BrokenPipe)),
            }
        }
        self.written.extend_from_slice(&piece[..count])?;
        Ok(count)
    }

    fn flush(&mut self) -> Result<()> {
        Ok(())
    }
}
