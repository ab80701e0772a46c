//! Files in memory, and a run over them.
use program::{Ending, Files, run};
use std::alloc::{AllocError, Global};
use std::io::{self, Error, ErrorKind};
use std::process::Abort;
use std::sync::Wait;
use std::thread::Threads;
use test_inputs::{ScriptedReader, ScriptedWriter, WriteCall};
use trace_player::Device;

/// A configuration's file, or the fault of one that can't be opened or read.
pub(crate) type StoredConfig<'a> = Result<&'a [u8], ErrorKind>;

/// A trace's file, or the fault of one that can't be opened.
pub(crate) type StoredTrace<'a> = Result<ScriptedReader<'a>, ErrorKind>;

/// `c` was read, and nothing else asked for.
pub(crate) const READ_C: u8 = 1;

/// `c` was read, and then `x` opened.
pub(crate) const UP_TO_X: u8 = 2;

/// `c` was read, then `x` opened, and then `y`.
pub(crate) const ALL: u8 = 3;

/// Something was asked for in another order, or another file.
const OTHER: u8 = 4;

/// The files `c`, `x` and `y`, and how many of them were asked for in this order.
#[derive(Clone, Copy, Drop)]
pub(crate) struct Shelf<'a> {
    pub alloc: Global,
    pub c: StoredConfig<'a>,
    pub x: StoredTrace<'a>,
    pub y: StoredTrace<'a>,
    pub asked: u8,
}

/// No files.
pub(crate) fn empty_shelf<'a>(alloc: Global) -> Shelf<'a> {
    Shelf {
        alloc,
        c: Err(ErrorKind::NotFound),
        x: Err(ErrorKind::NotFound),
        y: Err(ErrorKind::NotFound),
        asked: 0,
    }
}

impl<'a> Shelf<'a> {
    fn config_at(&mut self, path: &str) -> StoredConfig<'a> {
        if self.asked == 0 && path == "c" {
            self.asked = READ_C;
            return self.c;
        }
        self.asked = OTHER;
        Err(ErrorKind::NotFound)
    }

    fn trace_at(&mut self, path: &str) -> StoredTrace<'a> {
        if self.asked == READ_C && path == "x" {
            self.asked = UP_TO_X;
            return self.x;
        }
        if self.asked == UP_TO_X && path == "y" {
            self.asked = ALL;
            return self.y;
        }
        self.asked = OTHER;
        Err(ErrorKind::NotFound)
    }
}

impl<'a> Files for Shelf<'a> {
    type Trace = Device<ScriptedReader<'a>>;

    fn read(&mut self, path: &str) -> io::Result<Vec<u8>> {
        match self.config_at(path) {
            Ok(octets) => Ok(octets.to_vec(self.alloc)?),
            Err(kind) => Err(Error::from(kind)),
        }
    }

    fn open(&mut self, path: &str) -> io::Result<Device<ScriptedReader<'a>>> {
        match self.trace_at(path) {
            Ok(reader) => Ok(Device::new(reader)),
            Err(kind) => Err(Error::from(kind)),
        }
    }
}

/// The words in a text, with a space between each two. In the empty text there are none.
pub(crate) fn words_in(rt: &impl Abort, alloc: Global, text: &str) -> Vec<String> {
    let mut words = Vec::new(alloc);
    if !text.is_empty() {
        for word in text.split(' ') {
            push_word(alloc, &mut words, word).expect(rt, "memory");
        }
    }
    words
}

fn push_word(alloc: Global, words: &mut Vec<String>, word: &str) -> Result<(), AllocError> {
    words.push(String::from_str(alloc, word)?)?;
    Ok(())
}

/// The words of a whole command line: the files `c`, `x` and `y`.
pub(crate) const LINE: &str = "--config c --a x --b y";

/// Devices of a run beside its words: its files, its standard input, and what writing its standard
/// output and its standard error do.
#[derive(Clone, Copy)]
pub(crate) struct Given<'a> {
    pub shelf: Shelf<'a>,
    pub input: ScriptedReader<'a>,
    pub output: &'a [WriteCall],
    pub errors: &'a [WriteCall],
}

/// Results that a run has to give.
#[derive(Clone, Copy)]
pub(crate) struct Wanted<'a> {
    pub status: u8,
    pub output: &'a str,
    pub errors: &'a str,
    /// Number of files asked for.
    pub asked: u8,
}

fn check_ending(rt: &impl Abort, ending: &Ending, told: bool, status: u8) {
    assert!(rt; ending.status == status, "{}", ending.status);
    assert!(rt; ending.told.is_ok() == told);
}

fn check_written(rt: &impl Abort, written: &[u8], wanted: &str) {
    assert!(rt; written == wanted.as_bytes(), "{wanted}");
}

fn writer_of<'a>(alloc: Global, calls: &'a [WriteCall]) -> ScriptedWriter<'a> {
    ScriptedWriter {
        calls,
        written: Vec::new(alloc),
    }
}

/// A run with these words and with what is given ends with these results. If the standard error fails it
/// is not told.
pub(crate) fn check_given(
    rt: &(impl Abort + Threads + Wait + Sync),
    alloc: Global,
    words: io::Result<Vec<String>>,
    given: Given<'_>,
    wanted: Wanted<'_>,
) {
    let mut shelf = given.shelf;
    let mut input = Device::new(given.input);
    let mut output = Device::new(writer_of(alloc, given.output));
    let mut errors = writer_of(alloc, given.errors);
    let ending = run(
        rt,
        alloc,
        words,
        &mut shelf,
        &mut input,
        &mut output,
        &mut errors,
    );
    check_ending(rt, &ending, given.errors.is_empty(), wanted.status);
    check_written(rt, &output.inner.written, wanted.output);
    check_written(rt, &errors.written, wanted.errors);
    assert!(rt; shelf.asked == wanted.asked, "{}", shelf.asked);
}

/// A run with these words, this standard input and these files ends with these results.
pub(crate) fn check_run(
    rt: &(impl Abort + Threads + Wait + Sync),
    alloc: Global,
    words: io::Result<Vec<String>>,
    input: &str,
    shelf: Shelf<'_>,
    wanted: Wanted<'_>,
) {
    let given = Given {
        shelf,
        input: ScriptedReader::of(input.as_bytes()),
        output: &[],
        errors: &[],
    };
    check_given(rt, alloc, words, given, wanted);
}

/// A run with the words of a whole command line over the files `c`, `x` and `y` ends with these results.
/// The standard input has a frame, which is not read.
pub(crate) fn check_files(
    rt: &(impl Abort + Threads + Wait + Sync),
    alloc: Global,
    (c, x, y): (StoredConfig<'_>, StoredTrace<'_>, StoredTrace<'_>),
    wanted: Wanted<'_>,
) {
    let words = Ok(words_in(rt, alloc, LINE));
    let shelf = Shelf {
        alloc,
        c,
        x,
        y,
        asked: 0,
    };
    check_run(rt, alloc, words, "1 00", shelf, wanted);
}
