//! The words and the status of files that aren't there, of traces that are refused, and of memory that
//! ran out outside of the program.
use crate::shelf::{ALL, READ_C, StoredTrace, UP_TO_X, Wanted, check_files};
use std::alloc::Global;
use std::io::ErrorKind;
use std::process::Abort;
use std::sync::Wait;
use std::thread::Threads;
use test_inputs::{ReadCall, ScriptedReader};
use vl_config::BUILT_IN;

/// The kind of the error of the files `c`, `x` and `y`, if any, and the run's results: the status, the
/// line on the standard error, and the number of files asked for.
type Unread = ([Option<ErrorKind>; 3], u8, &'static str, u8);

fn unread_files() -> [Unread; 6] {
    let missing = Some(ErrorKind::NotFound);
    let memory = Some(ErrorKind::OutOfMemory);
    let no_config = "afdx_play: config not read\n";
    let no_a = "afdx_play: trace A not read\n";
    let no_b = "afdx_play: trace B not read\n";
    let out_of_memory = "afdx_play: out of memory\n";
    [
        ([missing, missing, missing], 3, no_config, READ_C),
        ([None, missing, missing], 3, no_a, UP_TO_X),
        ([None, None, missing], 3, no_b, ALL),
        ([memory, None, None], 4, out_of_memory, READ_C),
        ([None, memory, None], 4, out_of_memory, UP_TO_X),
        ([None, None, memory], 4, out_of_memory, ALL),
    ]
}

/// An empty file, or the error of its opening.
fn stored_trace(error: Option<ErrorKind>) -> StoredTrace<'static> {
    match error {
        None => Ok(ScriptedReader::of(b"")),
        Some(kind) => Err(kind),
    }
}

fn check_unread(rt: &(impl Abort + Threads + Wait + Sync), alloc: Global, row: Unread) {
    let ([c, x, y], status, errors, asked) = row;
    let config = match c {
        None => Ok(BUILT_IN.as_bytes()),
        Some(kind) => Err(kind),
    };
    let wanted = Wanted {
        status,
        output: "",
        errors,
        asked,
    };
    check_files(
        rt,
        alloc,
        (config, stored_trace(x), stored_trace(y)),
        wanted,
    );
}

// rule: CMD-6, FAULT-1, FAULT-4, FAULT-6
#[test]
fn a_file_that_is_not_read_has_its_words_and_status(rt: HostRuntime) {
    for row in unread_files() {
        check_unread(&rt, rt.alloc(), row);
    }
}

/// A trace of these bytes, which can be read to its end, or not past them.
type Trace = (&'static [u8], bool);

/// The traces of A and B, and the line and the status of the run.
type Traces = (Trace, Trace, &'static str, u8);

const EMPTY: Trace = (b"", true);

fn faulty_traces() -> [Traces; 8] {
    let time = "afdx_play: trace A line 1: time\n";
    let space = "afdx_play: trace A line 2: space\n";
    let hex = "afdx_play: trace A line 1: hex\n";
    let a_not_read = "afdx_play: trace A not read\n";
    let b_not_read = "afdx_play: trace B not read\n";
    let falls = "afdx_play: trace B line 2: time falls\n";
    [
        ((b"x 00", true), EMPTY, time, 1),
        ((b"#\n1", true), EMPTY, space, 1),
        ((b"1 0", true), EMPTY, hex, 1),
        (EMPTY, (b"2 00\n1 00", true), falls, 1),
        ((b"1 00", false), EMPTY, a_not_read, 3),
        (EMPTY, (b"1 00", false), b_not_read, 3),
        // Trace A is checked before trace B is read, and read whole before it is checked.
        ((b"x", true), (b"1 00", false), time, 1),
        ((b"x", false), EMPTY, a_not_read, 3),
    ]
}

fn reader_of(trace: Trace) -> ScriptedReader<'static> {
    let (bytes, whole) = trace;
    let then = if whole {
        ReadCall::Ends
    } else {
        ReadCall::Fails
    };
    ScriptedReader::new([ReadCall::Gives(bytes), then, ReadCall::Ends])
}

/// A run of these traces with the built-in configuration ends with this line and status.
fn check_traces(
    rt: &(impl Abort + Threads + Wait + Sync),
    alloc: Global,
    a: ScriptedReader<'_>,
    b: ScriptedReader<'_>,
    errors: &str,
    status: u8,
) {
    let wanted = Wanted {
        status,
        output: "",
        errors,
        asked: ALL,
    };
    check_files(rt, alloc, (Ok(BUILT_IN.as_bytes()), Ok(a), Ok(b)), wanted);
}

// rule: TRACE-14, CMD-6, FAULT-4, FAULT-6
#[test]
fn a_trace_that_is_refused_has_its_words_and_status(rt: HostRuntime) {
    for (a, b, errors, status) in faulty_traces() {
        check_traces(&rt, rt.alloc(), reader_of(a), reader_of(b), errors, status);
    }
}

fn check_long_line(rt: &(impl Abort + Threads + Wait + Sync), alloc: Global, line: &str) {
    let a = ScriptedReader::of(line.as_bytes());
    let b = ScriptedReader::of(b"");
    check_traces(rt, alloc, a, b, "afdx_play: trace A line 1: long line\n", 1);
}

// rule: TRACE-8, FAULT-6
#[test]
fn a_long_line_has_its_words_and_status(rt: HostRuntime) {
    let comment = "#".repeat(rt.alloc(), 8193).expect(&rt, "memory");
    check_long_line(&rt, rt.alloc(), &comment);
}
