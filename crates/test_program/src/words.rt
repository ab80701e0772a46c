//! What the words ask for: the standard input, a run over files, the help; and words that are refused.
use crate::shelf::{ALL, Shelf, Wanted, check_files, check_run, empty_shelf, words_in};
use std::alloc::Global;
use std::io::{Error, ErrorKind};
use std::process::Abort;
use std::sync::Wait;
use std::thread::Threads;
use test_inputs::ScriptedReader;
use test_inputs::outputs::{FRESH, LINE, NO_FRAMES};
use vl_config::BUILT_IN;

pub(crate) const HELP: &str = "Plays the hex traces of two redundant networks through a receiver

Usage: afdx_play [OPTIONS] --config <FILE> --a <FILE> --b <FILE>

Options:
      --config <FILE>      the configuration, a TOML file
      --a <FILE>           the trace of network A
      --b <FILE>           the trace of network B
      --at <MICROSECONDS>  the time of the report, in microseconds; by default the greatest arrival time
      --threads            a thread for each network, as fast as it can: which frame a link takes first isn't told by its time
      --explain            of a configuration that is refused, say its line, too, and what the key may have
  -h, --help               Print help
  -V, --version            Print version
";

pub(crate) const REFUSAL: &str = "error: the following required arguments were not provided:
  --b <FILE>

Usage: afdx_play --config <FILE> --a <FILE> --b <FILE>

For more information, try '--help'.
";

/// Words, the standard input, and the results of a run with no files: the status, the output and the text
/// on the standard error.
type Row = (&'static str, &'static str, u8, &'static str, &'static str);

fn runs_without_files() -> [Row; 5] {
    [
        ("", LINE, 0, FRESH, ""),
        ("", "", 0, NO_FRAMES, ""),
        ("", "\n7", 1, "", "afdx_play: trace A line 2: space\n"),
        ("--help", LINE, 0, HELP, ""),
        ("--config c --a x", LINE, 2, "", REFUSAL),
    ]
}

fn check_row(rt: &(impl Abort + Threads + Wait + Sync), alloc: Global, row: Row) {
    let (words, input, status, output, errors) = row;
    let wanted = Wanted {
        status,
        output,
        errors,
        asked: 0,
    };
    let words = Ok(words_in(rt, alloc, words));
    check_run(rt, alloc, words, input, empty_shelf(alloc), wanted);
}

// rule: TRACE-10, CMD-5, FAULT-4
#[test]
fn words_ask_for_the_standard_input_or_the_help(rt: HostRuntime) {
    for row in runs_without_files() {
        check_row(&rt, rt.alloc(), row);
    }
}

/// Words that could not be read, by this error.
fn check_unread(
    rt: &(impl Abort + Threads + Wait + Sync),
    alloc: Global,
    kind: ErrorKind,
    status: u8,
    errors: &str,
) {
    let wanted = Wanted {
        status,
        output: "",
        errors,
        asked: 0,
    };
    let words = Err(Error::from(kind));
    check_run(rt, alloc, words, LINE, empty_shelf(alloc), wanted);
}

// rule: FAULT-4, FAULT-6
#[test]
fn words_that_are_no_text_are_refused(rt: HostRuntime) {
    let refused = "afdx_play: command line refused\n";
    let memory = "afdx_play: out of memory\n";
    check_unread(&rt, rt.alloc(), ErrorKind::InvalidData, 2, refused);
    check_unread(&rt, rt.alloc(), ErrorKind::OutOfMemory, 4, memory);
}

const TWO_FRAMES: &str = "900 B filtered too-short
1000 A vl 17 0 sampled height 1
port height sampling 1 1000 17 fresh 0102030405060708090a0b0c0d0e0f1011
port nav queuing 0
count 17 A 0 0 0 0 0 0 0 0 0 1 0 0 0
count 17 B 0 0 0 0 0 0 0 0 0 0 0 0 0
filtered A 0 0 0 0 0
filtered B 1 0 0 0 0
";

/// A frame on each network, one for the port and one for a link that isn't configured.
fn check_line(rt: &(impl Abort + Threads + Wait + Sync), alloc: Global, config: &str) {
    let files = (
        Ok(config.as_bytes()),
        Ok(ScriptedReader::of(LINE.as_bytes())),
        Ok(ScriptedReader::of(b"900 00")),
    );
    let wanted = Wanted {
        status: 0,
        output: TWO_FRAMES,
        errors: "",
        asked: ALL,
    };
    check_files(rt, alloc, files, wanted);
}

// rule: CMD-1, CMD-6
#[test]
fn a_command_line_plays_its_files(rt: HostRuntime) {
    let config = BUILT_IN.replace(rt.alloc(), "\"pos\"", "\"height\"");
    check_line(&rt, rt.alloc(), &config.expect(&rt, "memory"));
}

/// The lines of A come first, whatever the times are.
const BY_NETWORK: &str = "1000 A vl 17 0 sampled pos 1
900 B filtered too-short
port pos sampling 1 1000 17 stale 0102030405060708090a0b0c0d0e0f1011
port nav queuing 0
count 17 A 0 0 0 0 0 0 0 0 0 1 0 0 0
count 17 B 0 0 0 0 0 0 0 0 0 0 0 0 0
filtered A 0 0 0 0 0
filtered B 1 0 0 0 0
";

/// A frame on each network, with a thread for each.
fn check_threads(rt: &(impl Abort + Threads + Wait + Sync), alloc: Global) {
    let shelf = Shelf {
        alloc,
        c: Ok(BUILT_IN.as_bytes()),
        x: Ok(ScriptedReader::of(LINE.as_bytes())),
        y: Ok(ScriptedReader::of(b"900 00")),
        asked: 0,
    };
    let wanted = Wanted {
        status: 0,
        output: BY_NETWORK,
        errors: "",
        asked: ALL,
    };
    let words = words_in(rt, alloc, "--config c --a x --b y --at 21001 --threads");
    check_run(rt, alloc, Ok(words), "1 00", shelf, wanted);
}

// rule: REP-10, CMD-3
#[test]
fn a_command_line_plays_its_files_with_threads(rt: HostRuntime) {
    check_threads(&rt, rt.alloc());
}
