//! Standard streams that fail.
use crate::shelf::{Given, Wanted, check_given, empty_shelf, words_in};
use std::alloc::Global;
use std::process::Abort;
use std::sync::Wait;
use std::thread::Threads;
use test_inputs::{ReadCall, ScriptedReader, WriteCall};

/// Words, what reading the standard input does after a frame, what writing the standard output does, and
/// the run's results: the status, the output and the line on the standard error.
type Row = (
    &'static str,
    ReadCall<'static>,
    &'static [WriteCall],
    u8,
    &'static str,
    &'static str,
);

fn failing_streams() -> [Row; 4] {
    let not_read = "afdx_play: trace A not read\n";
    let not_written = "afdx_play: output not written\n";
    let cut = &[WriteCall::Takes(2), WriteCall::Fails];
    [
        ("", ReadCall::Fails, &[], 3, "", not_read),
        ("", ReadCall::Ends, cut, 3, "5 ", not_written),
        (
            "",
            ReadCall::Ends,
            &[WriteCall::Takes(0)],
            3,
            "",
            not_written,
        ),
        ("--help", ReadCall::Ends, cut, 3, "Pl", not_written),
    ]
}

fn check_streams(rt: &(impl Abort + Threads + Wait + Sync), alloc: Global, row: Row) {
    let (words, then, calls, status, output, errors) = row;
    let words = Ok(words_in(rt, alloc, words));
    let given = Given {
        shelf: empty_shelf(alloc),
        input: ScriptedReader::new([ReadCall::Gives(b"5 00"), then, ReadCall::Ends]),
        output: calls,
        errors: &[],
    };
    let wanted = Wanted {
        status,
        output,
        errors,
        asked: 0,
    };
    check_given(rt, alloc, words, given, wanted);
}

// rule: TRACE-11, FAULT-2, FAULT-4, FAULT-6
#[test]
fn a_stream_that_fails_has_its_words_and_status(rt: HostRuntime) {
    for row in failing_streams() {
        check_streams(&rt, rt.alloc(), row);
    }
}

/// The status is that of the fault, even if its line can't be written.
fn check_untold(rt: &(impl Abort + Threads + Wait + Sync), alloc: Global) {
    let words = Ok(Vec::new(alloc));
    let given = Given {
        shelf: empty_shelf(alloc),
        input: ScriptedReader::of(b"x"),
        output: &[],
        errors: &[WriteCall::Fails],
    };
    let wanted = Wanted {
        status: 1,
        output: "",
        errors: "",
        asked: 0,
    };
    check_given(rt, alloc, words, given, wanted);
}

// rule: FAULT-4
#[test]
fn a_fault_that_is_not_told_has_its_status(rt: HostRuntime) {
    check_untold(&rt, rt.alloc());
}
