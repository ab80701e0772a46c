//! The words of a command line: which are a line, which ask for help or the version, and which are refused.
use crate::shelf::words_in;
use crate::words::{HELP, REFUSAL};
use command_line::{Line, LineFault, line_of};
use std::alloc::{AllocError, Global};
use std::process::Abort;

/// Result of `line_of`, without a clause: a test doesn't need what each line comes to.
fn read(alloc: Global, words: &[String]) -> Result<Line, LineFault> {
    line_of(alloc, words)
}

fn text_of_line(alloc: Global, line: &Line) -> Result<String, AllocError> {
    let (config, a, b, at) = (&line.config, &line.a, &line.b, line.at);
    let threads = if line.threads { " threads" } else { "" };
    let explain = if line.explain { " explain" } else { "" };
    format!(in alloc; "line {config} {a} {b} {at:?}{threads}{explain}")
}

/// Result of `line_of`, as a text.
fn text_of(alloc: Global, answer: Result<Line, LineFault>) -> Result<String, AllocError> {
    match answer {
        Ok(line) => text_of_line(alloc, &line),
        Err(LineFault::Shown(error)) => format!(in alloc; "shown: {error}"),
        Err(LineFault::Refused(error)) => format!(in alloc; "refused: {error}"),
        Err(LineFault::Memory) => Err(AllocError),
    }
}

/// The answer to these words, as a text.
fn answer(rt: &impl Abort, alloc: Global, words: &str) -> String {
    let answer = read(alloc, &words_in(rt, alloc, words));
    text_of(alloc, answer).expect(rt, "memory")
}

/// Words with spaces between them, and the text of their answer, or its beginning.
type Row = (&'static str, &'static str);

/// The answer to these words is this text.
fn check_line(rt: &impl Abort, alloc: Global, words: &str, expected: &str) {
    let text = answer(rt, alloc, words);
    assert!(rt; text.as_str() == expected, "{text}");
}

/// The answer to these words starts with this text.
fn check_start(rt: &impl Abort, alloc: Global, words: &str, start: &str) {
    let text = answer(rt, alloc, words);
    assert!(rt; text.as_str().starts_with(start), "{text}");
}

/// The answer to these words is this start, and then this text.
fn check_text(rt: &impl Abort, alloc: Global, words: &str, start: &str, expected: &str) {
    let text = answer(rt, alloc, words);
    assert!(rt; text.as_str().starts_with(start), "{text}");
    let rest = text.as_str().get(start.len()..).unwrap_or("");
    assert!(rt; rest == expected, "{rest}");
}

fn check_lines(rt: &impl Abort, alloc: Global, rows: &[Row]) {
    for (words, expected) in rows {
        check_line(rt, alloc, words, expected);
    }
}

fn check_starts(rt: &impl Abort, alloc: Global, rows: &[Row]) {
    for (words, start) in rows {
        check_start(rt, alloc, words, start);
    }
}

fn files() -> [Row; 3] {
    [
        ("--config c --a x --b y", "line c x y None"),
        ("--config=c --a x --b y", "line c x y None"),
        ("--b y --a=x --config c", "line c x y None"),
    ]
}

// rule: CMD-1, CMD-4
#[test]
fn reads_the_files(rt: HostRuntime) {
    check_lines(&rt, rt.alloc(), &files());
}

fn requests_and_refusals() -> [Row; 10] {
    [
        ("--help", "shown: Plays "),
        ("--config c -h", "shown: Plays "),
        ("--version", "shown: afdx_play "),
        ("--config c -V", "shown: afdx_play "),
        ("", "refused: "),
        ("--config c --a x --d z --b y", "refused: "),
        ("--config c --a x --a x --b y", "refused: "),
        ("--config c --a x --b", "refused: "),
        ("--config c --a x --b y z", "refused: "),
        ("afdx_play --config c --a x --b y", "refused: "),
    ]
}

// rule: CMD-1, CMD-5, FAULT-3
#[test]
fn requests_and_refusals_differ(rt: HostRuntime) {
    check_starts(&rt, rt.alloc(), &requests_and_refusals());
}

// rule: CMD-5
#[test]
fn prints_the_help(rt: HostRuntime) {
    check_text(&rt, rt.alloc(), "--help", "shown: ", HELP);
}

// rule: FAULT-3
#[test]
fn prints_a_refusal(rt: HostRuntime) {
    check_text(&rt, rt.alloc(), "--config c --a x", "refused: ", REFUSAL);
}

fn places_of_the_time() -> [Row; 4] {
    [
        ("--at 5 --config c --a x --b y", "line c x y Some(5)"),
        ("--config c --at 5 --a x --b y", "line c x y Some(5)"),
        ("--config c --a x --b y --at 5", "line c x y Some(5)"),
        ("--config c --at=5 --a x --b y", "line c x y Some(5)"),
    ]
}

// rule: CMD-1, CMD-2, CMD-4
#[test]
fn the_time_stands_before_or_after_the_files(rt: HostRuntime) {
    check_lines(&rt, rt.alloc(), &places_of_the_time());
}

fn flags() -> [Row; 5] {
    [
        (
            "--config c --a x --b y --threads",
            "line c x y None threads",
        ),
        (
            "--threads --config c --a x --b y --at 5",
            "line c x y Some(5) threads",
        ),
        (
            "--config c --a x --b y --explain",
            "line c x y None explain",
        ),
        (
            "--explain --threads --config c --a x --b y",
            "line c x y None threads explain",
        ),
        ("--config c --a x --b --threads", "refused: "),
    ]
}

// rule: CMD-1, CMD-3, CMD-7
#[test]
fn reads_the_flags(rt: HostRuntime) {
    check_starts(&rt, rt.alloc(), &flags());
}

fn times() -> [Row; 7] {
    [
        ("--config c --a x --b y", "line c x y None"),
        ("--config c --a x --b y --at 0", "line c x y Some(0)"),
        ("--config c --a x --b y --at 1000", "line c x y Some(1000)"),
        ("--config c --a x --b y --at +1000", "line c x y Some(1000)"),
        (
            "--config c --a x --b y --at 0001000",
            "line c x y Some(1000)",
        ),
        (
            "--config c --a x --b y --at 9223372036854775806",
            "line c x y Some(9223372036854775806)",
        ),
        (
            "--config c --a x --b y --at 9223372036854775807",
            "line c x y Some(9223372036854775807)",
        ),
    ]
}

// rule: CMD-2
#[test]
fn reads_the_time(rt: HostRuntime) {
    check_lines(&rt, rt.alloc(), &times());
}

fn times_that_are_no_numbers() -> [Row; 7] {
    [
        (
            "--config c --a x --b y --at 9223372036854775808",
            "refused: error: invalid value '9223372036854775808' for '--at <MICROSECONDS>': ",
        ),
        (
            "--config c --a x --b y --at 18446744073709551616",
            "refused: error: invalid value '18446744073709551616' for '--at <MICROSECONDS>': ",
        ),
        (
            "--config c --a x --b y --at=-1",
            "refused: error: invalid value '-1' for '--at <MICROSECONDS>': ",
        ),
        (
            "--config c --a x --b y --at -1",
            "refused: error: unexpected argument '-1' found",
        ),
        (
            "--config c --a x --b y --at x",
            "refused: error: invalid value 'x' for '--at <MICROSECONDS>': ",
        ),
        (
            "--config c --a x --b y --at 5x",
            "refused: error: invalid value '5x' for '--at <MICROSECONDS>': ",
        ),
        (
            "--config c --a x --b y --at ",
            "refused: error: invalid value '' for '--at <MICROSECONDS>': ",
        ),
    ]
}

fn too_few_or_too_many_times() -> [Row; 3] {
    [
        (
            "--config c --a x --b y --at",
            "refused: error: a value is required for '--at <MICROSECONDS>' but none was supplied",
        ),
        (
            "--config c --a x --b y --at 5 6",
            "refused: error: unexpected argument '6' found",
        ),
        (
            "--config c --a x --b y --at 5 --at 5",
            "refused: error: the argument '--at <MICROSECONDS>' cannot be used multiple times",
        ),
    ]
}

// rule: CMD-2, FAULT-3
#[test]
fn refuses_what_is_no_time(rt: HostRuntime) {
    check_starts(&rt, rt.alloc(), &times_that_are_no_numbers());
    check_starts(&rt, rt.alloc(), &too_few_or_too_many_times());
}

// rule: CMD-2, FAULT-3
#[test]
fn prints_the_refusal_of_a_time(rt: HostRuntime) {
    let expected = "refused: error: invalid value '9223372036854775808' for '--at <MICROSECONDS>': \
        9223372036854775808 is not in 0..=9223372036854775807

For more information, try '--help'.
";
    check_line(
        &rt,
        rt.alloc(),
        "--config c --a x --b y --at 9223372036854775808",
        expected,
    );
}
