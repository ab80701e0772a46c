//! The line of a configuration's fault, and what its key may have, for who asks.
use crate::shelf::{READ_C, Shelf, Wanted, check_run, words_in};
use std::alloc::{AllocError, Global};
use std::io::ErrorKind;
use std::process::Abort;
use std::sync::Wait;
use std::thread::Threads;
use vl_config::BUILT_IN;

/// A run that asks for an explanation is refused for its configuration, with these lines.
fn check_explained(
    rt: &(impl Abort + Threads + Wait + Sync),
    alloc: Global,
    octets: &[u8],
    errors: &str,
) {
    let shelf = Shelf {
        alloc,
        c: Ok(octets),
        x: Err(ErrorKind::NotFound),
        y: Err(ErrorKind::NotFound),
        asked: 0,
    };
    let wanted = Wanted {
        status: 1,
        output: "",
        errors,
        asked: READ_C,
    };
    let words = words_in(rt, alloc, "--explain --config c --a x --b y");
    check_run(rt, alloc, Ok(words), "1 00", shelf, wanted);
}

/// A text of the built-in configuration, another in its place, the words of the fault, and those of its explanation.
type Changed = (&'static str, &'static str, &'static str, &'static str);

fn changes() -> [Changed; 6] {
    [
        (
            "depth = 4",
            "depth = 65",
            "depth out of range",
            "line 18: allowed is an integer from 1 to 64",
        ),
        (
            "kind = \"queuing\"",
            "kind = 1",
            "wrong kind of kind",
            "line 15: allowed is \"sampling\" or \"queuing\"",
        ),
        // A key that is missing has the line of its table's heading.
        (
            "refresh_us = 20000",
            "",
            "missing refresh_us",
            "line 6: allowed is an integer from 0 to 1000000000",
        ),
        ("udp = 5002", "udp = 5000", "port given twice", "line 17"),
        ("\"nav\"", "\"pos\"", "name given twice", "line 14"),
        ("vl = 17", "vl = ", "not TOML", "line 2"),
    ]
}

/// The built-in configuration with that change, and the lines that are printed.
fn texts_of(alloc: Global, change: Changed) -> Result<(String, String), AllocError> {
    let (old, new, words, explained) = change;
    let config = BUILT_IN.replace(alloc, old, new)?;
    let errors = format!(in alloc; "afdx_play: config: {words}\nafdx_play: config: {explained}\n")?;
    Ok((config, errors))
}

fn check_change(rt: &(impl Abort + Threads + Wait + Sync), alloc: Global, change: Changed) {
    let (config, errors) = texts_of(alloc, change).expect(rt, "memory");
    check_explained(rt, alloc, config.as_bytes(), errors.as_str());
}

// rule: FAULT-7, CMD-7, CONF-25
#[test]
fn each_kind_of_fault_has_its_line_and_what_is_allowed(rt: HostRuntime) {
    for row in changes() {
        check_change(&rt, rt.alloc(), row);
    }
}

/// A document, and the lines that are printed.
type Document = (&'static [u8], &'static str);

fn documents() -> [Document; 3] {
    [
        (
            b"\n# \xff",
            "afdx_play: config: not TOML\nafdx_play: config: line 2\n",
        ),
        (
            b"",
            "afdx_play: config: missing link\nafdx_play: config: line 1: allowed is 1 to 64 tables\n",
        ),
        // Only headings of their own are known.
        (
            b"link = [{ vl = 70000 }]",
            "afdx_play: config: vl out of range\n\
            afdx_play: config: line not found: allowed is an integer from 0 to 65535\n",
        ),
    ]
}

// rule: FAULT-7, CONF-25
#[test]
fn a_document_that_has_no_such_line_says_so(rt: HostRuntime) {
    for (octets, errors) in documents() {
        check_explained(&rt, rt.alloc(), octets, errors);
    }
}
