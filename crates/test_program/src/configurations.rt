//! The words and the status of each fault of a configuration.
use crate::shelf::{READ_C, Wanted, check_files};
use std::alloc::{AllocError, Global};
use std::io::ErrorKind;
use std::process::Abort;
use std::sync::Wait;
use std::thread::Threads;
use vl_config::BUILT_IN;

/// A run is refused for its configuration: nothing but that file was asked for.
fn check_refused(
    rt: &(impl Abort + Threads + Wait + Sync),
    alloc: Global,
    octets: &[u8],
    errors: &str,
) {
    let missing = Err(ErrorKind::NotFound);
    let wanted = Wanted {
        status: 1,
        output: "",
        errors,
        asked: READ_C,
    };
    check_files(rt, alloc, (Ok(octets), missing, missing), wanted);
}

/// The octets of a configuration's file, and the line that is printed.
type Document = (&'static [u8], &'static str);

fn documents() -> [Document; 3] {
    [
        (b"", "afdx_play: config: missing link\n"),
        (b"vl = ", "afdx_play: config: not TOML\n"),
        // Octets that are no text are no TOML document.
        (b"# \xff", "afdx_play: config: not TOML\n"),
    ]
}

// rule: CONF-20, CONF-21, FAULT-5
#[test]
fn a_file_that_is_no_document_is_refused(rt: HostRuntime) {
    for (octets, errors) in documents() {
        check_refused(&rt, rt.alloc(), octets, errors);
    }
}

/// A text of the built-in configuration, another in its place, and the words of the fault.
type Changed = (&'static str, &'static str, &'static str);

fn changes() -> [Changed; 21] {
    [
        ("vl = 17", "", "missing vl"),
        ("vl = 17", "vl = true", "wrong kind of vl"),
        ("vl = 17", "vl = 65536", "vl out of range"),
        ("skew_max_us = 1000", "", "missing skew_max_us"),
        (
            "vl = 17",
            "vl = 17\nredundancy = 1",
            "wrong kind of redundancy",
        ),
        ("reassembly_us = 50000", "", "missing reassembly_us"),
        ("vl = 17", "vl = 17\nwindow = 5", "window out of range"),
        ("[[link.port]]", "[link.port]", "not TOML"),
        ("vl = 17", "vl = 17\nport = 3", "not TOML"),
        ("name = \"pos\"", "name = \"Pos\"", "name out of range"),
        ("kind = \"sampling\"", "kind = 1", "wrong kind of kind"),
        ("224.224.0.17", "224.224.0", "address out of range"),
        ("udp = 5000", "udp = 65536", "udp out of range"),
        ("udp = 5000", "udp = 5000\nmax = 1472", "max out of range"),
        ("refresh_us = 20000", "", "missing refresh_us"),
        ("depth = 4", "depth = 65", "depth out of range"),
        ("udp = 5002", "udp = 5000", "port given twice"),
        ("\"nav\"", "\"pos\"", "name given twice"),
        (
            "[[link]]",
            "constant = 3\n[[link]]",
            "wrong kind of constant",
        ),
        ("[[link]]", "link = 3", "not TOML"),
        (
            "[[link]]",
            "[[link]]\nvl = 17\nskew_max_us = 0\nreassembly_us = 0\n[[link]]",
            "link given twice",
        ),
    ]
}

/// The built-in configuration with that change, and the line that is printed.
fn texts_of(alloc: Global, change: Changed) -> Result<(String, String), AllocError> {
    let (old, new, words) = change;
    let config = BUILT_IN.replace(alloc, old, new)?;
    let errors = format!(in alloc; "afdx_play: config: {words}\n")?;
    Ok((config, errors))
}

fn check_change(rt: &(impl Abort + Threads + Wait + Sync), alloc: Global, change: Changed) {
    let (config, errors) = texts_of(alloc, change).expect(rt, "memory");
    check_refused(rt, alloc, config.as_bytes(), errors.as_str());
}

// rule: FAULT-4, FAULT-5
#[test]
fn each_fault_of_a_configuration_has_its_words(rt: HostRuntime) {
    for row in changes() {
        check_change(&rt, rt.alloc(), row);
    }
}

// rule: CONF-3, FAULT-5
#[test]
fn too_many_links_have_their_words(rt: HostRuntime) {
    let config = "[[link]]\n".repeat(rt.alloc(), 65).expect(&rt, "memory");
    let errors = "afdx_play: config: too many links or ports\n";
    check_refused(&rt, rt.alloc(), config.as_bytes(), errors);
}
