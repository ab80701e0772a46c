//! The order in which a document is tested, and documents that are refused as a whole.
use crate::checks::{Refused, check_fault, check_refused};
use crate::configurations::{config_of, with_first_line, with_more};
use es_base::Memory;
use std::alloc::Global;
use std::process::Abort;
use vl_config::ConfigFault::{DoubleLink, Kind, Missing, Range, Text};
use vl_config::{BUILT_IN, Config, ConfigFault, Key, line_in_octets, place_in_octets};

/// A text, and the fault of the document that is made with it.
type Row = (&'static str, ConfigFault);

fn first_lines() -> [Row; 9] {
    [
        ("constant = 3", Kind(Key::Constant)),
        ("constant = \"\"", Range(Key::Constant)),
        ("constant = \"0300000\"", Range(Key::Constant)),
        ("constant = \"030000000\"", Range(Key::Constant)),
        ("constant = \"0300000g\"", Range(Key::Constant)),
        ("vl = 99999999999999999999", Text),
        ("constant = \"03000000\"\nconstant = \"03000000\"", Text),
        ("link = 3", Text),
        ("x =", Text),
    ]
}

fn check_first_line(rt: &impl Abort, alloc: Global, line: &str, fault: Option<ConfigFault>) {
    let document = with_first_line(rt, alloc, line);
    check_fault(rt, alloc, document.as_str(), fault);
}

// rule: CONF-2, CONF-18, CONF-20
#[test]
fn the_constant_is_tested_before_the_links(rt: HostRuntime) {
    for (line, fault) in first_lines() {
        check_first_line(&rt, rt.alloc(), line, Some(fault));
    }
    check_first_line(&rt, rt.alloc(), "constant = \"0300000A\"", None);
}

fn documents_without_links() -> [Row; 8] {
    [
        ("", Missing(Key::Link)),
        ("link = []", Missing(Key::Link)),
        ("link = 3", Kind(Key::Link)),
        ("[link]\nvl = 1", Kind(Key::Link)),
        ("link.vl = 1", Kind(Key::Link)),
        ("link = [{ vl = 1 }, 3]", Kind(Key::Link)),
        ("link = [{}]", Missing(Key::Vl)),
        // The constant is tested first.
        ("constant = 1\nlink = 3", Kind(Key::Constant)),
    ]
}

// rule: CONF-3, CONF-17, CONF-18
#[test]
fn links_are_tables_of_an_array(rt: HostRuntime) {
    for (document, fault) in documents_without_links() {
        check_fault(&rt, rt.alloc(), document, Some(fault));
    }
}

fn keys_of_a_link() -> [Row; 6] {
    [
        ("port = 3", Missing(Key::ReassemblyUs)),
        ("window = 0", Missing(Key::ReassemblyUs)),
        (
            "reassembly_us = 0, window = 0, port = 3",
            Range(Key::Window),
        ),
        ("reassembly_us = 0, port = 3", Kind(Key::Port)),
        ("reassembly_us = 0, port = [3]", Kind(Key::Port)),
        ("reassembly_us = 0, port = [{}]", Missing(Key::Name)),
    ]
}

fn check_keys(rt: &impl Abort, alloc: Global, (keys, fault): Row) {
    let document = format!(in alloc; "link = [{{ vl = 1, skew_max_us = 0, {keys} }}]");
    let document = document.expect(rt, "memory");
    check_fault(rt, alloc, document.as_str(), Some(fault));
}

// rule: CONF-9, CONF-18
#[test]
fn ports_are_tested_after_the_other_keys_of_their_link(rt: HostRuntime) {
    for row in keys_of_a_link() {
        check_keys(&rt, rt.alloc(), row);
    }
}

fn check_no_ports(rt: &impl Abort, config: &Config) {
    assert!(rt; config.links()[0].ports().is_empty());
}

// rule: CONF-9, CONF-17
#[test]
fn a_link_may_have_no_ports(rt: HostRuntime) {
    let document = "link = [{ vl = 1, skew_max_us = 0, reassembly_us = 0 }]";
    check_no_ports(&rt, &config_of(&rt, rt.alloc(), document));
}

fn changes() -> [Refused; 2] {
    [
        ("vl = 17", "vl = 70000", Range(Key::Vl)),
        ("vl = 17", "vl = ", Text),
    ]
}

// rule: CONF-20
#[test]
fn a_document_is_refused_for_one_wrong_value(rt: HostRuntime) {
    check_refused(&rt, rt.alloc(), &changes());
}

// rule: CONF-4
#[test]
fn a_document_that_is_given_twice_is_refused(rt: HostRuntime) {
    let twice = with_more(&rt, rt.alloc(), BUILT_IN);
    check_fault(&rt, rt.alloc(), twice.as_str(), Some(DoubleLink));
}

/// Octets that are no TOML document, and the line with the octet that is refused.
type Misplaced = (&'static [u8], u64);

/// A heading without its end, a key with two values, and an octet that is no UTF-8.
fn lines_of_faults() -> [Misplaced; 3] {
    [
        (b"[[link]\nvl = 1\n", 1),
        (b"[[link]]\nvl = 1\nwindow = = 2\n", 3),
        (b"[[link]]\nvl = \xff\n", 2),
    ]
}

/// The line of the fault Text of these octets. It has no clause, as `read` has none.
fn line_in(alloc: Global, octets: &[u8]) -> Result<u64, Memory> {
    let place = place_in_octets(alloc, octets)?;
    line_in_octets(alloc, octets, Text, place)
}

fn check_line(rt: &impl Abort, alloc: Global, (octets, line): Misplaced) {
    let found = line_in(alloc, octets).expect(rt, "memory");
    assert!(rt; found == line, "{line}: {found}");
}

// rule: CONF-25
#[test]
fn what_is_no_document_is_refused_at_its_line(rt: HostRuntime) {
    for row in lines_of_faults() {
        check_line(&rt, rt.alloc(), row);
    }
}
