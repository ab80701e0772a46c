//! Link numbers, port names and UDP ports that are given twice.
use crate::checks::{Refused, check_fault, check_refused};
use crate::configurations::with_more;
use es_base::Memory;
use std::alloc::Global;
use std::process::Abort;
use test_inputs::SECOND_LINK;
use vl_config::ConfigFault::{DoubleLink, DoubleName, DoublePort};
use vl_config::{BUILT_IN, ConfigFault, FaultPlace, place_of_fault};

fn repetitions_in_a_link() -> [Refused; 2] {
    [
        ("\"nav\"", "\"pos\"", DoubleName),
        ("5002", "5000", DoublePort),
    ]
}

// rule: CONF-22, CONF-23
#[test]
fn names_and_udp_ports_are_given_once_in_a_link(rt: HostRuntime) {
    check_refused(&rt, rt.alloc(), &repetitions_in_a_link());
}

// rule: CONF-23
#[test]
fn a_name_is_tested_before_the_address_and_udp_port(rt: HostRuntime) {
    let alloc = rt.alloc();
    let named = BUILT_IN.replace(alloc, "\"nav\"", "\"pos\"");
    let named = named.expect(&rt, "memory");
    let both = named.replace(alloc, "5002", "5000").expect(&rt, "memory");
    check_fault(&rt, alloc, both.as_str(), Some(DoubleName));
}

/// A text of the second link, its replacement, and the fault of the document if it has one.
type Change = (&'static str, &'static str, Option<ConfigFault>);

fn changes_of_the_second_link() -> [Change; 5] {
    [
        ("\"alt\"", "\"pos\"", Some(DoubleName)),
        ("\"alt\"", "\"nav\"", Some(DoubleName)),
        ("224.224.0.18", "224.224.0.17", None),
        ("vl = 18", "vl = 17", Some(DoubleLink)),
        ("vl = 18", "vl = 273", None),
    ]
}

fn check_change(rt: &impl Abort, alloc: Global, change: Change) {
    let (old, new, fault) = change;
    let link = SECOND_LINK.replace(alloc, old, new).expect(rt, "memory");
    let document = with_more(rt, alloc, link.as_str());
    check_fault(rt, alloc, document.as_str(), fault);
}

// rule: CONF-4, CONF-22, CONF-23
#[test]
fn link_numbers_and_names_are_given_once_over_the_links(rt: HostRuntime) {
    for change in changes_of_the_second_link() {
        check_change(&rt, rt.alloc(), change);
    }
}

// rule: CONF-4, CONF-18
#[test]
fn a_repeated_link_number_is_tested_before_the_other_keys(rt: HostRuntime) {
    let document = with_more(&rt, rt.alloc(), "\n[[link]]\nvl = 17\n");
    check_fault(&rt, rt.alloc(), document.as_str(), Some(DoubleLink));
}

/// A text of the second link, its replacement, and the fault's link and port.
type Placed = (&'static str, &'static str, Option<usize>, Option<usize>);

/// The first port of link 18 has a name of link 17; the link has its number; and there is no fault.
fn places_of_faults() -> [Placed; 4] {
    [
        ("\"alt\"", "\"pos\"", Some(1), Some(0)),
        ("\"alt\"", "\"nav\"", Some(1), Some(0)),
        ("vl = 18", "vl = 17", Some(1), None),
        ("vl = 18", "vl = 273", None, None),
    ]
}

/// The place of a document's fault. It has no clause, as `read` has none.
fn place_in(alloc: Global, document: &str) -> Result<FaultPlace, Memory> {
    place_of_fault(alloc, document)
}

fn check_placed(rt: &impl Abort, alloc: Global, row: Placed) {
    let (old, new, link, port) = row;
    let text = SECOND_LINK.replace(alloc, old, new).expect(rt, "memory");
    let document = with_more(rt, alloc, text.as_str());
    let place = place_in(alloc, document.as_str()).expect(rt, "memory");
    assert!(rt; place == FaultPlace { link, port }, "{new}: {place:?}");
}

// rule: CONF-24
#[test]
fn a_repetition_stands_at_the_later_link_and_port(rt: HostRuntime) {
    for row in places_of_faults() {
        check_placed(&rt, rt.alloc(), row);
    }
}
