//! Keys that aren't their table's own: the first table that has one, and its line.
use crate::configurations::with_more;
use es_base::Memory;
use std::alloc::Global;
use std::process::Abort;
use test_inputs::SECOND_LINK;
use vl_config::{BUILT_IN, FaultPlace, Stray, stray_in_octets};

/// A stray key in the document's own table.
fn in_document(line: u64) -> Option<Stray> {
    Some(Stray {
        place: FaultPlace {
            link: None,
            port: None,
        },
        line,
    })
}

/// A stray key in the table of this link.
fn in_link(link: usize, line: u64) -> Option<Stray> {
    Some(Stray {
        place: FaultPlace {
            link: Some(link),
            port: None,
        },
        line,
    })
}

/// A stray key in the table of this port of link 0.
fn in_port(port: usize, line: u64) -> Option<Stray> {
    Some(Stray {
        place: FaultPlace {
            link: Some(0),
            port: Some(port),
        },
        line,
    })
}

/// The first table of these octets with a stray key. It has no clause, as `read` has none.
fn stray_in(alloc: Global, octets: &[u8]) -> Result<Option<Stray>, Memory> {
    stray_in_octets(alloc, octets)
}

fn check_stray(rt: &impl Abort, alloc: Global, document: &[u8], stray: Option<Stray>) {
    let found = stray_in(alloc, document).expect(rt, "memory");
    assert!(rt; found == stray, "{found:?}");
}

/// A text of the built-in configuration, its replacement, and what is told of that document.
type Row = (&'static str, &'static str, Option<Stray>);

fn check_row(rt: &impl Abort, alloc: Global, (old, new, stray): Row) {
    let document = BUILT_IN.replace(alloc, old, new).expect(rt, "memory");
    check_stray(rt, alloc, document.as_str().as_bytes(), stray);
}

fn misspelt_keys() -> [Row; 7] {
    [
        ("vl = 17", "vl = 17\nwindw = 3", in_link(0, 3)),
        ("vl = 17", "vl = 17\n  redundency=false", in_link(0, 3)),
        ("= 50000", "= 50000\nWindow = 3", in_link(0, 5)),
        ("= 20000", "= 20000\ncolour = \"red\"", in_port(0, 12)),
        ("= 4", "= 4\nmaxi = 100", in_port(1, 19)),
        (
            "[[link]]",
            "constnt = \"03000000\"\n[[link]]",
            in_document(1),
        ),
        ("[[link]]", "# x = 1\n\nlinks = 1\n[[link]]", in_document(3)),
    ]
}

// rule: CONF-28
#[test]
fn the_table_and_the_line_of_a_misspelt_key_are_told(rt: HostRuntime) {
    for row in misspelt_keys() {
        check_row(&rt, rt.alloc(), row);
    }
}

fn keys_of_other_tables() -> [Row; 6] {
    [
        ("vl = 17", "vl = 17\nudp = 3", in_link(0, 3)),
        ("vl = 17", "vl = 17\nconstant = \"03000000\"", in_link(0, 3)),
        ("vl = 17", "vl = 17\nreaders = 2", in_link(0, 3)),
        ("= 4", "= 4\nvl = 3", in_port(1, 19)),
        ("= 4", "= 4\nbag_us = 4000", in_port(1, 19)),
        ("[[link]]", "window = 3\n[[link]]", in_document(1)),
    ]
}

// rule: CONF-28
#[test]
fn a_key_of_another_table_is_stray(rt: HostRuntime) {
    for row in keys_of_other_tables() {
        check_row(&rt, rt.alloc(), row);
    }
}

/// Keys that the receiver reads, of a port of the other kind too, and keys that the tools read.
fn own_keys() -> [Row; 7] {
    [
        ("= 17", "= 17", None),
        ("[[link]]", "constant = \"03000000\"\n[[link]]", None),
        ("= 17", "= 17\nwindow = 3\nredundancy = false", None),
        (
            "= 17",
            "= 17\nname = \"Nav\"\nbag_us = 4000\njitter_us = 0\nnot_one_sender = \"a tap\"",
            None,
        ),
        (
            "= 20000",
            "= 20000\nmax = 8\nread_us = 1\nreaders = 2",
            None,
        ),
        ("= 4", "= 4\ntake_us = 1", None),
        ("= 4", "= 4\nrefresh_us = 1", None),
    ]
}

// rule: CONF-28
#[test]
fn own_keys_are_not_told(rt: HostRuntime) {
    for row in own_keys() {
        check_row(&rt, rt.alloc(), row);
    }
}

/// Stray keys of several tables, and two of one.
fn several() -> [Row; 4] {
    [
        ("= 17", "= 17\nx = 1\ny = 2", in_link(0, 3)),
        ("[[link]]\n", "x = 1\n[[link]]\ny = 2\n", in_document(1)),
        ("name", "y = 2\nname", in_port(0, 7)),
        ("= 20000", "= 20000\ny = 2\n[[link]]\nz = 3", in_port(0, 12)),
    ]
}

// rule: CONF-28
#[test]
fn the_first_of_several_is_told(rt: HostRuntime) {
    for row in several() {
        check_row(&rt, rt.alloc(), row);
    }
}

/// A key in quotation marks, one of two parts, and a table below a link: the heading is told.
fn keys_without_a_line() -> [Row; 5] {
    [
        ("= 17", "= 17\n\"windw\" = 3", in_link(0, 1)),
        ("= 17", "= 17\n\"window\" = 3", None),
        ("= 17", "= 17\nwindw.size = 3", in_link(0, 1)),
        ("= 4", "= 4\n[link.windw]\nsize = 3", in_link(0, 1)),
        ("= 4", "= 4\n[[link.port.windw]]\nsize = 3", in_port(1, 13)),
    ]
}

// rule: CONF-28
#[test]
fn the_heading_is_told_where_no_line_has_the_key(rt: HostRuntime) {
    for row in keys_without_a_line() {
        check_row(&rt, rt.alloc(), row);
    }
}

/// Octets, and what is told of them.
type Document = (&'static [u8], Option<Stray>);

/// Inline tables, and what is no document of links.
fn documents() -> [Document; 6] {
    [
        (b"link = [{ vl = 1 }, { windw = 3 }]", in_link(1, 0)),
        (b"link = [{ port = [{ x = 3 }] }]", in_port(0, 0)),
        (b"link = [{ port = [{ x = 3 }, 4] }]", None),
        (b"link = 3\nx = 4", in_document(2)),
        (b"x = ", None),
        (b"x = 1 # \xff", None),
    ]
}

// rule: CONF-28
#[test]
fn what_is_no_table_has_no_key(rt: HostRuntime) {
    for (document, stray) in documents() {
        check_stray(&rt, rt.alloc(), document, stray);
    }
}

fn check_second_link(rt: &impl Abort, alloc: Global) {
    let document = with_more(rt, alloc, SECOND_LINK);
    let document = document
        .as_str()
        .replace(alloc, "vl = 18", "vl = 18\nwindw = 3");
    let document = document.expect(rt, "memory");
    check_stray(rt, alloc, document.as_str().as_bytes(), in_link(1, 22));
}

// rule: CONF-28
#[test]
fn a_later_link_is_told_by_its_place(rt: HostRuntime) {
    check_second_link(&rt, rt.alloc());
}
