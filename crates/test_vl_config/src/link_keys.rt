//! The keys of a link: the faults of each, and the ends of its range.
use crate::checks::{Refused, Taken, check_refused, check_taken};
use vl_config::ConfigFault::{Kind, Missing, Range};
use vl_config::Key;

fn faults() -> [Refused; 17] {
    [
        ("vl = 17\n", "", Missing(Key::Vl)),
        ("vl = 17", "vl = \"17\"", Kind(Key::Vl)),
        ("vl = 17", "vl = 17.0", Kind(Key::Vl)),
        ("vl = 17", "vl = 65536", Range(Key::Vl)),
        ("vl = 17", "vl = -1", Range(Key::Vl)),
        ("skew_max_us = 1000\n", "", Missing(Key::SkewMaxUs)),
        ("= 1000\n", "= true\n", Kind(Key::SkewMaxUs)),
        ("= 1000\n", "= 1000001\n", Range(Key::SkewMaxUs)),
        ("= 1000\n", "= -1\n", Range(Key::SkewMaxUs)),
        ("= 17", "= 17\nredundancy = 1", Kind(Key::Redundancy)),
        ("reassembly_us = 50000\n", "", Missing(Key::ReassemblyUs)),
        ("50000", "[]", Kind(Key::ReassemblyUs)),
        ("50000", "10000001", Range(Key::ReassemblyUs)),
        ("50000", "-1", Range(Key::ReassemblyUs)),
        ("= 17", "= 17\nwindow = \"2\"", Kind(Key::Window)),
        ("= 17", "= 17\nwindow = 0", Range(Key::Window)),
        ("= 17", "= 17\nwindow = 5", Range(Key::Window)),
    ]
}

fn ends() -> [Taken; 12] {
    [
        ("vl = 17", "vl = 0"),
        ("vl = 17", "vl = 65535"),
        ("vl = 17", "vl = 0x11"),
        ("vl = 17", "vl = 1_7"),
        ("= 1000\n", "= 0\n"),
        ("= 1000\n", "= 1000000\n"),
        ("vl = 17", "vl = 17\nredundancy = true"),
        ("50000", "0"),
        ("50000", "10000000"),
        ("vl = 17", "vl = 17\nwindow = 1"),
        ("vl = 17", "vl = 17\nwindow = 4"),
        // A key that has no meaning is ignored.
        ("vl = 17", "vl = 17\ncolour = \"red\""),
    ]
}

// rule: CONF-4, CONF-5, CONF-6, CONF-7, CONF-8, CONF-19
#[test]
fn each_key_of_a_link_has_its_faults(rt: HostRuntime) {
    check_refused(&rt, rt.alloc(), &faults());
}

// rule: CONF-1, CONF-4, CONF-5, CONF-7, CONF-8
#[test]
fn each_range_of_a_link_is_taken_to_its_ends(rt: HostRuntime) {
    check_taken(&rt, rt.alloc(), &ends());
}
