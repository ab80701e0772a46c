//! The keys of a port: the faults of each, and the ends of its range.
use crate::checks::{Refused, Taken, check_refused, check_taken};
use vl_config::ConfigFault::{Kind, Missing, Range};
use vl_config::Key;

fn faults_of_names_and_kinds() -> [Refused; 9] {
    [
        ("name = \"pos\"\n", "", Missing(Key::Name)),
        ("\"pos\"", "3", Kind(Key::Name)),
        ("\"pos\"", "\"Pos\"", Range(Key::Name)),
        ("\"pos\"", "\"\"", Range(Key::Name)),
        ("\"pos\"", "\"abcdefghijklmnopq\"", Range(Key::Name)),
        ("\"pos\"", "\"p.s\"", Range(Key::Name)),
        ("kind = \"sampling\"\n", "", Missing(Key::Kind)),
        ("\"sampling\"", "1", Kind(Key::Kind)),
        ("\"sampling\"", "\"Sampling\"", Range(Key::Kind)),
    ]
}

fn faults_of_addresses_and_udp_ports() -> [Refused; 10] {
    [
        ("address = \"224.224.0.17\"\n", "", Missing(Key::Address)),
        ("\"224.224.0.17\"", "17", Kind(Key::Address)),
        ("0.17\"", "0.017\"", Range(Key::Address)),
        ("0.17\"", "0.256\"", Range(Key::Address)),
        ("224.0.17\"", "0.17\"", Range(Key::Address)),
        ("0.17\"", "0.17 \"", Range(Key::Address)),
        ("udp = 5000\n", "", Missing(Key::Udp)),
        ("udp = 5000", "udp = \"5000\"", Kind(Key::Udp)),
        ("udp = 5000", "udp = 65536", Range(Key::Udp)),
        ("udp = 5000", "udp = -1", Range(Key::Udp)),
    ]
}

fn faults_of_limits() -> [Refused; 14] {
    [
        ("= 5000\n", "= 5000\nmax = true\n", Kind(Key::Max)),
        ("= 5000\n", "= 5000\nmax = -1\n", Range(Key::Max)),
        ("= 5000\n", "= 5000\nmax = 1472\n", Range(Key::Max)),
        ("= 5002\n", "= 5002\nmax = -1\n", Range(Key::Max)),
        ("= 5002\n", "= 5002\nmax = 8193\n", Range(Key::Max)),
        ("refresh_us = 20000\n", "", Missing(Key::RefreshUs)),
        ("20000", "\"x\"", Kind(Key::RefreshUs)),
        ("20000", "-1", Range(Key::RefreshUs)),
        ("20000", "1000000001", Range(Key::RefreshUs)),
        ("depth = 4\n", "", Missing(Key::Depth)),
        ("depth = 4", "depth = 4.0", Kind(Key::Depth)),
        ("depth = 4", "depth = 0", Range(Key::Depth)),
        ("depth = 4", "depth = 65", Range(Key::Depth)),
        ("depth = 4", "depth = -1", Range(Key::Depth)),
    ]
}

fn ends() -> [Taken; 17] {
    [
        ("\"pos\"", "\"a\""),
        ("\"pos\"", "\"abcdefghijklmn-_\""),
        ("\"pos\"", "\"0\""),
        ("224.224.0.17", "0.0.0.0"),
        ("224.224.0.17", "255.255.255.255"),
        ("udp = 5000", "udp = 0"),
        ("udp = 5000", "udp = 65535"),
        ("= 5000\n", "= 5000\nmax = 0\n"),
        ("= 5000\n", "= 5000\nmax = 1471\n"),
        ("= 5002\n", "= 5002\nmax = 0\n"),
        ("= 5002\n", "= 5002\nmax = 8192\n"),
        ("20000", "0"),
        ("20000", "1000000000"),
        ("depth = 4", "depth = 1"),
        ("depth = 4", "depth = 64"),
        // A key of the other kind of port is ignored.
        ("depth = 4", "depth = 4\nrefresh_us = \"x\""),
        ("20000", "20000\ndepth = 0"),
    ]
}

// rule: CONF-10, CONF-11, CONF-19
#[test]
fn names_and_kinds_have_their_faults(rt: HostRuntime) {
    check_refused(&rt, rt.alloc(), &faults_of_names_and_kinds());
}

// rule: CONF-12, CONF-13, CONF-19
#[test]
fn addresses_and_udp_ports_have_their_faults(rt: HostRuntime) {
    check_refused(&rt, rt.alloc(), &faults_of_addresses_and_udp_ports());
}

// rule: CONF-14, CONF-15, CONF-16, CONF-19
#[test]
fn limits_of_a_port_have_their_faults(rt: HostRuntime) {
    check_refused(&rt, rt.alloc(), &faults_of_limits());
}

// rule: CONF-1, CONF-10, CONF-12, CONF-13, CONF-14, CONF-15, CONF-16
#[test]
fn each_range_of_a_port_is_taken_to_its_ends(rt: HostRuntime) {
    check_taken(&rt, rt.alloc(), &ends());
}
