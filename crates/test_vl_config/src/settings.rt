//! The settings that a document gives, and the look-ups in them.
use crate::checks::check_place;
use crate::configurations::{both_links, config_of, first, with_first_line};
use es_base::{LinkNo, LinkSettings, PortKind, PortNo, PortSettings};
use std::process::Abort;
use vl_config::{BUILT_IN, Config};

/// The setting of this name has this value.
fn check_setting(rt: &impl Abort, name: &str, value: u64, wanted: u64) {
    assert!(rt; value == wanted, "{name}: {value}");
}

fn check_link_settings(rt: &impl Abort, link: &LinkSettings) {
    check_setting(rt, "vl", u64::from(link.vl().0), 17);
    check_setting(rt, "skew_max", link.skew_max(), 1000);
    check_setting(rt, "reassembly", link.reassembly(), 50_000);
    check_setting(rt, "window", u64::from(link.window()), 2);
    assert!(rt; link.redundancy());
}

fn check_constant(rt: &impl Abort, config: &Config, constant: [u8; 4]) {
    assert!(rt; config.constant() == constant);
}

fn check_link(rt: &impl Abort, config: &Config) {
    check_constant(rt, config, [3, 0, 0, 0]);
    check_setting(rt, "links", config.links().len() as u64, 1);
    check_link_settings(rt, &config.links()[0]);
}

// rule: CONF-2, CONF-4, CONF-5, CONF-6, CONF-7, CONF-8, CONF-27
#[test]
fn a_link_has_the_settings_of_its_table(rt: HostRuntime) {
    check_link(&rt, &first(&rt, rt.alloc()));
}

/// A port's name, address, UDP port, largest payload and kind.
type Port = (&'static str, u32, u16, u16, PortKind);

fn built_in_ports() -> [Port; 2] {
    [
        (
            "pos",
            0xe0e0_0011,
            5000,
            1471,
            PortKind::Sampling { refresh: 20_000 },
        ),
        (
            "nav",
            0xe0e0_0011,
            5002,
            8192,
            PortKind::Queuing { depth: 4 },
        ),
    ]
}

fn check_port(rt: &impl Abort, port: &PortSettings, (name, address, udp, max, kind): Port) {
    check_setting(rt, "address", u64::from(port.address()), u64::from(address));
    check_setting(rt, "udp", u64::from(port.udp()), u64::from(udp));
    check_setting(rt, "max", u64::from(port.max()), u64::from(max));
    assert!(rt;
        port.name().as_str() == name && port.kind() == kind,
        "{name}"
    );
}

fn check_ports(rt: &impl Abort, config: &Config) {
    let ports = config.links()[0].ports();
    check_setting(rt, "ports", ports.len() as u64, 2);
    for (port, wanted) in ports.iter().zip(built_in_ports()) {
        check_port(rt, port, wanted);
    }
}

// rule: CONF-10, CONF-11, CONF-12, CONF-13, CONF-14, CONF-15, CONF-16, CONF-27
#[test]
fn ports_have_the_settings_of_their_tables(rt: HostRuntime) {
    check_ports(&rt, &first(&rt, rt.alloc()));
}

fn check_off(rt: &impl Abort, config: &Config) {
    assert!(rt; !config.links()[0].redundancy());
}

// rule: CONF-2
#[test]
fn the_constant_may_be_given(rt: HostRuntime) {
    let other = with_first_line(&rt, rt.alloc(), "constant = \"a1B2c3D4\"");
    let other = config_of(&rt, rt.alloc(), other.as_str());
    check_constant(&rt, &other, [0xa1, 0xb2, 0xc3, 0xd4]);
}

// rule: RM-1, CONF-6
#[test]
fn redundancy_management_may_be_switched_off(rt: HostRuntime) {
    let off = BUILT_IN.replace(rt.alloc(), "vl = 17", "vl = 17\nredundancy = false");
    let off = off.expect(&rt, "memory");
    check_off(&rt, &config_of(&rt, rt.alloc(), off.as_str()));
}

fn check_window(rt: &impl Abort, config: &Config, window: u64) {
    check_setting(rt, "window", u64::from(config.links()[0].window()), window);
}

// rule: CONF-8
#[test]
fn the_window_may_be_given(rt: HostRuntime) {
    let wide = BUILT_IN.replace(rt.alloc(), "vl = 17", "vl = 17\nwindow = 3");
    let wide = wide.expect(&rt, "memory");
    check_window(&rt, &config_of(&rt, rt.alloc(), wide.as_str()), 3);
}

fn check_links_found(rt: &impl Abort, config: &Config) {
    check_place(rt, config, 17, Some(0));
    check_place(rt, config, 18, Some(1));
    check_place(rt, config, 16, None);
    check_place(rt, config, 0x1111, None);
}

// rule: FRAME-6
#[test]
fn links_are_found_by_their_numbers(rt: HostRuntime) {
    check_links_found(&rt, &both_links(&rt, rt.alloc()));
}

// rule: FRAME-6
#[test]
fn a_copy_finds_the_same_links(rt: HostRuntime) {
    let config = both_links(&rt, rt.alloc());
    check_links_found(&rt, &config.copy(rt.alloc()).expect(&rt, "memory"));
}

/// A link number, an address and a UDP port, and the port that is found.
type LookUp = (u16, u32, u16, Option<PortNo>);

fn look_ups() -> [LookUp; 5] {
    [
        (17, 0xe0e0_0011, 5000, Some(PortNo(0))),
        (17, 0xe0e0_0011, 5002, Some(PortNo(1))),
        (17, 0xe0e0_0012, 5000, None),
        (18, 0xe0e0_0012, 5000, Some(PortNo(0))),
        (18, 0xe0e0_0012, 5002, None),
    ]
}

fn check_look_up(rt: &impl Abort, config: &Config, row: LookUp) {
    let (vl, address, udp, port) = row;
    let link = config.link_of(LinkNo(vl)).expect(rt, "a link");
    assert!(rt; config.port_of(link, address, udp) == port, "{vl} {udp}");
}

// rule: PORT-1
#[test]
fn ports_are_found_by_their_addresses_and_udp_ports(rt: HostRuntime) {
    let config = both_links(&rt, rt.alloc());
    for row in look_ups() {
        check_look_up(&rt, &config, row);
    }
}
