//! How many links and ports there may be.
use crate::checks::{check_fault, check_place};
use crate::configurations::config_of;
use es_base::PortNo;
use std::alloc::Global;
use std::process::Abort;
use vl_config::Config;
use vl_config::ConfigFault::TooMany;

/// A document of `count` links with the link numbers from 0. Where `numbered` is false the first has none.
fn links(rt: &impl Abort, alloc: Global, count: u16, numbered: bool) -> String {
    let mut text = String::new(alloc);
    for vl in 0..count {
        text.push_str("[[link]]\nskew_max_us = 0\nreassembly_us = 0\n")
            .expect(rt, "memory");
        if numbered || vl != 0 {
            writeln!(text, "vl = {vl}").expect(rt, "memory");
        }
    }
    text
}

/// A document of one link with `count` ports, at the UDP ports from 0.
fn ports(rt: &impl Abort, alloc: Global, count: u16) -> String {
    let mut text = String::new(alloc);
    text.push_str("[[link]]\nvl = 1\nskew_max_us = 0\nreassembly_us = 0\n")
        .expect(rt, "memory");
    for udp in 0..count {
        text.push_str("[[link.port]]\nkind = \"queuing\"\naddress = \"224.0.0.1\"\ndepth = 1\n")
            .expect(rt, "memory");
        writeln!(text, "name = \"p{udp}\"\nudp = {udp}").expect(rt, "memory");
    }
    text
}

fn check_64_links(rt: &impl Abort, config: &Config) {
    assert!(rt; config.links().len() == 64);
    check_place(rt, config, 63, Some(63));
    check_place(rt, config, 64, None);
}

// rule: CONF-3
#[test]
fn there_are_64_links_at_most(rt: HostRuntime) {
    let most = links(&rt, rt.alloc(), 64, true);
    check_64_links(&rt, &config_of(&rt, rt.alloc(), most.as_str()));
    let more = links(&rt, rt.alloc(), 65, true);
    check_fault(&rt, rt.alloc(), more.as_str(), Some(TooMany));
}

// rule: CONF-3, CONF-18
#[test]
fn links_are_counted_before_they_are_read(rt: HostRuntime) {
    let more = links(&rt, rt.alloc(), 65, false);
    check_fault(&rt, rt.alloc(), more.as_str(), Some(TooMany));
}

fn check_32_ports(rt: &impl Abort, config: &Config) {
    assert!(rt; config.links()[0].ports().len() == 32);
    let last = config.port_of(0, 0xe000_0001, 31);
    assert!(rt; last == Some(PortNo(31)));
}

// rule: CONF-9
#[test]
fn there_are_32_ports_of_a_link_at_most(rt: HostRuntime) {
    let most = ports(&rt, rt.alloc(), 32);
    check_32_ports(&rt, &config_of(&rt, rt.alloc(), most.as_str()));
    let more = ports(&rt, rt.alloc(), 33);
    check_fault(&rt, rt.alloc(), more.as_str(), Some(TooMany));
}
