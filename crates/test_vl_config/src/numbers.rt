//! Links whose numbers lie far apart: each is found by its number, and no other number is.
use crate::checks::check_place;
use crate::configurations::config_of;
use es_base::LinkNo;
use std::alloc::Global;
use std::process::Abort;
use vl_config::Config;

/// Number of links: as many as there may be.
const LINKS: u16 = 64;

/// The number of the link at this place. No two links share an upper or a lower octet, and 0 and 65535 are among the
/// numbers.
fn number_at(place: u16) -> u16 {
    let step = place.wrapping_mul(29) % LINKS;
    step.wrapping_mul(1040).wrapping_add(step / 4)
}

/// The document of these links.
fn document(rt: &impl Abort, alloc: Global) -> String {
    let mut text = String::new(alloc);
    for place in 0..LINKS {
        let vl = number_at(place);
        writeln!(
            text,
            "[[link]]\nvl = {vl}\nskew_max_us = 0\nreassembly_us = 0"
        )
        .expect(rt, "memory");
    }
    text
}

/// The link at this place has this number.
fn check_number(rt: &impl Abort, config: &Config, place: usize, vl: u16) {
    let link = config.links().get(place).expect(rt, "a link");
    assert!(rt; link.vl() == LinkNo(vl), "{place}");
}

fn check_each_found(rt: &impl Abort, config: &Config) {
    for place in 0..LINKS {
        let vl = number_at(place);
        check_place(rt, config, vl, Some(usize::from(place)));
        check_number(rt, config, usize::from(place), vl);
    }
}

/// How many of all link numbers are found.
fn found_of_all(config: &Config) -> usize {
    let mut found = 0_usize;
    for vl in 0..=u16::MAX {
        if config.link_of(LinkNo(vl)).is_some() {
            found = found.wrapping_add(1);
        }
    }
    found
}

/// Each link is found, and no other number: neither one with an upper octet of some link and another lower one, nor one
/// with a lower octet of some link and another upper one.
fn check_found(rt: &impl Abort, config: &Config) {
    check_each_found(rt, config);
    assert!(rt; found_of_all(config) == usize::from(LINKS));
}

fn config_of_links(rt: &impl Abort, alloc: Global) -> Config {
    config_of(rt, alloc, document(rt, alloc).as_str())
}

// rule: FRAME-6, CONF-4
#[test]
fn links_of_64_upper_octets_are_found(rt: HostRuntime) {
    check_found(&rt, &config_of_links(&rt, rt.alloc()));
}

fn check_copy(rt: &impl Abort, alloc: Global, config: &Config) {
    check_found(rt, &config.copy(alloc).expect(rt, "memory"));
}

// rule: FRAME-6
#[test]
fn a_copy_finds_links_of_64_upper_octets(rt: HostRuntime) {
    check_copy(&rt, rt.alloc(), &config_of_links(&rt, rt.alloc()));
}
