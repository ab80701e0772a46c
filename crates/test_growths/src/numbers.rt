//! Links whose numbers lie far apart: the growths of what finds a link by its number, by itself and in a configuration.
ghost use Rattle.std.specs.Prelude.{◌≡◌};
ghost use Rattle.std.specs.List.{list_any};
ghost use Rattle.es_base.specs.Config.{has_link_number};

use crate::configurations::config_of;
use crate::refusal::{OWN, tell};
use es_base::{LinkNo, LinkSettings, Links};
use std::alloc::Global;
use std::process::Abort;
use vl_config::Config;

/// Number of links: as many as there may be.
const LINKS: u16 = 64;

/// The number of the link at this place. No two links share an upper or a lower octet, and 0 and 65535 are among the
/// numbers.
fn number_at(place: u16) -> u16 {
    let step = place.wrapping_mul(29) % LINKS;
    step.wrapping_mul(1040).wrapping_add(step / 4)
}

fn link_at(rt: &impl Abort, alloc: Global, place: u16) -> LinkSettings {
    let vl = LinkNo(number_at(place));
    LinkSettings::new(vl, 0, true, 0, 2, Vec::new(alloc)).expect(rt, "a link")
}

fn has_link_number(links: &[LinkSettings], vl: u16) -> bool
    ensures { result ≡ list_any (has_link_number vl) links.now }
{
    links.iter().any(|link| link.vl().0 == vl)
}

/// The place where the link of this place is found, if it is one of the first `count`.
fn wanted_place(place: u16, count: u16) -> Option<usize> {
    if place < count {
        Some(usize::from(place))
    } else {
        None
    }
}

/// These are the first `count` links: each of them is found at its place, and none of the others.
fn check_links(rt: &impl Abort, links: &Links, count: u16) {
    assert!(rt; links.as_slice().len() == usize::from(count));
    for place in 0..LINKS {
        let found = links.link_of(LinkNo(number_at(place)));
        assert!(rt; found == wanted_place(place, count), "{place}");
    }
}

/// Whether the link of this place was added.
fn is_pushed(rt: &impl Abort, alloc: Global, links: &mut Links, place: u16) -> bool {
    let link = link_at(rt, alloc, place);
    assert!(rt; !has_link_number(links.as_slice(), link.vl().0));
    links.push(link).is_ok()
}

/// The link of this place is added, at the second try if memory runs out at the first.
fn check_pushed(rt: &(impl Abort + Eprint), alloc: Global, links: &mut Links, place: u16) {
    if !is_pushed(rt, alloc, links, place) {
        tell(rt, "Links::push");
        check_links(rt, links, place);
        assert!(rt; is_pushed(rt, alloc, links, place));
    }
}

fn check_each_pushed(rt: &(impl Abort + Eprint), alloc: Global) {
    let mut links = Links::new(alloc);
    for place in 0..LINKS {
        check_pushed(rt, alloc, &mut links, place);
    }
    check_links(rt, &links, LINKS);
}

// rule: EMB-39
#[test]
fn links_of_64_upper_octets_are_added(rt: HostRuntime) {
    check_each_pushed(&rt, rt.alloc());
}

/// The document of these links.
fn document(rt: &impl Abort, alloc: Global) -> String {
    let mut text = String::new(alloc);
    for place in 0..LINKS {
        let vl = number_at(place);
        writeln!(
            text,
            "[[link]]\nvl = {vl}\nskew_max_us = 0\nreassembly_us = 0"
        )
        .expect(rt, OWN);
    }
    text
}

/// The configuration has all links.
fn check_config(rt: &impl Abort, config: &Config) {
    assert!(rt; config.links().len() == usize::from(LINKS));
    for place in 0..LINKS {
        let found = config.link_of(LinkNo(number_at(place)));
        assert!(rt; found == Some(usize::from(place)), "{place}");
    }
}

fn copy_of(rt: &(impl Abort + Eprint), alloc: Global, config: &Config) -> Config {
    match config.copy(alloc) {
        Ok(copy) => copy,
        Err(_) => {
            tell(rt, "Config::copy");
            config.copy(alloc).expect(rt, "memory")
        }
    }
}

/// The configuration that is read has all links, and so has its copy.
fn check_read(rt: &(impl Abort + Eprint), alloc: Global, text: &str) {
    let config = config_of(rt, alloc, text);
    check_config(rt, &config);
    check_config(rt, &copy_of(rt, alloc, &config));
}

// rule: EMB-39
#[test]
fn a_configuration_of_64_upper_octets_is_read_and_copied(rt: HostRuntime) {
    check_read(&rt, rt.alloc(), document(&rt, rt.alloc()).as_str());
}
