//! Ends by the names of their ports.
use crate::opened::{config, config_of, open_with, readers_of};
use receiver::{MOST_READERS, Opened, PortNo, PortOutlet, ReaderCount};
use std::alloc::Global;
use std::process::Abort;
use test_inputs::rows::{NAV, POS};
use vl_config::BUILT_IN;

fn check_places(rt: &impl Abort, opened: &Opened<PortOutlet>) {
    assert!(rt; opened.place_of("pos") == Some((0, POS)));
    assert!(rt; opened.place_of("nav") == Some((0, NAV)));
    assert!(rt; opened.place_of("alt") == Some((1, PortNo(0))));
    assert!(rt; opened.place_of("po").is_none() && opened.place_of("").is_none());
}

fn check_names(rt: &impl Abort, alloc: Global) {
    let config = config(rt, alloc);
    let mut opened = open_with(rt, alloc, &config, MOST_READERS);
    check_places(rt, &opened);
    assert!(rt; opened.take_reader("nav").is_none() && opened.take_taker("pos").is_none());
    assert!(rt; opened.take_reader("pos2").is_none() && opened.take_taker("").is_none());
    assert!(rt; readers_of(rt, alloc, &mut opened, "pos").len() == 8);
    let alt = opened.take_reader("alt").expect(rt, "a reader");
    assert!(rt; alt.refresh() == 20_000);
    assert!(rt; opened.take_taker("nav").is_some() && opened.take_taker("nav").is_none());
    check_places(rt, &opened);
    let end = opened.take_end("nav").expect(rt, "an end");
    assert!(rt; end.port == NAV && end.max == 8192 && end.name.as_str() == "nav");
    assert!(rt; opened.take_end("nav").is_none() && opened.place_of("nav").is_none());
}

// rule: EMB-3
#[test]
fn ends_are_had_by_name_and_no_oftener_than_there_are(rt: HostRuntime) {
    check_names(&rt, rt.alloc());
}

/// Each sampling port has as many readers as the opening was told, and no more.
fn check_counts(rt: &impl Abort, alloc: Global) {
    for readers in 1..=MOST_READERS {
        let mut opened = open_with(rt, alloc, &config(rt, alloc), readers);
        for name in ["pos", "alt"] {
            for _ in 0..readers {
                assert!(rt; opened.take_reader(name).is_some(), "{name}: {readers}");
            }
            assert!(rt; opened.take_reader(name).is_none(), "{name}: {readers}");
        }
    }
    assert!(rt; ReaderCount::new(0).is_none() && ReaderCount::new(9).is_none());
}

// rule: EMB-2, EMB-3
#[test]
fn a_sampling_port_has_as_many_readers_as_the_opening_was_told(rt: HostRuntime) {
    check_counts(&rt, rt.alloc());
}

/// `pos` takes messages of up to 40 octets, and `alt` of up to 1471.
fn check_longest(rt: &impl Abort, alloc: Global) {
    let short = "udp = 5000\nmax = 40\n";
    let text = BUILT_IN
        .replace(alloc, "udp = 5000\n", short)
        .expect(rt, "memory");
    let config = config_of(rt, alloc, text.as_str());
    let mut opened = open_with(rt, alloc, &config, 1);
    let pos = opened.take_reader("pos").expect(rt, "a reader");
    let alt = opened.take_reader("alt").expect(rt, "a reader");
    assert!(rt; pos.max() == 40 && alt.max() == 1471);
}

// rule: EMB-2
#[test]
fn each_reader_has_the_longest_message_of_its_own_port(rt: HostRuntime) {
    check_longest(&rt, rt.alloc());
}
