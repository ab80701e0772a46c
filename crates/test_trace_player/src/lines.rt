//! Lines of the output, printed.
use es_base::Net::{A, B};
use es_base::{FILTER_CAUSES, LinkNo, PortNo, Verdict, VerdictTally};
use output_lines::{
    BusyLine, CountLine, EmptyLine, FilteredCountLine, QueueLine, add_event, add_line, add_words,
};
use std::alloc::Global;
use std::fmt::Display;
use std::process::Abort;
use vl_config::{BUILT_IN, read_config};

/// The line is printed as this text.
fn check_line<L: Display + Drop>(rt: &impl Abort, alloc: Global, line: L, text: &str) {
    let printed = format!(in alloc; "{line}").expect(rt, "memory");
    assert!(rt; printed.as_str() == text, "{printed}");
}

/// The line of the fourth event of link 17, with this verdict, is this text.
fn check_event(rt: &impl Abort, alloc: Global, verdict: Verdict, text: &str) {
    let config = read_config(alloc, BUILT_IN)
        .ok()
        .expect(rt, "a configuration");
    let link = config.links().first().expect(rt, "a link");
    let mut lines = Vec::new(alloc);
    add_event(&mut lines, link.ports(), 7, A, LinkNo(17), 3, verdict).expect(rt, "memory");
    assert!(rt; lines.as_slice() == text.as_bytes());
}

/// No trace of a test is long enough to come to this verdict.
// rule: OUT-2, OUT-6
#[test]
fn a_port_that_has_used_up_its_message_numbers_is_named(rt: HostRuntime) {
    let exhausted = Verdict::Exhausted(PortNo(0));
    check_event(&rt, rt.alloc(), exhausted, "7 A vl 17 3 exhausted pos\n");
}

fn check_queue_words(rt: &impl Abort, alloc: Global) {
    let nav = PortNo(1);
    check_event(rt, alloc, Verdict::Queued(nav), "7 A vl 17 3 queued nav\n");
    let full = Verdict::Overflow(nav);
    check_event(rt, alloc, full, "7 A vl 17 3 overflow nav\n");
}

// rule: OUT-2, OUT-6
#[test]
fn the_verdicts_of_a_queue_have_their_words(rt: HostRuntime) {
    check_queue_words(&rt, rt.alloc());
}

fn check_empty_port(rt: &impl Abort, alloc: Global) {
    let sampling = EmptyLine { name: "pos" };
    check_line(rt, alloc, sampling, "port pos sampling empty");
    let queuing = QueueLine {
        name: "nav",
        count: 0,
    };
    check_line(rt, alloc, queuing, "port nav queuing 0");
}

// rule: REP-3, REP-6
#[test]
fn ports_without_messages_have_a_line(rt: HostRuntime) {
    check_empty_port(&rt, rt.alloc());
}

fn check_busy_port(rt: &impl Abort, alloc: Global) {
    let mut text = Vec::new(alloc);
    add_line(&mut text, BusyLine { name: "pos" }).expect(rt, "memory");
    assert!(rt; text.as_slice() == b"port pos sampling busy\n".as_slice());
}

/// No run comes to this line, but for a reader beside a writer that is faster at each of its tries.
// rule: REP-4
#[test]
fn a_port_that_was_never_still_has_a_line(rt: HostRuntime) {
    check_busy_port(&rt, rt.alloc());
}

fn check_no_counts(rt: &impl Abort, alloc: Global) {
    let tally = VerdictTally::opening();
    let line = CountLine {
        vl: LinkNo(17),
        net: A,
        tally: &tally,
    };
    check_line(rt, alloc, line, "count 17 A 0 0 0 0 0 0 0 0 0 0 0 0 0");
    let line = FilteredCountLine {
        net: B,
        counts: [0; FILTER_CAUSES],
    };
    check_line(rt, alloc, line, "filtered B 0 0 0 0 0");
}

// rule: REP-8, REP-9
#[test]
fn counts_of_nothing_are_zeros(rt: HostRuntime) {
    check_no_counts(&rt, rt.alloc());
}

/// A line is added to a text that is as long as this, and so are words.
fn check_after(rt: &impl Abort, alloc: Global, length: usize) {
    let mut text = Vec::new(alloc);
    text.resize(length, b'.').expect(rt, "memory");
    add_words(&mut text, "count").expect(rt, "memory");
    add_line(&mut text, EmptyLine { name: "pos" }).expect(rt, "memory");
    assert!(rt; text.get(length..) == Some(b"countport pos sampling empty\n"));
}

// rule: OUT-1, OUT-2
#[test]
fn lines_are_added_to_a_text_of_a_million_bytes(rt: HostRuntime) {
    check_after(&rt, rt.alloc(), 1_000_000);
}
