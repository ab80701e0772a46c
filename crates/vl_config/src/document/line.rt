//! The line of a document's fault, or of a key that isn't its table's own.
ghost use Rattle.std.specs.Prelude.{◌≡◌, option_map};
ghost use Rattle.std.specs.List.{fold};
ghost use Rattle.std.specs.Str.Lines.{lines};
ghost use Rattle.vl_config.specs.Line.{after_line, bare, begins_with_word, gives, gives_wanted, heading_of, is_of_key, is_there, key_of_fault, key_of_line, line_at, line_in, line_of_octet, next, noted, passed, sought_at, start, step, step_octet, stray_line};

use crate::document::keys::{Level, is_own, level_at};
use crate::{ConfigFault, FaultPlace, Key};

/// Kind of a line's heading.
#[derive(Clone, Copy, Debug)]
enum Heading {
    /// `[[link]]`
    Link,
    /// `[[link.port]]`
    Port,
    /// Heading of another table.
    Other,
    /// No heading.
    Not,
}

/// The key whose line is sought.
#[derive(Clone, Copy)]
enum Wanted {
    /// This one.
    Key(Key),
    /// The first that isn't its table's own.
    Stray(Level),
}

/// Table of a line, and its key.
#[derive(Clone, Copy)]
struct Sought {
    /// Number of headings of links before its keys.
    links: u64,
    /// Number of headings of ports of that link before its keys.
    ports: u64,
    wanted: Wanted,
}

/// State of the search, line by line.
#[derive(Clone, Copy)]
struct Seen {
    /// Number of lines.
    lines: u64,
    /// Number of headings of links.
    links: u64,
    /// Number of headings of ports of the last of these links.
    ports: u64,
    /// Whether the last heading is that of another table.
    elsewhere: bool,
    /// The line of the sought key, or of the heading of its table; 0 if there was none.
    found: u64,
    /// Whether that line is the key's.
    is_key: bool,
}

/// Line of this fault, from 1: that of the key, or of the heading of its table; 0 if none is found. A search by lines,
/// which knows the headings `[[link]]` and `[[link.port]]` alone.
pub(crate) fn line_in(text: &str, fault: ConfigFault, place: FaultPlace) -> u64
    ensures { result ≡ line_in text.now fault place }
{
    line_at(text, place, Wanted::Key(key_of(fault, place)))
}

/// Line of the first key of the table at this place that isn't its own, from 1; or of the table's heading; 0 if none is
/// found. Keys in quotation marks aren't found, nor those of several parts.
pub(crate) fn stray_line(text: &str, place: FaultPlace) -> u64
    ensures { result ≡ stray_line text.now place }
{
    line_at(text, place, Wanted::Stray(level_at(place)))
}

fn line_at(text: &str, place: FaultPlace, wanted: Wanted) -> u64
    ensures { result ≡ line_at text.now place wanted }
{
    seen_of(text, sought_at(place, wanted)).found
}

fn seen_of(text: &str, sought: Sought) -> Seen
    ensures { result ≡ fold (step sought) (start sought) (lines text.now) }
{
    text.lines().fold(
        start(sought),
        |seen, line| -> Seen
            ensures { result ≡ step sought seen line.now }
        { step(sought, seen, line) },
    )
}

/// The line, from 1, of the octet at this place of a document.
pub(crate) fn line_of_octet(octets: &[u8], at: usize) -> u64
    ensures { result ≡ line_of_octet octets.now at }
{
    let at = at.min(octets.len());
    octets[..at].iter().fold(
        1,
        |line, octet| -> u64
            ensures { result ≡ step_octet line octet.now }
        { step_octet(line, *octet) },
    )
}

/// The line after an octet of this line.
fn step_octet(line: u64, octet: u8) -> u64
    ensures { result ≡ step_octet line octet }
{
    if octet == b'\n' {
        line.saturating_add(1)
    } else {
        line
    }
}

/// The next count. It saturates at 2^64 - 1.
fn next(count: u64) -> u64
    ensures { result ≡ next count }
{
    count.saturating_add(1)
}

/// Number of headings before the keys of the table at this place, if any.
fn passed(place: Option<usize>) -> u64
    ensures { result ≡ passed place }
{
    match place {
        None => 0,
        Some(place) => next(place as u64),
    }
}

fn sought_at(place: FaultPlace, wanted: Wanted) -> Sought
    ensures { result ≡ sought_at place wanted }
{
    Sought {
        links: passed(place.link),
        ports: passed(place.port),
        wanted,
    }
}

/// Key of a fault: for a value given twice, the value's; for too many entries, the list's.
fn key_of(fault: ConfigFault, place: FaultPlace) -> Key
    ensures { result ≡ key_of_fault fault place }
{
    match fault {
        ConfigFault::Missing(key) | ConfigFault::Kind(key) | ConfigFault::Range(key) => key,
        ConfigFault::DoubleLink => Key::Vl,
        ConfigFault::DoublePort => Key::Udp,
        ConfigFault::DoubleName => Key::Name,
        ConfigFault::TooMany => match place.link {
            None => Key::Link,
            Some(_) => Key::Port,
        },
        ConfigFault::Text | ConfigFault::Memory => Key::Link,
    }
}

/// The state before the first line. Keys outside of links are in the document's own table, which begins at line 1.
fn start(sought: Sought) -> Seen
    ensures { result ≡ start sought }
{
    Seen {
        lines: 0,
        links: 0,
        ports: 0,
        elsewhere: false,
        found: if sought.links == 0 { 1 } else { 0 },
        is_key: false,
    }
}

/// The state after one more line.
fn step(sought: Sought, seen: Seen, line: &str) -> Seen
    ensures { result ≡ step sought seen line.now }
{
    let heading = heading_of(line);
    let seen = after(heading, seen);
    if is_there(sought, seen) {
        noted(sought, seen, heading, line)
    } else {
        seen
    }
}

/// The state after a line of the sought table.
fn noted(sought: Sought, seen: Seen, heading: Heading, line: &str) -> Seen
    ensures { result ≡ noted sought seen heading line.now }
{
    match heading {
        Heading::Link | Heading::Port | Heading::Other => Seen {
            found: seen.lines,
            ..seen
        },
        Heading::Not => if gives_wanted(sought.wanted, line.as_bytes()) && !seen.is_key {
            Seen {
                found: seen.lines,
                is_key: true,
                ..seen
            }
        } else {
            seen
        },
    }
}

fn is_there(sought: Sought, seen: Seen) -> bool
    ensures { result ≡ is_there sought seen }
{
    !seen.elsewhere && seen.links == sought.links && seen.ports == sought.ports
}

fn after(heading: Heading, seen: Seen) -> Seen
    ensures { result ≡ after_line heading seen }
{
    let seen = Seen {
        lines: next(seen.lines),
        ..seen
    };
    match heading {
        Heading::Link => Seen {
            links: next(seen.links),
            ports: 0,
            elsewhere: false,
            ..seen
        },
        Heading::Port => Seen {
            ports: next(seen.ports),
            elsewhere: false,
            ..seen
        },
        Heading::Other => Seen {
            elsewhere: true,
            ..seen
        },
        Heading::Not => seen,
    }
}

fn heading_of(line: &str) -> Heading
    ensures { result ≡ heading_of line.now }
{
    if begins(line.as_bytes(), b"[[link.port]]") {
        Heading::Port
    } else if begins(line.as_bytes(), b"[[link]]") {
        Heading::Link
    } else if begins(line.as_bytes(), b"[") {
        Heading::Other
    } else {
        Heading::Not
    }
}

/// A line without white space before it.
fn bare(line: &[u8]) -> &[u8]
    ensures { result.now ≡ bare line.now }
{
    line.trim_ascii_start()
}

/// Whether a line begins with this word, after white space.
fn begins(line: &[u8], word: &[u8]) -> bool
    ensures { result ≡ begins_with_word line.now word.now }
{
    bare(line).starts_with(word)
}

/// Whether a line gives the value of a wanted key.
fn gives_wanted(wanted: Wanted, line: &[u8]) -> bool
    ensures { result ≡ gives_wanted wanted line.now }
{
    match wanted {
        Wanted::Key(key) => gives(line, key.name().as_bytes()),
        Wanted::Stray(level) => {
            let name = key_of_line(line);
            gives(line, name) && !is_own(level, name)
        }
    }
}

/// Whether a line gives the value of the key with this name.
fn gives(line: &[u8], name: &[u8]) -> bool
    ensures { result ≡ gives line.now name.now }
{
    begins(line, name) && begins(&bare(line)[name.len()..], b"=")
}

/// The bare key that a line begins with.
fn key_of_line(line: &[u8]) -> &[u8]
    ensures { result.now ≡ key_of_line line.now }
{
    let line = bare(line);
    let end = line.iter().position(|octet| !is_of_key(*octet));
    &line[..end.unwrap_or(line.len())]
}

/// Whether this is an octet of a bare key (TOML).
fn is_of_key(octet: u8) -> bool
    ensures { result ≡ is_of_key octet }
{
    octet.is_ascii_alphanumeric() || octet == b'_' || octet == b'-'
}
