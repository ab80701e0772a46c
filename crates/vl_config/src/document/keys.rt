//! The keys of each kind of table.
ghost use Rattle.std.specs.Prelude.{◌≡◌, map};
ghost use Rattle.vl_config.specs.Keys.{is_own, level_at, read_keys, tool_keys};

use crate::{FaultPlace, Key};

/// The kinds of tables.
#[derive(Clone, Copy, Debug)]
pub(crate) enum Level {
    /// The document's own table.
    Document,
    Link,
    Port,
}

/// The kind of the table at this place.
pub(crate) fn level_at(place: FaultPlace) -> Level
    ensures { result ≡ level_at place }
{
    match (place.link, place.port) {
        (None, _) => Level::Document,
        (Some(_), None) => Level::Link,
        (Some(_), Some(_)) => Level::Port,
    }
}

/// Whether a key is one of its table's own.
pub(crate) fn is_own(level: Level, name: &[u8]) -> bool
    ensures { result ≡ is_own level name.now }
{
    read_keys(level)
        .iter()
        .any(|key| name == key.name().as_bytes())
        || tool_keys(level).iter().any(|key| name == key.as_bytes())
}

/// The keys that the receiver reads.
fn read_keys(level: Level) -> &'static [Key]
    ensures { result.now ≡ read_keys level }
{
    match level {
        Level::Document => &[Key::Constant, Key::Link],
        Level::Link => &[
            Key::Vl,
            Key::SkewMaxUs,
            Key::Redundancy,
            Key::ReassemblyUs,
            Key::Window,
            Key::Port,
        ],
        Level::Port => &[
            Key::Name,
            Key::Kind,
            Key::Address,
            Key::Udp,
            Key::Max,
            Key::RefreshUs,
            Key::Depth,
        ],
    }
}

/// The keys that the tools read beside these.
fn tool_keys(level: Level) -> &'static [&'static str]
    ensures { map (λ key. key.now) result.now ≡ tool_keys level }
{
    match level {
        Level::Document => &[],
        Level::Link => &["name", "not_one_sender", "bag_us", "jitter_us"],
        Level::Port => &["read_us", "take_us", "readers"],
    }
}
