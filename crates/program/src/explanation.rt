//! Explanation of a configuration's fault: its line, and what its key may have.
ghost use Rattle.std.specs.Prelude.{◌≡◌, Some};
ghost use Rattle.program.specs.Explanation.{allowed_of, explanation_text, named_key};

use std::fmt;
use vl_config::{ConfigFault, Key};

/// A configuration's fault, and its line.
#[derive(Clone, Copy, Debug, Drop)]
pub struct Explanation {
    pub fault: ConfigFault,
    /// Line in the configuration's file, from 1; 0 if none is found.
    pub line: u64,
}

impl fmt::Display for Explanation {
    ghost output = { λ explanation. Some (explanation_text explanation) };

    fn fmt<W: fmt::Write>(&self, f: &mut fmt::Formatter<W>) -> fmt::Result {
        match self.line {
            0 => f.write_str("config: line not found")?,
            line => write!(f, "config: line {line}")?,
        }
        match named_key(self.fault) {
            Some(key) => write!(f, ": allowed is {}", allowed_of(key)),
            None => Ok(()),
        }
    }
}

/// The key that a fault names. None if it names none.
fn named_key(fault: ConfigFault) -> Option<Key>
    ensures { result ≡ named_key fault }
{
    match fault {
        ConfigFault::Missing(key) | ConfigFault::Kind(key) | ConfigFault::Range(key) => Some(key),
        _ => None,
    }
}

/// Values that a key may have, in words.
fn allowed_of(key: Key) -> &'static str
    ensures { result.now ≡ allowed_of key }
{
    match key {
        Key::Constant => "a string of 8 hexadecimal digits",
        Key::Link => "1 to 64 tables",
        Key::Vl => "an integer from 0 to 65535",
        Key::SkewMaxUs => "an integer from 0 to 1000000",
        Key::Redundancy => "true or false",
        Key::ReassemblyUs => "an integer from 0 to 10000000",
        Key::Window => "an integer from 1 to 4",
        Key::Port => "0 to 32 tables",
        Key::Name => "a string of 1 to 16 of a-z 0-9 _ -",
        Key::Kind => "\"sampling\" or \"queuing\"",
        Key::Address => "a string of four numbers from 0 to 255 with dots between them",
        Key::Udp => "an integer from 0 to 65535",
        Key::Max => "an integer from 0 to 1471 of a sampling port, 8192 of a queuing port",
        Key::RefreshUs => "an integer from 0 to 1000000000",
        Key::Depth => "an integer from 1 to 64",
        Key::Readers => "an integer from 0 to 8",
    }
}
