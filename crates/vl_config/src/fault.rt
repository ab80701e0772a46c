//! Keys and faults of a document.
ghost use Rattle.std.specs.Prelude.{◌≡◌, Some};
ghost use Rattle.vl_config.specs.Fault.{key_name};
ghost use Rattle.vl_config.specs.declared.fault.ConfigFault.TheVariants as faults;

use es_base::Memory;
use std::alloc::AllocFailed;
use std::fmt;
use thiserror::Error;

/// A key of the document.
#[derive(Clone, Copy, Debug, Drop, PartialEq, Eq)]
pub enum Key {
    Constant,
    Link,
    Vl,
    SkewMaxUs,
    Redundancy,
    ReassemblyUs,
    Window,
    Port,
    Name,
    Kind,
    Address,
    Udp,
    Max,
    RefreshUs,
    Depth,
    /// Of a table alone.
    Readers,
}

impl Key {
    /// The key as it is spelled in the document.
    pub fn name(self) -> &'static str
        ensures { result.now ≡ key_name self }
    {
        match self {
            Key::Constant => "constant",
            Key::Link => "link",
            Key::Vl => "vl",
            Key::SkewMaxUs => "skew_max_us",
            Key::Redundancy => "redundancy",
            Key::ReassemblyUs => "reassembly_us",
            Key::Window => "window",
            Key::Port => "port",
            Key::Name => "name",
            Key::Kind => "kind",
            Key::Address => "address",
            Key::Udp => "udp",
            Key::Max => "max",
            Key::RefreshUs => "refresh_us",
            Key::Depth => "depth",
            Key::Readers => "readers",
        }
    }
}

impl fmt::Display for Key {
    ghost output = { λ key. Some (key_name key) };

    fn fmt<W: fmt::Write>(&self, f: &mut fmt::Formatter<W>) -> fmt::Result {
        f.write_str(self.name())
    }
}

/// The first fault of a document, in the order in which its keys are tested.
#[derive(Clone, Copy, Debug, Drop, Error, PartialEq, Eq)]
pub enum ConfigFault {
    /// The text is no TOML document.
    #[error("not TOML")]
    Text,
    /// A key without a default is missing.
    #[error("missing {0}")]
    Missing(Key),
    /// The value of a key has another kind, as a text in place of an integer.
    #[error("wrong kind of {0}")]
    Kind(Key),
    /// The value of a key is outside its range.
    #[error("{0} out of range")]
    Range(Key),
    /// Two links have one link number.
    #[error("link given twice")]
    DoubleLink,
    /// Two ports of a link have one address and UDP port.
    #[error("port given twice")]
    DoublePort,
    /// Two ports of the document have one name.
    #[error("name given twice")]
    DoubleName,
    /// There are more than 64 links, or more than 32 ports at a link.
    #[error("too many links or ports")]
    TooMany,
    /// Memory ran out.
    #[error("out of memory")]
    Memory,
}

impl From<Memory> for ConfigFault {
    ghost from_gives = { λ _ fault. fault ≡ faults.Memory };

    fn from(_memory: Memory) -> ConfigFault {
        ConfigFault::Memory
    }
}

impl<T: Drop> From<AllocFailed<T>> for ConfigFault {
    ghost from_gives = { λ _ fault. fault ≡ faults.Memory };

    fn from(_refused: AllocFailed<T>) -> ConfigFault {
        ConfigFault::Memory
    }
}
