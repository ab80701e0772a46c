//! The payload of a forwarded frame.
use es_base::{PortKind, PortNo};

/// A payload for a port. Its octets aren't here: those of fragments are joined only once the frame is
/// taken.
#[derive(Clone, Copy)]
pub(crate) struct Payload {
    pub port: PortNo,
    pub kind: PortKind,
    /// Its length, in octets.
    pub len: usize,
}
