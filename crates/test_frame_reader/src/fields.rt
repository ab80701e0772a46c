//! The value of a field.
use std::process::Abort;

/// The field of this name has this value.
pub(crate) fn check_field(rt: &impl Abort, name: &str, value: u64, wanted: u64) {
    assert!(rt; value == wanted, "{name}: {value}");
}
