//! Checks of what a document comes to.
use crate::configurations::read;
use es_base::LinkNo;
use std::alloc::Global;
use std::process::Abort;
use vl_config::{BUILT_IN, Config, ConfigFault};

/// The document has this fault, or none.
pub(crate) fn check_fault(
    rt: &impl Abort,
    alloc: Global,
    document: &str,
    fault: Option<ConfigFault>,
) {
    let answer = read(alloc, document).err();
    assert!(rt; answer == fault, "{document}");
}

/// The built-in configuration with `new` in place of each `old` has this fault, or none.
fn check_change(rt: &impl Abort, alloc: Global, old: &str, new: &str, fault: Option<ConfigFault>) {
    let document = BUILT_IN.replace(alloc, old, new).expect(rt, "memory");
    check_fault(rt, alloc, document.as_str(), fault);
}

/// A text of the built-in configuration, its replacement, and the fault of that document.
pub(crate) type Refused = (&'static str, &'static str, ConfigFault);

/// Each change has its fault.
pub(crate) fn check_refused(rt: &impl Abort, alloc: Global, rows: &[Refused]) {
    for (old, new, fault) in rows {
        check_change(rt, alloc, old, new, Some(*fault));
    }
}

/// A text of the built-in configuration, and its replacement.
pub(crate) type Taken = (&'static str, &'static str);

/// Each change is taken.
pub(crate) fn check_taken(rt: &impl Abort, alloc: Global, rows: &[Taken]) {
    for (old, new) in rows {
        check_change(rt, alloc, old, new, None);
    }
}

/// The link with this link number is at this place, or there is none.
pub(crate) fn check_place(rt: &impl Abort, config: &Config, vl: u16, place: Option<usize>) {
    assert!(rt; config.link_of(LinkNo(vl)) == place, "{vl}");
}
