//! The built-in configuration, and others that differ from it in little.
use std::alloc::Global;
use std::process::Abort;
use test_inputs::SECOND_LINK;
use vl_config::{BUILT_IN, Config, ConfigFault, read_config};

/// The configuration of this document, or its fault. It has no clause: a test doesn't need what each
/// document comes to.
pub(crate) fn read(alloc: Global, document: &str) -> Result<Config, ConfigFault> {
    read_config(alloc, document)
}

/// The configuration of this document.
pub(crate) fn config_of(rt: &impl Abort, alloc: Global, document: &str) -> Config {
    read(alloc, document).expect(rt, "a configuration")
}

/// The built-in configuration.
pub(crate) fn first(rt: &impl Abort, alloc: Global) -> Config {
    config_of(rt, alloc, BUILT_IN)
}

/// The document of the built-in configuration, which begins with this line.
pub(crate) fn with_first_line(rt: &impl Abort, alloc: Global, line: &str) -> String {
    format!(in alloc; "{line}\n{BUILT_IN}").expect(rt, "memory")
}

/// The document of the built-in configuration with more after it.
pub(crate) fn with_more(rt: &impl Abort, alloc: Global, more: &str) -> String {
    format!(in alloc; "{BUILT_IN}{more}").expect(rt, "memory")
}

/// The configuration of links 17 and 18.
pub(crate) fn both_links(rt: &impl Abort, alloc: Global) -> Config {
    config_of(rt, alloc, with_more(rt, alloc, SECOND_LINK).as_str())
}
