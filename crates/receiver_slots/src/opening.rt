//! What an opening is asked for.

pub(crate) mod checking;
pub(crate) mod port_readers;
pub(crate) mod wanted;
