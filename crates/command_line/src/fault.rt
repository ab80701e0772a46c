//! Faults of command lines.
ghost use Rattle.std.specs.Prelude.{◌≡◌};
ghost use Rattle.command_line.specs.declared.fault.LineFault.TheVariants as faults;

use clap::Error;
use std::alloc::AllocError;

/// Fault of a command line. The texts are those that `clap` writes for the user.
#[derive(Debug, Drop)]
pub enum LineFault {
    /// `--help` or `--version` was given: the text of the help, or the version.
    Shown(Error),
    /// The words are no command line of the program: the text gives the reason.
    Refused(Error),
    /// Memory ran out.
    Memory,
}

impl From<AllocError> for LineFault {
    ghost from_gives = { λ _ fault. fault ≡ faults.Memory };

    fn from(_error: AllocError) -> LineFault {
        LineFault::Memory
    }
}
