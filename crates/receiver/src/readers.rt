//! Numbers of readers of sampling ports.
ghost use Rattle.std.specs.Prelude.{◌≡◌, ℕ};
ghost use Rattle.es_base.specs.Port.{Port};

use es_base::PortSettings;
use mailbox_port::ReaderCount;

/// Number of readers for each sampling port of a configuration (own). A `ReaderCount` is the same number for all.
pub trait Readers {
    /// Number of readers of the port with these settings.
    ghost count: { Self → Port → ℕ };

    /// Number of readers of the port with these settings.
    fn of(&self, port: &PortSettings) -> ReaderCount
        ensures { result ≡ count self.now port.now };
}

impl Readers for ReaderCount {
    ghost count = { λ readers port. readers };

    fn of(&self, _port: &PortSettings) -> ReaderCount {
        *self
    }
}
