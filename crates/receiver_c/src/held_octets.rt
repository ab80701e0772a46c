//! Address and number of octets in memory.
ghost use Rattle.std.specs.Prelude.{◌≡◌, length};
ghost use Rattle.receiver_c.specs.HeldOctets.{address};

/// Address and number of octets in memory of the library. C reads them, and neither writes nor frees them.
#[repr(C)]
#[derive(Drop)]
pub struct HeldOctets {
    pub at: *const u8,
    pub len: usize,
}

/// Address and number of these octets.
pub(crate) fn octets_at(octets: &[u8]) -> HeldOctets
    ensures { (result.at ≡ address octets.entry) × (result.len ≡ length octets.now) }
{
    HeldOctets {
        at: octets.as_ptr(),
        len: octets.len(),
    }
}
