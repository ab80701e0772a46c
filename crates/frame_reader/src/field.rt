//! Big-endian numbers at an offset.
ghost use Rattle.std.specs.Prelude.{◌≡◌, ◌+◌, ◌≤◌, length};
ghost use Rattle.es_base.specs.Octets.{u16_at, u32_at};

use byteorder::{BigEndian, ByteOrder};

/// The 16-bit number at an offset.
#[tactic(auto, unfolding(es_base::specs::Octets::u16_at))]
pub(crate) fn u16_at(octets: &[u8], offset: usize) -> u16
    requires { offset + 2 ≤ length octets.now }
    ensures { result ≡ u16_at offset octets.now }
{
    BigEndian::read_u16(&octets[offset..])
}

/// The 32-bit number at an offset.
#[tactic(auto, unfolding(es_base::specs::Octets::u32_at))]
pub(crate) fn u32_at(octets: &[u8], offset: usize) -> u32
    requires { offset + 4 ≤ length octets.now }
    ensures { result ≡ u32_at offset octets.now }
{
    BigEndian::read_u32(&octets[offset..])
}
