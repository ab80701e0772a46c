//! A message in its slot.
ghost use Rattle.std.specs.Prelude.{◌≡◌, ◌≤◌, length, take, drop};
ghost use Rattle.std.specs.Vec.{vec_capacity};

use crate::Taken;

/// A slot of a queue, with room for its longest message, which is reserved and not written before a message comes. It has
/// the message that was put there last.
#[derive(Drop)]
pub struct Slot {
    pub(crate) time: u64,
    pub(crate) lost: u64,
    pub(crate) octets: Vec<u8>,
}

/// Writes octets over the first ones of a slice.
fn write_over(out: &mut [u8], octets: &[u8])
    requires { length octets.now ≤ length out.old }
    ensures octets { take (length octets.now) out.new ≡ octets.now }
    ensures rest { drop (length octets.now) out.new ≡ drop (length octets.now) out.old }
    ensures len { length out.new ≡ length out.old }
{
    out[..octets.len()].copy_from_slice(octets);
}

impl Slot {
    /// Writes a message into it, in place of the one before. So many were lost right before it.
    pub(crate) fn write(&mut self, time: u64, octets: &[u8], lost: u64)
        requires { length octets.now ≤ vec_capacity self.old.octets }
        ensures time { self.new.time ≡ time }
        ensures lost { self.new.lost ≡ lost }
        ensures octets { self.new.octets.items ≡ octets.now }
        ensures room { vec_capacity self.old.octets ≤ vec_capacity self.new.octets }
    {
        self.time = time;
        self.lost = lost;
        self.octets.clear();
        self.octets.extend_from_slice(octets).unwrap();
    }

    /// Copies its message's octets to the beginning of `out`. It stays as it is.
    pub(crate) fn read(&mut self, out: &mut [u8]) -> Taken
        requires { length self.old.octets.items ≤ length out.old }
        ensures slot { self.new ≡ self.old }
        ensures time { result.time ≡ self.old.time }
        ensures lost { result.lost ≡ self.old.lost }
        ensures octets { take result.len out.new ≡ self.old.octets.items }
        ensures short { result.len ≤ length self.old.octets.items }
        ensures rest { drop result.len out.new ≡ drop result.len out.old }
        ensures len { length out.new ≡ length out.old }
    {
        write_over(out, &self.octets);
        Taken {
            time: self.time,
            len: self.octets.len(),
            lost: self.lost,
        }
    }
}
