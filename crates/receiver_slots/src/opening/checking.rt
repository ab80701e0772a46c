//! A text whose keys are all their tables' own.
ghost use Rattle.std.specs.Prelude.{◌≡◌, ◌≤◌, ◌⊎◌, ◌<◌};
ghost use Rattle.receiver_slots.specs.Checking.{HasStray, IsWithoutStray};
ghost use Rattle.receiver_slots.specs.Codes.{done, faulty, no_memory, stray_key};
ghost use Rattle.receiver_slots.specs.Receiving.{HasFault};

use crate::codes::{DONE, FAULTY, NO_MEMORY, STRAY_KEY};
use crate::opening::wanted::told_of;
use crate::told::replies::{FaultReply, stray_reply_of};
use std::alloc::Global;
use vl_config::{ConfigFault, read_octets, stray_in_octets};

/// Reads the configuration in these octets, a TOML document, and opens nothing. FAULTY, and its first fault, as an
/// opening tells it. STRAY_KEY, and the first table with a key that isn't its own, if that is all that is wrong: an
/// opening ignores such keys. All memory that is taken is given back.
pub fn check_text(alloc: Global, text: &[u8], fault: &mut FaultReply) -> u32
    ensures done { result ≡ done → IsWithoutStray text.now }
    ensures fault { result ≡ faulty → HasFault text.now fault.new }
    ensures stray { result ≡ stray_key → HasStray text.now fault.new }
    ensures same { (result ≡ done) ⊎ (result ≡ no_memory) → fault.new ≡ fault.old }
    ensures codes { (result ≡ done) ⊎ ((result ≡ faulty) ⊎ ((result ≡ no_memory) ⊎ (result ≡ stray_key))) }
{
    match read_octets(alloc, text) {
        Ok(_) => {}
        Err(ConfigFault::Memory) => return NO_MEMORY,
        Err(found) => {
            let Ok(told) = told_of(alloc, text, found) else {
                return NO_MEMORY;
            };
            *fault = told;
            return FAULTY;
        }
    }
    match stray_in_octets(alloc, text) {
        Ok(None) => DONE,
        Ok(Some(stray)) => {
            *fault = stray_reply_of(stray);
            STRAY_KEY
        }
        Err(_) => NO_MEMORY,
    }
}
