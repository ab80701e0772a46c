//! Octets turned into hexadecimal digits, 16 at a time.
ghost use Rattle.std.specs.Prelude.{◌≡◌, ◌+◌, ◌*◌, ◌<◌, ◌≤◌, map, take, slice_index, length};
ghost use Rattle.std.specs.Simd.Lanes.{Each1};
ghost use Rattle.hex.specs.Hex.{encode_lower, lower_digits};

use std::simd::prelude::*;

/// Octets that are turned into digits at a time.
const BLOCK: usize = 16;

/// Turns octets into digits of lower case, two for each.
pub fn encode_digits(octets: &[u8], digits: &mut [u8])
    requires { length digits.old ≡ 2 * length octets.now }
    ensures { digits.new ≡ encode_lower octets.now }
{
    if octets.len() < BLOCK {
        hex::encode_to_slice(octets, digits).unwrap();
    } else {
        encode_blocks(octets, digits);
    }
}

/// Turns a block of octets or more into digits. The last block ends where the octets do. It may overlap
/// the one before it, and then writes some digits again.
fn encode_blocks(octets: &[u8], digits: &mut [u8])
    requires pairs { length digits.old ≡ 2 * length octets.now }
    requires block { 16 ≤ length octets.now }
    ensures { digits.new ≡ encode_lower octets.now }
{
    'whole: for block in 0..(octets.len() - 1) / BLOCK {
        encode_block(octets, digits, BLOCK * block);
    }
    encode_block(octets, digits, octets.len() - BLOCK);
}

/// Turns the block of octets that begins at `at` into digits.
#[inline(always)]
fn encode_block(octets: &[u8], digits: &mut [u8], at: usize)
    requires pairs { length digits.old ≡ 2 * length octets.now }
    requires block { at + 16 ≤ length octets.now }
    ensures digits { take (2 * at) digits.old ≡ encode_lower (take at octets.now)
        → take (2 * (at + 16)) digits.new ≡ encode_lower (take (at + 16) octets.now) }
    ensures length { length digits.new ≡ length digits.old }
{
    let block = u8x16::from_slice(&octets[at..]);
    let high = digits_of(block >> u8x16::splat(4));
    let low = digits_of(block & u8x16::splat(15));
    let (first, second) = high.interleave(low);
    first.copy_to_slice(&mut digits[2 * at..]);
    second.copy_to_slice(&mut digits[2 * at + BLOCK..]);
}

/// The digit of each value.
#[inline(always)]
fn digits_of(values: u8x16) -> u8x16
    requires { Each1 (λ value. value < 16) values }
    ensures { result ≡ map (λ value. slice_index lower_digits value) values }
{
    let are_letters = values.simd_gt(u8x16::splat(9));
    values + are_letters.select(u8x16::splat(b'a' - 10), u8x16::splat(b'0'))
}
