//! Long runs of hexadecimal digits, decoded 32 at a time, without a branch for each.
ghost use Rattle.std.specs.Prelude.{◌≡◌, ℕ, ◌+◌, ◌-◌, ◌*◌, ◌%◌, ◌<◌, ◌≤◌, ◌⊎◌, ◌↔◌, slice_index, IfOk, IfErr, Ok, Err, MatchResult, true, false, length};
ghost use Rattle.hex.specs.Hex.{decode_of};
ghost use Rattle.hex.specs.declared.error.FromHexError.TheVariants.{OddLength, OutOfMemory};
ghost use Rattle.hex_trace.specs.Digits.{digit_value, octet_of_pair, octet_by, least_mark, IsPairAt, IsMark, AreMarks};

use hex::FromHexError;
use std::alloc::Global;
use std::simd::prelude::*;

/// Octets that are decoded at a time, of 32 digits.
const BLOCK: usize = 16;

/// Offset of marks: a digit's mark is its value plus this; any other byte's is less than this.
const MARK: u8 = 0xf0;

/// The bit by which a letter of lower case differs from that of upper case.
const CASE: u8 = b'a' - b'A';

/// Value of a byte that is no digit.
const NO_DIGIT: u8 = 255;

/// The octets of hexadecimal digits of either case, as `hex::decode` returns them, several times as fast
/// if all are digits.
///
/// If a byte is no digit, or the number of digits is odd, the error is that of `hex`.
///
/// ```rust
/// let decoded = decode_digits(alloc, digits).expect(rt, "octets");
/// assert!(rt; decoded.as_slice() == octets, "{digits:?}");
/// ```
pub fn decode_digits(alloc: Global, digits: &[u8]) -> Result<Vec<u8>, FromHexError>
    ensures ok { IfOk result (λ octets. decode_of digits.now ≡ Ok octets.items) }
    ensures err { IfErr result (λ error. (error ≡ OutOfMemory) ⊎ (decode_of digits.now ≡ Err error)) }
    ensures odd { length digits.now % 2 ≡ 1 → result ≡ Err OddLength }
{
    if digits.len() % 2 == 0 {
        let mut octets = vec![in alloc; 0u8; digits.len() / 2]?;
        if decode_pairs(digits, &mut octets) {
            return Ok(octets);
        }
    }
    hex::decode(alloc, digits)
}

/// Decodes pairs of digits, and returns whether all were digits. If one wasn't, the octets mean nothing.
///
/// The function isn't inlined, and its loops have no early return, so that the longer one becomes one
/// short run of vector code.
#[inline(never)]
pub(crate) fn decode_pairs(digits: &[u8], octets: &mut [u8]) -> bool
    requires { length digits.now ≡ 2 * length octets.old }
    ensures { MatchResult (decode_of digits.now)
        (λ said. (result ≡ true) × (octets.new ≡ said))
        (λ _. result ≡ false) }
{
    if octets.len() < BLOCK {
        decode_few(digits, octets)
    } else {
        decode_blocks(digits, octets)
    }
}

/// The same for a block of octets or more. The last block ends where the octets do. It may overlap the
/// one before it, and then writes some octets again.
#[inline(always)]
fn decode_blocks(digits: &[u8], octets: &mut [u8]) -> bool
    requires pairs { length digits.now ≡ 2 * length octets.old }
    requires block { 16 ≤ length octets.old }
    ensures { MatchResult (decode_of digits.now)
        (λ said. (result ≡ true) × (octets.new ≡ said))
        (λ _. result ≡ false) }
{
    let mut least = u8x32::splat(MARK);
    'whole: for block in 0..(octets.len() - 1) / BLOCK {
        let marks = decode_block(digits, octets, BLOCK * block);
        least = smaller(least, marks);
    }
    let last = octets.len() - BLOCK;
    let marks = decode_block(digits, octets, last);
    let least = smaller(least, marks);
    // All are marks of digits.
    least.simd_lt(u8x32::splat(MARK)).to_bitmask() == 0
}

/// Decodes the block of octets that begins at `at`, and returns the marks of its digits.
#[inline(always)]
fn decode_block(digits: &[u8], octets: &mut [u8], at: usize) -> u8x32
    requires pairs { length digits.now ≡ 2 * length octets.old }
    requires block { at + 16 ≤ length octets.old }
    ensures marks { AreMarks result ↔ ((i : ℕ) → at ≤ i → i < at + 16 → IsPairAt digits.now i) }
    ensures octets { (i : ℕ) → at ≤ i → i < at + 16 → IsPairAt digits.now i
        → slice_index octets.new i ≡ octet_of_pair digits.now i }
    ensures before { (i : ℕ) → i < at → slice_index octets.new i ≡ slice_index octets.old i }
    ensures length { length octets.new ≡ length octets.old }
{
    let marks = marks_of(u8x32::from_slice(&digits[2 * at..]));
    octets_of(marks).copy_to_slice(&mut octets[at..]);
    marks
}

/// The mark of each byte.
#[inline(always)]
fn marks_of(digits: u8x32) -> u8x32
    ensures length { length result ≡ 32 }
    ensures marks { (i : ℕ) → i < 32 → IsMark (slice_index digits i) (slice_index result i) }
{
    // A byte after `9` gives 0 and more, and one before `0` less than `MARK`.
    let from_end = digits + u8x32::splat(u8::MAX - b'9');
    let decimal = from_end.saturating_sub(u8x32::splat(u8::MAX - (MARK + 9)));
    // One is taken off first: else the byte before `A` would give the mark of 9.
    let letter = (digits - u8x32::splat(1)) & u8x32::splat(!CASE);
    decimal.simd_max(letter + u8x32::splat(MARK + 10 - (b'A' - 1)))
}

/// The octets of the marks of pairs of digits.
///
/// A pair is a number of 16 bits, whose upper half is the mark of the second digit. The value of the
/// first is added to the upper four bits of that half, which then is too large by `MARK`.
#[inline(always)]
fn octets_of(marks: u8x32) -> u8x16
    ensures length { length result ≡ 16 }
    ensures octets { (i : ℕ) → i < 16
        → least_mark ≤ slice_index marks (2 * i) → least_mark ≤ slice_index marks (2 * i + 1)
        → slice_index result i ≡ octet_by marks i }
{
    let pairs = u16x16::from_le_bytes(marks);
    let sums = pairs + (pairs << 12);
    (sums >> 8).cast::<u8>() - u8x16::splat(MARK)
}

/// The smaller one of each two marks.
#[inline(always)]
fn smaller(first: u8x32, second: u8x32) -> u8x32
    ensures { AreMarks result ↔ (AreMarks first × AreMarks second) }
{
    first.simd_min(second)
}

/// The same for few octets, a pair at a time.
fn decode_few(digits: &[u8], octets: &mut [u8]) -> bool
    requires { length digits.now ≡ 2 * length octets.old }
    ensures { MatchResult (decode_of digits.now)
        (λ said. (result ≡ true) × (octets.new ≡ said))
        (λ _. result ≡ false) }
{
    let (pairs, _) = digits.as_chunks::<2>();
    let mut rest = pairs.iter();
    let mut are_digits = true;
    'pairs: for octet in octets.iter_mut() {
        let Some(pair) = rest.next() else { break };
        let high = digit_value(pair[0]);
        let low = digit_value(pair[1]);
        are_digits = are_digits & (high < 16) & (low < 16);
        *octet = high.wrapping_mul(16).wrapping_add(low);
    }
    are_digits
}

/// The value of a digit, 0 to 15; `NO_DIGIT` of another byte.
#[inline(always)]
fn digit_value(b: u8) -> u8
    ensures { result ≡ digit_value b }
{
    let decimal = b.wrapping_sub(b'0');
    let letter = (b | CASE).wrapping_sub(b'a');
    if decimal < 10 {
        decimal
    } else if letter < 6 {
        letter + 10
    } else {
        NO_DIGIT
    }
}
