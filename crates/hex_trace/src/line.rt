//! One line of a trace: a frame's time, a space and its octets; or a line that is skipped.
ghost use Rattle.std.specs.Prelude.{◌≡◌, ◌≤◌, ◌<◌, ◌+◌, ◌-◌, ◌*◌, ◌^◌, SomeIff, IfOk, IfErr, Ok, Err, length, take, true};
ghost use Rattle.std.specs.Option.{option_map};
ghost use Rattle.std.specs.Char.{is_ascii_digit};
ghost use Rattle.std.specs.List.{prefix_len};
ghost use Rattle.std.specs.Str.{all_ascii_digits};
ghost use Rattle.std.specs.Str.Parse.{digits_value};
ghost use Rattle.hex_trace.specs.Frames.{lent_as};
ghost use Rattle.hex_trace.specs.Line.{longest_line, time_digits, time_from, octets_of_digits, frame_from};

use crate::decode::decode_pairs;
use crate::{LentFrame, TraceCause};

/// The longest line of a trace, in bytes, without its end (own).
pub const LONGEST_LINE: usize = 8192;

/// A line that begins with this byte is skipped.
const COMMENT: u8 = b'#';

/// The byte between a line's time and its octets.
const SPACE: u8 = b' ';

/// A time that begins with this digit has no other.
const ZERO: u8 = b'0';

/// Any number of 19 decimal digits fits in 64 bits.
const SHORT_TIME: usize = 19;

/// Most octets of a line.
pub(crate) const MOST_OCTETS: usize = LONGEST_LINE / 2;

/// The frame of a line that follows one with a frame of the time `before`, in microseconds. None
/// if the line is skipped: it is empty, or begins with `COMMENT`. The octets are written to the front of `scratch`.
#[tactic(auto, unfolding(crate::specs::Line::frame_from))]
pub(crate) fn frame_from<'s>(
    before: u64,
    line: &[u8],
    scratch: &'s mut [u8; MOST_OCTETS],
) -> Result<Option<LentFrame<'s>>, TraceCause>
    ensures frame { IfOk result (λ frame. frame_from before line.now ≡ Ok (option_map lent_as frame)) }
    ensures cause { IfErr result (λ cause. frame_from before line.now ≡ Err cause) }
{
    if line.len() > LONGEST_LINE {
        return Err(TraceCause::LongLine);
    }
    if line.is_empty() || line[0] == COMMENT {
        return Ok(None);
    }
    let (time, count) = time_in(line)?;
    let Some((&SPACE, digits)) = line[count..].split_first() else {
        return Err(TraceCause::Space);
    };
    let octets = octets_from(digits, scratch)?;
    if time < before {
        return Err(TraceCause::Falls);
    }
    Ok(Some(LentFrame { time, octets }))
}

/// A line's time in microseconds, and its number of digits.
fn time_in(line: &[u8]) -> Result<(u64, usize), TraceCause>
    ensures time { IfOk result (λ said. (time_from (time_digits line.now) ≡ Ok said.0)
        × (length (time_digits line.now) ≡ said.1)) }
    ensures bound { IfOk result (λ said. said.1 ≤ length line.now) }
    ensures cause { IfErr result (λ cause. time_from (time_digits line.now) ≡ Err cause) }
{
    if line.first() == Some(&ZERO) {
        return Ok((0, 1));
    }
    let (time, count) = leading_number(line);
    if count == 0 {
        Err(TraceCause::Time)
    } else if count < SHORT_TIME {
        Ok((time, count))
    } else {
        long_time_in(line)
    }
}

/// The number that a line begins with, and its number of digits, `SHORT_TIME` at most.
fn leading_number(line: &[u8]) -> (u64, usize)
    ensures count { result.1 < 19 → result.1 ≡ prefix_len is_ascii_digit line.now }
    ensures number { result.0 ≡ digits_value 10 (take result.1 line.now) }
{
    let most = line.len().min(SHORT_TIME);
    let mut number = 0;
    'digits: for i in 0..most {
        let digit = line[i];
        if !digit.is_ascii_digit() {
            return (number, i);
        }
        number = 10 * number + u64::from(digit - b'0');
    }
    (number, most)
}

/// The same as `time_in`, digit after digit with a test whether it fits.
#[cold]
fn long_time_in(line: &[u8]) -> Result<(u64, usize), TraceCause>
    ensures time { IfOk result (λ said. (time_from (time_digits line.now) ≡ Ok said.0)
        × (length (time_digits line.now) ≡ said.1)) }
    ensures bound { IfOk result (λ said. said.1 ≤ length line.now) }
    ensures cause { IfErr result (λ cause. time_from (time_digits line.now) ≡ Err cause) }
{
    let digits = time_digits(line);
    Ok((time_from(digits)?, digits.len()))
}

/// The digits of a line's time. A first `ZERO` ends them.
fn time_digits(line: &[u8]) -> &[u8]
    ensures value { result.now ≡ time_digits line.now }
    ensures digits { all_ascii_digits result.now ≡ true }
{
    if line.first() == Some(&ZERO) {
        &line[..1]
    } else {
        &line[..leading_digits(line)]
    }
}

/// Number of digits that a line begins with.
fn leading_digits(line: &[u8]) -> usize
    ensures value { result ≡ prefix_len is_ascii_digit line.now }
    ensures bound { result ≤ length line.now }
{
    line.iter().take_while(|b| b.is_ascii_digit()).count()
}

/// The time of these digits, in microseconds.
fn time_from(digits: &[u8]) -> Result<u64, TraceCause>
    requires { all_ascii_digits digits.now ≡ true }
    ensures { result ≡ time_from digits.now }
{
    if digits.is_empty() {
        return Err(TraceCause::Time);
    }
    let mut time = 0;
    'digits: for digit in digits {
        match with_digit(time, *digit) {
            Some(longer) => time = longer,
            None => return Err(TraceCause::Time),
        }
    }
    Ok(time)
}

/// The number with one more digit after its last. None if it doesn't fit 64 bits.
fn with_digit(number: u64, digit: u8) -> Option<u64>
    requires low { 48 ≤ digit }
    ensures { SomeIff result (number * 10 + (digit - 48) < 2 ^ 64) (number * 10 + (digit - 48)) }
{
    let value = digit - b'0';
    number.checked_mul(10)?.checked_add(value as u64)
}

/// The octets of hexadecimal digits, written to the front of `scratch`.
fn octets_from<'s>(
    digits: &[u8],
    scratch: &'s mut [u8; MOST_OCTETS],
) -> Result<&'s [u8], TraceCause>
    requires { length digits.now ≤ longest_line }
    ensures octets { IfOk result (λ octets. octets_of_digits digits.now ≡ Ok octets.now) }
    ensures cause { IfErr result (λ cause. octets_of_digits digits.now ≡ Err cause) }
{
    if digits.len() % 2 == 1 {
        return Err(TraceCause::Hex);
    }
    let octets = &mut scratch[..digits.len() / 2];
    if decode_pairs(digits, octets) {
        Ok(octets)
    } else {
        Err(TraceCause::Hex)
    }
}
