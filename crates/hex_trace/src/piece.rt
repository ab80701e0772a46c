//! Reading a source piece by piece.
ghost use Rattle.std.specs.Prelude.{◌≡◌, ◌≤◌, ◌<◌, ◌+◌, ◌||◌, IfOk, OnOk, false, is_err, length, take, drop};
ghost use Rattle.std.specs.Io.KnownBytes.{ReadConsumes};
ghost use Rattle.hex_trace.specs.Source.{ReadsMore};

use crate::{Failed, Source, TraceFault};
use es_base::Memory;

/// Bytes by which the text grows.
const PIECE: usize = 65_536;

/// Reads some bytes of a source to the place after the first `filled` of a text, and returns their
/// number. If there is no room the text grows.
pub(crate) fn read_more<S: Source>(
    source: &mut S,
    text: &mut Vec<u8>,
    filled: usize,
) -> Result<usize, TraceFault>
    requires flag { S.has_failed source.old ≡ false }
    requires within { filled ≤ length text.old.items }
    ensures bytes { ReadsMore (S.remaining source.old) (S.remaining source.new) (S.has_failed source.new)
        (take filled text.old.items) (λ count. take (filled + count) text.new.items) result }
    ensures within { IfOk result (λ count. filled + count ≤ length text.new.items) }
{
    make_room(text, filled)?;
    match read_after(source, text, filled) {
        Ok(count) => Ok(count),
        Err(_) => Err(TraceFault::Read),
    }
}

/// Makes room after the first `filled` bytes of a text, if there is none.
fn make_room(text: &mut Vec<u8>, filled: usize) -> Result<(), Memory>
    requires { filled ≤ length text.old.items }
    ensures front { OnOk result (take filled text.new.items ≡ take filled text.old.items) }
    ensures room { OnOk result (filled < length text.new.items) }
{
    if filled == text.len() {
        text.resize(filled + PIECE, 0)?;
    }
    Ok(())
}

/// Reads some bytes to the place after the first `filled` of a text, and returns their number.
fn read_after<S: Source>(source: &mut S, text: &mut [u8], filled: usize) -> Result<usize, Failed>
    requires { filled ≤ length text.old }
    ensures front { take filled text.new ≡ take filled text.old }
    ensures whole { length text.new ≡ length text.old }
    ensures count { IfOk result (λ count. filled + count ≤ length text.new) }
    ensures bytes { ReadConsumes (S.remaining source.old) (S.remaining source.new) result (drop filled text.new) }
    ensures flag { S.has_failed source.new ≡ (S.has_failed source.old || is_err result) }
{
    source.read(&mut text[filled..])
}
