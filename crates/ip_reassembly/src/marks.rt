//! Marks, one for each octet of a datagram: whether it came. There is one for each octet and not for each block of 8,
//! since a last piece may end within a block (own).
ghost use Rattle.std.specs.Prelude.{◌≡◌, ◌-◌, ◌≤◌, ◌++◌, false, true, length, take, drop, replicate, IfOk};
ghost use Rattle.ip_reassembly.specs.Runs.{ReceivedWithin};

use es_base::Memory;
use std::alloc::Global;

/// Unset marks, one for each place.
pub(crate) fn unset(alloc: Global, places: usize) -> Result<Vec<bool>, Memory>
    ensures { IfOk result (λ marks. marks.items ≡ replicate places false) }
{
    Vec::from_elem(alloc, false, places)
}

/// Sets all of these marks, or none.
pub(crate) fn set_all(marks: &mut [bool], to: bool)
    ensures { marks.new ≡ replicate (length marks.old) to }
{
    marks.fill(to);
}

/// Unsets all marks, of which those that are set lie from `least` up to `reach`.
pub(crate) fn unset_all(marks: &mut Vec<bool>, least: usize, reach: usize)
    requires within { reach ≤ length marks.old.items }
    requires stretch { ReceivedWithin marks.old.items least reach }
    ensures { marks.new.items ≡ replicate (length marks.old.items) false }
{
    if least < reach {
        set_all(&mut marks[least..reach], false);
    }
}

/// Sets the marks from `offset` up to `end`.
pub(crate) fn mark(marks: &mut Vec<bool>, offset: usize, end: usize)
    requires order { offset ≤ end }
    requires within { end ≤ length marks.old.items }
    ensures { marks.new.items
        ≡ take offset marks.old.items ++ (replicate (end - offset) true ++ drop end marks.old.items) }
{
    set_all(&mut marks[offset..end], true);
}
