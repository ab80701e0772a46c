//! A list of events from the opening on.
ghost use Rattle.std.specs.Prelude.{IfErr, IfOk};
ghost use Rattle.slot_core.specs.Limits.{port_readers, port_slots};
ghost use Rattle.slot_core.specs.Runs.{IsFirstRefused, LeadTo};

use crate::{Core, CoreEvent, StepRefusal};
use std::alloc::Global;

/// The core after these events, from the opening on. The error is the index of the first refused event,
/// and its refusal.
///
/// ```rust
/// Ok(run(alloc, steps)?.latest())
/// ..
/// let outcome = outcome_of(alloc, steps);
/// assert!(rt; outcome == wanted, "{outcome:?}");
/// ```
pub fn run(alloc: Global, events: &[CoreEvent]) -> Result<Core, (usize, StepRefusal)>
    ensures core { IfOk result (λ core. LeadTo port_readers port_slots events.now core) }
    ensures refused { IfErr result (λ refused. IsFirstRefused port_readers port_slots events.now refused.0 refused.1) }
{
    let mut core = Core::opening(alloc);
    for (place, event) in events.iter().enumerate() {
        if let Err(refusal) = core.step(alloc, event) {
            return Err((place, refusal));
        }
    }
    Ok(core)
}
