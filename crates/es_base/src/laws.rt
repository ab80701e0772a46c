//! What holds of every count.
ghost use Rattle.std.specs.Prelude.{◌≡◌, ◌<◌, ◌-◌, ◌^◌, ◌∷◌, List, Err, Ok, length};
ghost use Rattle.es_base.specs.declared.fault.FilterCause.{FilterCause};
ghost use Rattle.es_base.specs.declared.event.Arrival.{Arrival};
ghost use Rattle.es_base.specs.declared.event.Event.{Event};
ghost use Rattle.es_base.specs.Settings.{Settings};
ghost use Rattle.es_base.specs.Config.{Configuration};
ghost use Rattle.es_base.specs.Addressing.{addressed_link};
ghost use Rattle.es_base.specs.FilterTally.{HasFiltered, cause_kind};
ghost use Rattle.es_base.specs.Limits.{filter_causes};
ghost use Rattle.es_base.specs.Tally.{AddsOne, Counts, HasCounts};
ghost use Rattle.es_base.specs.Verdict.{kind_of, verdict_kinds};

/// A tally with one more of an event's kind counts the event. No count saturates while the number of all events fits in
/// 64 bits.
pub fn an_event_is_counted_once()
    ensures { (old new : Counts) (past : List Event) (e : Event) → HasCounts old past → length past < 2 ^ 64 - 1
        → AddsOne verdict_kinds old new e.net (kind_of e.verdict) → HasCounts new (e ∷ past) }
{}

/// A tally of filtered frames with one more of a frame's cause counts the frame.
pub fn a_filtered_frame_is_counted_once()
    ensures { (old new : Counts) (c : Configuration) (earlier : List Arrival) (a : Arrival) (cause : FilterCause) → HasFiltered old c earlier
        → addressed_link c a.frame ≡ Err cause → AddsOne filter_causes old new a.net (cause_kind cause) → HasFiltered new c (a ∷ earlier) }
{}

/// A frame that comes to a link leaves the counts of filtered frames as they are.
pub fn a_frame_of_a_link_is_not_filtered()
    ensures { (counts : Counts) (c : Configuration) (earlier : List Arrival) (a : Arrival) (link : Settings) → HasFiltered counts c earlier
        → addressed_link c a.frame ≡ Ok link → HasFiltered counts c (a ∷ earlier) }
{}
