//! What holds of every past.
ghost use Rattle.std.specs.Prelude.{◌≡◌, ◌++◌, Bool, List, drop};
ghost use Rattle.es_base.specs.declared.place.PortNo.{PortNo};
ghost use Rattle.es_base.specs.declared.event.Arrival.{Arrival};
ghost use Rattle.es_base.specs.declared.event.Event.{Event};
ghost use Rattle.es_base.specs.Settings.{Settings};
ghost use Rattle.link_rules.specs.Run.{IsRun, verdict_of};
ghost use Rattle.link_rules.specs.Left.{left_by};
ghost use Rattle.link_rules.specs.Deliveries.{deliveries, number_delivered};

/// The rules read a past only by its summary (`Left`): pasts with equal summaries have equal ones after the same
/// further events.
pub fn what_is_left_goes_on()
    ensures { (settings : Settings) (one two later : List Event) → left_by settings one ≡ left_by settings two →
        left_by settings (later ++ one) ≡ left_by settings (later ++ two) }
{}

/// Pasts with equal summaries give each frame the same verdict.
pub fn verdicts_need_what_is_left()
    ensures { (settings : Settings) (one two : List Event) → left_by settings one ≡ left_by settings two →
        (a : Arrival) (room : Bool) → verdict_of settings one a room ≡ verdict_of settings two a room }
{}

/// Of pasts with equal summaries, events that are a run after one are a run after the other.
pub fn runs_alike()
    ensures { (settings : Settings) (one two later : List Event) → left_by settings one ≡ left_by settings two → IsRun settings two →
        IsRun settings (later ++ one) → IsRun settings (later ++ two) }
{}

/// Each beginning of a run is a run.
pub fn a_run_begins_with_a_run()
    ensures { (settings : Settings) (earlier later : List Event) → IsRun settings (later ++ earlier) → IsRun settings earlier }
{}

/// A port's deliveries only grow: later events add messages at the end.
pub fn deliveries_go_on()
    ensures { (settings : Settings) (earlier later : List Event) (port : PortNo) →
        deliveries settings (later ++ earlier) port ≡ deliveries settings earlier port ++ drop (number_delivered settings earlier port) (deliveries settings (later ++ earlier) port) }
{}

/// The messages that later events add to a port's follow from the summary before them.
pub fn deliveries_alike()
    ensures { (settings : Settings) (one two later : List Event) (port : PortNo) → left_by settings one ≡ left_by settings two →
        drop (number_delivered settings one port) (deliveries settings (later ++ one) port) ≡ drop (number_delivered settings two port) (deliveries settings (later ++ two) port) }
{}
