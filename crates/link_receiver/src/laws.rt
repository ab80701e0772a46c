//! What holds of every run, and of epochs that follow one another.
ghost use Rattle.std.specs.Prelude.{◌≡◌, ◌++◌, List, reverse};
ghost use Rattle.es_base.specs.declared.event.Event.{Event};
ghost use Rattle.es_base.specs.Settings.{Settings};
ghost use Rattle.link_rules.specs.Left.{left_by};
ghost use Rattle.link_rules.specs.Run.{IsRun};
ghost use Rattle.link_receiver.specs.ByPlace.{EachByPlace};
ghost use Rattle.link_receiver.specs.Epoch.{Handed, Hands};
ghost use Rattle.link_receiver.specs.Link.{GoesOnAlike, Link, past_of};

/// In a run the verdict at each place is that of its frame after the events before that place.
pub fn verdicts_by_place()
    ensures { (settings : Settings) (history : List Event) → IsRun settings (reverse history) → EachByPlace settings history }
{}

/// Taken-out events stay in the link's past: the link goes on after them and all before them.
pub fn epochs_join()
    ensures { (old : Link) (epoch : Handed) (new : Link) → Hands old epoch new →
        (new.before ≡ reverse epoch.events ++ epoch.before) × (past_of new ≡ past_of old) }
{}

/// Only the summary of the taken-out events counts: any other run with an equal summary may have been those.
pub fn whatever_left_the_same_may_have_stood_before()
    ensures { (link : Link) (two : List Event) → left_by link.settings link.before ≡ left_by link.settings two → IsRun link.settings two
        → IsRun link.settings (past_of link) → GoesOnAlike link (record link { before = two }) }
{}
