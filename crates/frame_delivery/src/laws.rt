//! Which networks bring each frame once, in order, and what a port gets of frames that have whole messages.
ghost use Rattle.std.specs.Prelude.{◌≡◌, ℕ, ◌<◌, ◌≤◌, ◌+◌, ◌&&◌, not, true, false, List, [], ◌∷◌, ◌++◌, length, Some};
ghost use Rattle.es_base.specs.declared.place.Net.{Net};
ghost use Rattle.es_base.specs.declared.place.Net.TheVariants as nets;
ghost use Rattle.es_base.specs.declared.place.PortNo.{PortNo};
ghost use Rattle.es_base.specs.declared.event.Arrival.{Arrival};
ghost use Rattle.es_base.specs.declared.event.Event.{Event};
ghost use Rattle.es_base.specs.Settings.{Settings};
ghost use Rattle.es_base.specs.Frame.{sequence_number_of};
ghost use Rattle.es_base.specs.Limits.{most_samples};
ghost use Rattle.es_base.specs.Past.{arrival_of};
ghost use Rattle.es_base.specs.Networks.{is_same_net};
ghost use Rattle.link_rules.specs.Integrity.{latest, passes};
ghost use Rattle.link_rules.specs.Copies.{Forwarded, is_ahead};
ghost use Rattle.link_rules.specs.Redundancy.{forwarded, is_forwarded};
ghost use Rattle.link_rules.specs.Outcome.{Payload};
ghost use Rattle.link_rules.specs.Deliveries.{deliveries, number_delivered};
ghost use Rattle.frame_delivery.specs.Sending.{Copy, EachCopy, HaveNumbers, Numbering, RunsOn, events_of_copies, events_since, number_of_frame};
ghost use Rattle.frame_delivery.specs.Once.{AreInOrder, ComesInTime, FirstsInOrder, IsOvertaken, as_forwarded, first_copies, has_come, is_new, new_copies};
ghost use Rattle.frame_delivery.specs.Running.{EachForwarded, SomeForwarded};
ghost use Rattle.frame_delivery.specs.Since.{ComeAfter, PassInOrder, PassTimely, counts, forwarded_since, passing_since};
ghost use Rattle.frame_delivery.specs.Network.{BeginNear, BringsInRow, ComeTimely, ComeWhole, Delays, HasAge, HasNoOvertaking, IsNeverLate, IsOverSoon, KeepOrderTogether, KeepsBefore, KeepsDelays, KeepsOrder, KeepsTimes, LosesFew, MayFollow, Timing, copies_on, indices_on};
ghost use Rattle.frame_delivery.specs.Conditions.{AreCopies, Condition, IsMet, MeetAllBut, covers, firsts, late, late_restart, losses, near, restarts};
ghost use Rattle.frame_delivery.specs.Messages.{AllCame, CarryWhole, HaveRoom, messages_of, octets_of_messages, octets_sent};
ghost use Rattle.frame_delivery.specs.Examples.{after_skew_max, after_strange, behind_a_restart, far_apart, far_behind, frame_at, from_57, from_one, from_ten, link, numbering, of_later_time, one_network_out, overtaken, received, restarted, slower_network, slower_on_b, soon_restarted, strange, stranger_passes, timed, timing, two_lost, wide_link, with_losses};

/// The sequence number of a frame is ahead of those of the 127 frames before it, and of no later one up to 127.
pub fn a_later_frame_is_ahead()
    ensures later { (numbering : Numbering) (k i : ℕ) → numbering.first ≤ 255 → k < i → i ≤ k + 127 → RunsOn numbering k i → is_ahead (number_of_frame numbering k) (number_of_frame numbering i) ≡ true }
    ensures earlier { (numbering : Numbering) (k i : ℕ) → numbering.first ≤ 255 → i ≤ k → k ≤ i + 127 → RunsOn numbering i k → is_ahead (number_of_frame numbering k) (number_of_frame numbering i) ≡ false }
{}

/// Each frame passes integrity checking, if each network keeps the order of the frames and loses fewer than the window
/// in a row.
pub fn each_frame_passes()
    ensures { (settings : Settings) (numbering : Numbering) (copy : Copy) (before : List Copy) → HaveNumbers numbering (copy ∷ before)
        → KeepsOrder (copy ∷ before) → LosesFew numbering settings.window (copy ∷ before) → passes settings (events_of_copies before) (arrival_of copy.event) ≡ true }
{}

/// SkewMax runs from each frame that was forwarded, and from no other. Once it is over since all of them, the next
/// frame that passes is forwarded, whatever its number is. While it runs since one of them, whichever came last, a
/// frame is redundant that isn't ahead of the one forwarded last.
pub fn skew_max_runs_from_each_forwarded_frame()
    ensures over { (settings : Settings) (past : List Event) (a : Arrival) → EachForwarded settings (λ e. e.time + settings.skew_max < a.time) past → passes settings past a ≡ true
        → is_forwarded settings past a ≡ true }
    ensures runs { (settings : Settings) (past : List Event) (a : Arrival) (latest : Forwarded) (earlier : List Forwarded) → settings.redundancy ≡ true → forwarded settings past ≡ latest ∷ earlier
        → is_ahead latest.sequence_number (sequence_number_of a.frame) ≡ false → SomeForwarded settings (λ e. a.time ≤ e.time + settings.skew_max) past → is_forwarded settings past a ≡ false }
{}

/// No frame is forwarded twice, and none after a later one, whatever the networks lose, bring twice or out of order: of
/// the copies that pass those are forwarded that are of a later frame than all before, if they come at times that fit
/// SkewMax, none is too late, and networks begin near each other. So a frame whose copies all come after one of a later
/// frame is lost, and costs no other. With no old past all copies that pass count. Of times no more is needed than that
/// these copies come in time (`ComesInTime`).
pub fn no_frame_is_forwarded_twice()
    ensures forwarded { (settings : Settings) (numbering : Numbering) (timing : Timing) (old : List Event) (copies : List Copy) → PassTimely settings numbering timing old copies
        → forwarded_since settings old copies ≡ new_copies (passing_since settings old copies) }
    ensures in_order { (copies : List Copy) → AreInOrder (new_copies copies) }
    ensures each { (settings : Settings) (numbering : Numbering) (timing : Timing) (old : List Event) (copy : Copy) (before : List Copy) → PassTimely settings numbering timing old (copy ∷ before)
        → is_forwarded settings (events_since before old) (arrival_of copy.event)
        ≡ (counts settings (events_since before old) (arrival_of copy.event) (passing_since settings old before) && is_new copy.index (passing_since settings old before)) }
    ensures in_time { (settings : Settings) (numbering : Numbering) (old : List Event) (copy : Copy) (before : List Copy) → settings.redundancy ≡ true → numbering.first ≤ 255
        → HaveNumbers numbering (passing_since settings old (copy ∷ before)) → ComeAfter settings old (passing_since settings old (copy ∷ before)) → EachCopy (ComesInTime numbering settings.skew_max) (passing_since settings old (copy ∷ before))
        → is_forwarded settings (events_since before old) (arrival_of copy.event)
        ≡ (counts settings (events_since before old) (arrival_of copy.event) (passing_since settings old before) && is_new copy.index (passing_since settings old before)) }
    ensures nothing_before { (settings : Settings) (copy : Copy) (before : List Copy)
        → counts settings (events_of_copies before) (arrival_of copy.event) (passing_since settings [] before) ≡ passes settings (events_of_copies before) (arrival_of copy.event) }
    ensures redundancy_keeps { (settings : Settings) (old : List Event) (copies : List Copy) → forwarded settings (events_since copies old) ≡ as_forwarded (forwarded_since settings old copies) ++ forwarded settings old }
{}

/// And none is lost of which a copy comes: the first copy of each frame is forwarded, and no other, if each network
/// also loses fewer than the window in a row, and the first copies come in order (`first_copies_come_in_order`). For
/// then the first copy of each frame passes.
pub fn no_frame_is_lost()
    ensures pass { (settings : Settings) (numbering : Numbering) (timing : Timing) (copies : List Copy) → ComeWhole settings numbering timing copies
        → PassInOrder settings numbering timing [] copies × (first_copies (passing_since settings [] copies) ≡ first_copies copies) }
    ensures forwarded { (settings : Settings) (numbering : Numbering) (timing : Timing) (copies : List Copy) → ComeWhole settings numbering timing copies
        → (forwarded_since settings [] copies ≡ first_copies copies) × AreInOrder (first_copies copies) }
    ensures first { (settings : Settings) (numbering : Numbering) (timing : Timing) (copy : Copy) (before : List Copy) → ComeWhole settings numbering timing (copy ∷ before)
        → is_forwarded settings (events_of_copies before) (arrival_of copy.event) ≡ not (has_come copy.index before) }
    ensures all { (copies : List Copy) (index : ℕ) → has_come index (first_copies copies) ≡ has_come index copies }
{}

/// If they don't come in order, a frame is still lost only if each of its copies comes after a copy of a later frame.
pub fn a_frame_is_lost_only_if_it_is_overtaken()
    ensures forwarded { (settings : Settings) (numbering : Numbering) (timing : Timing) (copies : List Copy) → ComeTimely settings numbering timing copies → IsNeverLate timing
        → BeginNear settings.skew_max copies → KeepsOrder copies → LosesFew numbering settings.window copies → forwarded_since settings [] copies ≡ new_copies copies }
    ensures lost { (copies : List Copy) (index : ℕ) → has_come index (new_copies copies) ≡ false → IsOvertaken index copies }
{}

/// One network is enough. If it keeps the order of the frames, and loses fewer than the window in a row, each of its
/// copies passes, whatever the other network brings; and each frame of which it brings a copy is forwarded, once, in
/// order, if no other sender's frame passes on the other. After an outage a network's copies pass again from the second
/// on.
pub fn one_network_is_enough()
    ensures passes { (settings : Settings) (numbering : Numbering) (net : Net) (copy : Copy) (before : List Copy) → BringsInRow numbering settings.window net (copy ∷ before)
        → is_same_net copy.event.net net ≡ true → passes settings (events_of_copies before) (arrival_of copy.event) ≡ true }
    ensures passes_again { (settings : Settings) (numbering : Numbering) (old : List Event) (copy : Copy) (before : List Copy) (last : ℕ) → HaveNumbers numbering (copies_on copy.event.net (copy ∷ before))
        → latest (indices_on before copy.event.net) ≡ Some last → last < copy.index → MayFollow numbering settings.window (Some last) copy.index
        → passes settings (events_since before old) (arrival_of copy.event) ≡ true }
    ensures brings { (settings : Settings) (numbering : Numbering) (timing : Timing) (copies : List Copy) (net : Net) (index : ℕ) → PassInOrder settings numbering timing [] copies
        → BringsInRow numbering settings.window net copies → has_come index (copies_on net copies) ≡ true → has_come index (forwarded_since settings [] copies) ≡ true }
{}

/// Whatever came before on the link, frames of a stranger or numbers that don't follow: from the first copy on that is
/// forwarded then, the first copy of each frame that passes is forwarded, and no other, in order.
pub fn forwarding_recovers()
    ensures forwarded { (settings : Settings) (numbering : Numbering) (timing : Timing) (old : List Event) (copies : List Copy) → PassInOrder settings numbering timing old copies
        → (forwarded_since settings old copies ≡ first_copies (passing_since settings old copies)) × AreInOrder (first_copies (passing_since settings old copies)) }
    ensures each { (settings : Settings) (numbering : Numbering) (timing : Timing) (old : List Event) (copies : List Copy) (index : ℕ) → PassInOrder settings numbering timing old copies
        → has_come index (forwarded_since settings old copies) ≡ has_come index (passing_since settings old copies) }
    ensures first { (settings : Settings) (numbering : Numbering) (timing : Timing) (old : List Event) (copy : Copy) (before : List Copy) → PassInOrder settings numbering timing old (copy ∷ before)
        → is_forwarded settings (events_since before old) (arrival_of copy.event)
        ≡ (counts settings (events_since before old) (arrival_of copy.event) (passing_since settings old before) && not (has_come copy.index (passing_since settings old before))) }
{}

/// A link has recovered at the latest with the first copy that passes once SkewMax is over since all that was forwarded
/// before: each that passes from then on counts. A copy passes if the one before it on its network is of one of the
/// `window` frames before (`one_network_is_enough`).
pub fn a_link_recovers_within_skew_max()
    ensures { (settings : Settings) (old : List Event) (copy : Copy) (before : List Copy) → passes settings (events_since before old) (arrival_of copy.event) ≡ true
        → EachForwarded settings (λ e. e.time + settings.skew_max < copy.event.time) old → passing_since settings old (copy ∷ before) ≡ copy ∷ passing_since settings old before }
{}

/// The first copies come in order, and none is late, if the times on the way, with the wait, differ by less than the
/// gap. They come in order, too, if each network keeps the order, and of each one of this holds: its greatest time on
/// the way less the other's least, with the wait, is below the gap; or the other loses no frame that it brings. Times
/// on one network may then differ by more. The same holds of the copies that pass, where a frame counts as lost on a
/// network of which no copy passes there. No less would do: where all else is met, the first copies are forwarded only
/// if they come in order.
pub fn first_copies_come_in_order()
    ensures all { (numbering : Numbering) (timing : Timing) (copies : List Copy) → KeepsTimes numbering timing copies → HasNoOvertaking timing → IsNeverLate timing × FirstsInOrder copies }
    ensures passing { (settings : Settings) (numbering : Numbering) (timing : Timing) (old : List Event) (copies : List Copy) → KeepsTimes numbering timing copies → HasNoOvertaking timing
        → FirstsInOrder (passing_since settings old copies) }
    ensures each_network_keeps_the_order { (timing : Timing) (delays : Delays) (copies : List Copy) → KeepOrderTogether timing delays copies → FirstsInOrder copies }
    ensures each_network_of_passing { (settings : Settings) (numbering : Numbering) (timing : Timing) (delays : Delays) (old : List Event) (copies : List Copy) → KeepsTimes numbering timing copies → KeepsOrder copies
        → KeepsDelays timing delays copies → KeepsBefore timing delays nets.A nets.B (passing_since settings old copies) → KeepsBefore timing delays nets.B nets.A (passing_since settings old copies)
        → FirstsInOrder (passing_since settings old copies) }
    ensures no_less_would_do { (settings : Settings) (numbering : Numbering) (timing : Timing) (old : List Event) (copies : List Copy) → PassTimely settings numbering timing old copies
        → forwarded_since settings old copies ≡ first_copies (passing_since settings old copies) → FirstsInOrder (passing_since settings old copies) }
{}

/// Networks begin near each other if SkewMax is over before 128 frames more are sent. So it is only for a longer
/// SkewMax that one has to ask where a network begins, or comes back after a cut.
pub fn a_short_skew_max_is_near()
    ensures all { (settings : Settings) (numbering : Numbering) (timing : Timing) (copies : List Copy) → KeepsTimes numbering timing copies → IsOverSoon timing settings.skew_max
        → BeginNear settings.skew_max copies }
    ensures since { (settings : Settings) (numbering : Numbering) (timing : Timing) (old : List Event) (copies : List Copy) → KeepsTimes numbering timing copies → IsOverSoon timing settings.skew_max
        → BeginNear settings.skew_max (passing_since settings old copies) }
{}

/// The age of a message, since the time of its first copy, is less than its age since it was sent by what this copy was
/// on its way.
pub fn each_message_has_its_age()
    ensures { (numbering : Numbering) (timing : Timing) (copies : List Copy) (now : ℕ) → KeepsTimes numbering timing copies → EachCopy (λ before copy. HasAge timing now copy) (first_copies copies) }
{}

/// After any past a port gets the message of each frame of which a copy passes, from the first on that is forwarded:
/// once, in the order of sending, whole, with the time of the first that passes; but for those whose queue was full
/// then. It is lost only if no copy passes, whatever was lost of others.
pub fn each_passing_message_is_delivered_once()
    ensures { (settings : Settings) (numbering : Numbering) (timing : Timing) (payload : ℕ → Payload) (old : List Event) (copies : List Copy) (port : PortNo) → PassInOrder settings numbering timing old copies
        → CarryWhole settings payload (forwarded_since settings old copies) → number_delivered settings old port + length copies ≤ most_samples
        → deliveries settings (events_since copies old) port ≡ deliveries settings old port ++ messages_of payload port (first_copies (passing_since settings old copies)) }
{}

/// And if a copy of each frame comes, on one network or on both, and its queue is never full, it gets all that was sent
/// to it.
pub fn all_messages_are_delivered()
    ensures { (settings : Settings) (numbering : Numbering) (timing : Timing) (payload : ℕ → Payload) (copies : List Copy) (port : PortNo) (n : ℕ) → ComeWhole settings numbering timing copies
        → CarryWhole settings payload copies → length copies ≤ most_samples → HaveRoom payload copies → AllCame n copies → octets_of_messages (deliveries settings (events_of_copies copies) port) ≡ octets_sent payload port n }
{}

/// So all that was sent is delivered though one network is out, if the other brings each frame, and no queue is full.
pub fn all_messages_are_delivered_by_one_network()
    ensures { (settings : Settings) (numbering : Numbering) (timing : Timing) (payload : ℕ → Payload) (copies : List Copy) (port : PortNo) (net : Net) (n : ℕ) → PassInOrder settings numbering timing [] copies
        → BringsInRow numbering settings.window net copies → AllCame n copies → AllCame n (copies_on net copies) → CarryWhole settings payload copies → length copies ≤ most_samples → HaveRoom payload copies
        → octets_of_messages (deliveries settings (events_of_copies copies) port) ≡ octets_sent payload port n }
{}

/// The conditions that `no_frame_is_lost` asks, one by one: where each of them is met, the law holds. So the examples
/// below leave none out. And those of `no_frame_is_forwarded_twice`, asked of all copies.
pub fn these_are_the_conditions()
    ensures all { (settings : Settings) (numbering : Numbering) (timing : Timing) (copies : List Copy) → AreCopies settings numbering timing copies
        → ((condition : Condition) → IsMet condition settings numbering timing copies) → ComeWhole settings numbering timing copies }
    ensures passing { (settings : Settings) (numbering : Numbering) (timing : Timing) (old : List Event) (copies : List Copy) → ComeTimely settings numbering timing copies → IsNeverLate timing
        → BeginNear settings.skew_max (passing_since settings old copies) → ComeAfter settings old copies → PassTimely settings numbering timing old copies }
{}

/// The conditions can be met: by four frames that two networks bring, each with a loss, over the end of the sequence
/// numbers, and all four are forwarded; with any SkewMax that covers what the times on the way differ by. And by a
/// network that is slower than the other by more than a gap: its copies come after those of later frames, but none of
/// them is the first of its frame.
pub fn the_conditions_can_be_met()
    ensures met { (skew_max pause : ℕ) → 800 ≤ skew_max → skew_max + 800 < pause → ComeWhole (link skew_max) numbering (timed 1000 pause 100 900 100) with_losses }
    ensures with_a_slower_network { ComeWhole (link 1200) from_one (timed 1000 4000 100 1300 0) slower_network × KeepOrderTogether (timed 1000 4000 100 1300 0) slower_on_b slower_network
        × (HasNoOvertaking (timed 1000 4000 100 1300 0) → ⊥) × (forwarded (link 1200) (events_of_copies slower_network) ≡ frame_at 3 2100 ∷ frame_at 2 1100 ∷ frame_at 1 100 ∷ []) }
    ensures forwarded { (skew_max : ℕ) → 800 ≤ skew_max → forwarded (link skew_max) (events_of_copies with_losses) ≡ frame_at 2 3100 ∷ frame_at 1 2200 ∷ frame_at 255 1500 ∷ frame_at 254 100 ∷ [] }
{}

/// No frame is lost while one network is out for longer than the window and the other brings each: this breaks that few
/// are lost, which `no_frame_is_lost` asks, and nothing that `one_network_is_enough` does. Of three frames after
/// strange ones the second is forwarded, with its first copy that passes once SkewMax is over since those, and so is
/// the third, as `forwarding_recovers` says, though one more strange frame comes meanwhile, which is out of sequence.
/// But a frame of which a copy passes can be lost if one was forwarded before with a later time than the copies have
/// that come; or while SkewMax runs since a stranger's frame that passes, though on the other network. And the copies
/// of `each_condition_is_needed` all pass where SkewMax is too short or too long, a first copy is overtaken, networks
/// begin far apart, or a copy is too late: so each of these conditions is needed of copies that pass, too.
pub fn a_link_recovers_in_examples()
    ensures one_network_out { MeetAllBut losses (link 1000) from_one timing one_network_out × BringsInRow from_one 2 nets.A one_network_out
        × (forwarded (link 1000) (events_of_copies one_network_out) ≡ frame_at 5 4100 ∷ frame_at 4 3100 ∷ frame_at 3 2100 ∷ frame_at 2 1100 ∷ frame_at 1 100 ∷ []) }
    ensures after_strange_frames { PassInOrder (link 1500) from_ten (timed 1000 3000 100 900 100) strange after_strange
        × (passing_since (link 1500) strange after_strange ≡ received nets.A 2 12 2100 ∷ received nets.B 1 11 1900 ∷ [])
        × (forwarded (link 1500) (events_since after_strange strange) ≡ frame_at 12 2100 ∷ frame_at 11 1900 ∷ frame_at 50 60 ∷ frame_at 200 50 ∷ []) }
    ensures after_a_later_time { ComeTimely (link 1000) from_57 (timed 3000 3000 100 100 0) restarted × IsNeverLate (timed 3000 3000 100 100 0) × FirstsInOrder (passing_since (link 1000) of_later_time restarted) × BeginNear 1000 (passing_since (link 1000) of_later_time restarted)
        × (passing_since (link 1000) of_later_time restarted ≡ restarted) × (ComeAfter (link 1000) of_later_time restarted → ⊥)
        × (forwarded (link 1000) (events_since restarted of_later_time) ≡ frame_at 57 100 ∷ frame_at 50 5000 ∷ []) }
    ensures while_a_stranger_passes { BringsInRow from_one 2 nets.A stranger_passes × (passing_since (link 1000) [] stranger_passes ≡ stranger_passes)
        × (forwarded (link 1000) (events_of_copies stranger_passes) ≡ frame_at 50 200 ∷ frame_at 1 100 ∷ []) }
    ensures all_pass { (passing_since (link 1000) [] after_skew_max ≡ after_skew_max) × (passing_since (link 1000) [] overtaken ≡ overtaken) × (passing_since (link 128000) [] far_apart ≡ far_apart) × (passing_since (link 1000) [] soon_restarted ≡ soon_restarted)
        × (passing_since wide_link [] far_behind ≡ far_behind) × (passing_since (link 1000) [] behind_a_restart ≡ behind_a_restart) }
{}

/// Counterexamples with one condition not met, by a microsecond or by one frame, and all others that the law asks met:
/// a frame of which a copy comes is lost, or one is forwarded twice or after a later one.
pub fn each_condition_is_needed()
    ensures second_copy_after_skew_max { MeetAllBut covers (link 1000) from_one (timed 2000 4000 100 1101 0) after_skew_max
        × (forwarded (link 1000) (events_of_copies after_skew_max) ≡ frame_at 1 1101 ∷ frame_at 1 100 ∷ []) }
    ensures overtaken_though_one_network_loses_nothing { MeetAllBut firsts (link 1000) from_one (timed 1000 4000 100 1100 0) overtaken × KeepsOrder overtaken
        × (forwarded (link 1000) (events_of_copies overtaken) ≡ frame_at 3 2100 ∷ frame_at 1 100 ∷ []) }
    ensures window_lost_on_both_networks { MeetAllBut losses (link 1000) from_one timing two_lost × (forwarded (link 1000) (events_of_copies two_lost) ≡ frame_at 1 100 ∷ []) }
    ensures begun_far_apart { MeetAllBut near (link 128000) from_one (timed 1000 200000 100 100 0) far_apart × (forwarded (link 128000) (events_of_copies far_apart) ≡ frame_at 1 100 ∷ []) }
    ensures restart_in_skew_max { MeetAllBut restarts (link 1000) from_57 (timed 1000 1000 100 100 0) soon_restarted
        × (forwarded (link 1000) (events_of_copies soon_restarted) ≡ frame_at 57 100 ∷ []) }
    ensures late_by_128_frames { MeetAllBut late wide_link from_one (timed 1000 300000 100 128100 0) far_behind
        × (forwarded wide_link (events_of_copies far_behind) ≡ frame_at 1 128100 ∷ frame_at 129 128100 ∷ frame_at 65 64100 ∷ frame_at 1 100 ∷ []) }
    ensures late_by_a_restart { MeetAllBut late_restart (link 1000) from_57 (timed 2000 2000 100 100 2000) behind_a_restart
        × (forwarded (link 1000) (events_of_copies behind_a_restart) ≡ frame_at 57 100 ∷ frame_at 0 2100 ∷ frame_at 57 100 ∷ []) }
{}
