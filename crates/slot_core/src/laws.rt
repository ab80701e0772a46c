//! What holds of a sampling port after every list of events, whichever readers and writer they name.
//! Each law is a function without work: its contract is the statement.
ghost use Rattle.std.specs.Prelude.{◌≡◌, ◌≢◌, ◌↔◌, ℕ, ◌+◌, ◌-◌, ◌^◌, ◌<◌, ◌≤◌, List, None, length, slice_index};
ghost use Rattle.slot_core.specs.declared.event.CoreEvent.{CoreEvent};
ghost use Rattle.slot_core.specs.declared.event.CoreEvent.TheVariants.{LoadSecond, StoreWord};
ghost use Rattle.slot_core.specs.Limits.{longest_message, most_messages, most_slots, port_readers, port_slots, slot_words};
ghost use Rattle.slot_core.specs.Words.{latest_number, slot_of, word_for, ShowsWord};
ghost use Rattle.slot_core.specs.Message.{words_for, IsMessage};
ghost use Rattle.slot_core.specs.Octets.{AreOctets, octet_of_words, octets_of_words, words_of};
ghost use Rattle.slot_core.specs.State.{State, last_of, opening, view_at, word_of};
ghost use Rattle.slot_core.specs.Lawful.{Lawful};
ghost use Rattle.slot_core.specs.Steps.{after_event, after_all};
ghost use Rattle.slot_core.specs.Allowed.{Allowed, AreAllowed};
ghost use Rattle.slot_core.specs.Refusal.{refusal_of};
ghost use Rattle.slot_core.specs.Laws.{HasFreeSlot, HasMessage, HoldsWord, HoldsNewest, IsHold, IsReached, Outlasts, after_hold};

/// The limits of a port fit one another. It has two slots more than readers, and a word can name each of
/// them. A slot has room for the longest message, and none left. The last message number with the last
/// slot that a word can name is the greatest word of 64 bits.
pub fn the_limits_fit_one_another()
    ensures slots { port_slots ≡ port_readers + 2 }
    ensures named { port_slots ≤ most_slots }
    ensures words { slot_words ≡ words_for longest_message }
    ensures greatest { word_for most_messages (most_slots - 1) ≡ 2 ^ 64 - 1 }
{}

/// A port is lawful at the opening, and stays so through every list of allowed events. So it is lawful
/// in each state that a list leads to from the opening. A word has to be able to name each slot.
pub fn a_port_stays_lawful()
    ensures opening { (readers slots : ℕ) → Lawful readers slots (opening readers slots) }
    ensures events { (readers slots : ℕ) (c : State) (events : List CoreEvent) → slots ≤ most_slots → Lawful readers slots c →
        AreAllowed readers slots c events → Lawful readers slots (after_all readers c events) }
    ensures reached { (readers slots : ℕ) (c : State) → slots ≤ most_slots → IsReached readers slots c → Lawful readers slots c }
{}

/// No slot is written while a reader holds it.
// rule: SAMP-12
pub fn a_held_slot_is_not_written()
    ensures { (readers slots : ℕ) (c : State) (reader word slot index stored : ℕ) → Lawful readers slots c →
        HoldsWord readers c reader word → Allowed readers slots c (StoreWord slot index stored) → slot ≢ slot_of word }
{}

/// Once all readers were scanned a message can begin in some slot, if there are two slots more than
/// readers.
pub fn a_free_slot_exists()
    ensures { (readers slots : ℕ) (c : State) → readers + 2 ≤ slots → length c.writer.scanned ≡ readers →
        length c.writer.stored ≡ 0 → HasFreeSlot readers slots c }
{}

/// A message that a reader begins to hold is the newest at that moment, its second look, and the reader
/// has seen all published messages.
pub fn a_held_message_was_the_newest()
    ensures { (readers slots : ℕ) (c : State) (reader word : ℕ) → Lawful readers slots c →
        Allowed readers slots c (LoadSecond reader) → HoldsWord readers (after_event readers c (LoadSecond reader)) reader word →
        HoldsNewest readers slots (after_event readers c (LoadSecond reader)) (view_at (after_event readers c (LoadSecond reader)).views reader) word }
{}

/// A held message stays whole until its reader clears its announcement, whatever comes between. The
/// reader's view stays as it is.
pub fn a_held_message_stays_whole()
    ensures view { (readers slots : ℕ) (c : State) (reader word : ℕ) (events : List CoreEvent) → HoldsWord readers c reader word →
        AreAllowed readers slots c events → Outlasts reader events →
        view_at (after_all readers c events).views reader ≡ view_at c.views reader }
    ensures message { (readers slots : ℕ) (c : State) (reader word : ℕ) (events : List CoreEvent) → slots ≤ most_slots →
        Lawful readers slots c → HoldsWord readers c reader word → AreAllowed readers slots c events → Outlasts reader events →
        HasMessage readers (after_all readers c events) word (last_of (view_at c.views reader).seen) }
{}

/// All of it together, from the opening on: after any list of events a reader looks again and holds; any
/// list of events follows in which it doesn't clear its announcement. Then it holds the message that was
/// the newest at that look, by its number; the slot has all words of that message; and no allowed step
/// writes the slot.
// rule: SAMP-16
pub fn a_hold_is_of_the_newest_message_and_whole()
    ensures newest { (readers slots : ℕ) (c : State) (reader word : ℕ) (events : List CoreEvent) → slots ≤ most_slots →
        IsHold readers slots c reader word events →
        (word ≡ latest_number c.words) × ShowsWord slots word (length c.writer.published) }
    ensures whole { (readers slots : ℕ) (c : State) (reader word : ℕ) (events : List CoreEvent) → slots ≤ most_slots →
        IsHold readers slots c reader word events →
        HasMessage readers (after_hold readers c reader events) word (last_of c.writer.published) }
    ensures unwritten { (readers slots : ℕ) (c : State) (reader word slot index stored : ℕ) (events : List CoreEvent) → slots ≤ most_slots →
        IsHold readers slots c reader word events →
        Allowed readers slots (after_hold readers c reader events) (StoreWord slot index stored) → slot ≢ slot_of word }
{}

/// A second look that finds another word comes after a newer message: the reader sees more than before.
// rule: SAMP-14
pub fn a_failed_look_sees_a_newer_message()
    ensures { (readers slots : ℕ) (c : State) (reader : ℕ) → Lawful readers slots c → Allowed readers slots c (LoadSecond reader) →
        latest_number c.words ≢ word_of (view_at c.views reader).phase →
        length (view_at c.views reader).seen < length c.writer.published }
{}

/// A step is allowed exactly if there is no refusal of it.
pub fn a_step_is_allowed_or_refused()
    ensures { (readers slots : ℕ) (c : State) (event : CoreEvent) →
        (refusal_of readers slots c event ≡ None) ↔ Allowed readers slots c event }
{}

/// The words of octets and a time are those of one message: they have its octets, and no other message
/// has the same words. Conversely, the words of a message are those of its octets and its time. Octets
/// are below 256, and a message has at most `longest_message`; words are below 2^64.
pub fn a_message_has_words_of_its_own()
    ensures message { (octets : List ℕ) (time : ℕ) → AreOctets octets → IsMessage (words_of octets time) }
    ensures octet { (octets : List ℕ) (time place : ℕ) → AreOctets octets → place < length octets →
        octet_of_words (words_of octets time) place ≡ slice_index octets place }
    ensures own { (octets others : List ℕ) (time another : ℕ) → AreOctets octets → AreOctets others →
        words_of octets time ≡ words_of others another → (octets ≡ others) × (time ≡ another) }
    ensures again { (words : List ℕ) → IsMessage words → ((i : ℕ) → slice_index words i < 2 ^ 64) →
        AreOctets (octets_of_words words) × (words_of (octets_of_words words) (slice_index words 1) ≡ words) }
{}
