//! What holds of a running port in every state that keeps the rule of its table, and so at every moment,
//! whatever its threads do. Each law is a function without work: its contract is the statement.
ghost use Rattle.std.specs.Prelude.{◌≡◌, ◌≢◌, ℕ, ◌+◌, ◌/◌, ◌<◌, ◌≤◌, List, [], length, slice_index};
ghost use Rattle.slot_core.specs.Allowed.{MayStore};
ghost use Rattle.slot_core.specs.Limits.{most_slots};
ghost use Rattle.slot_core.specs.Message.{IsMessage};
ghost use Rattle.slot_core.specs.Octets.{AreOctets, words_of};
ghost use Rattle.slot_core.specs.State.{HasWord, StartsWithSeen, last_of};
ghost use Rattle.slot_core.specs.Words.{latest_number, slot_of, table_words, Begins};
ghost use Rattle.slot_core.specs.declared.view.Phase.TheVariants.{Holding};
ghost use Rattle.sampling_port.specs.declared.reader.Read.{Read};
ghost use Rattle.sampling_port.specs.declared.rule.ReaderLog.{ReaderLog};
ghost use Rattle.sampling_port.specs.declared.rule.WriterLog.{WriterLog};
ghost use Rattle.sampling_port.specs.declared.rule.SeatView.TheVariants.{Reads, Writes};
ghost use Rattle.sampling_port.specs.Ends.{IsCopy, ReadAnswer, ReaderEnd, ReadsLast};
ghost use Rattle.sampling_port.specs.Moments.{IsFoundIn, IsLook, PortState, SeatKnows, SeatStep};
ghost use Rattle.sampling_port.specs.Plays.{At};
ghost use Rattle.sampling_port.specs.Rule.{KeptTable, slots_for};
ghost use Rattle.sampling_port.specs.Writes.{steps_to_publish};

/// No slot is written while a reader holds it: no StoreWord that the writer may make names it.
pub fn a_held_slot_is_not_written()
    ensures { (readers slots : ℕ) (s : PortState) (writer reader place word slot index stored : ℕ) (w : WriterLog) (v : ReaderLog) →
        KeptTable readers slots s → SeatKnows s writer (Writes w) → SeatKnows s reader (Reads place v) →
        v.view.phase ≡ Holding word → MayStore readers slots w.view slot index stored → slot ≢ slot_of word }
{}

/// A held message is a whole message, in the words of its slot.
pub fn a_held_message_is_whole()
    ensures { (readers slots : ℕ) (s : PortState) (reader place word : ℕ) (v : ReaderLog) →
        KeptTable readers slots s → SeatKnows s reader (Reads place v) → v.view.phase ≡ Holding word →
        IsMessage (last_of v.view.seen) × Begins readers s.words (slot_of word) (last_of v.view.seen) }
{}

/// A reader with the word in `latest` has seen all published messages. So a look finds the newest message at that look,
/// and a hold has it.
pub fn who_has_the_newest_word_has_seen_all()
    ensures { (readers slots : ℕ) (s : PortState) (writer reader place : ℕ) (w : WriterLog) (v : ReaderLog) →
        KeptTable readers slots s → SeatKnows s writer (Writes w) → SeatKnows s reader (Reads place v) →
        HasWord v.view.phase (latest_number s.words) → v.view.seen ≡ w.view.published }
{}

/// A look that finds 0 in `latest` finds nothing published. So Empty says that nothing was published at its one look.
pub fn a_look_that_finds_0_finds_nothing_published()
    ensures { (readers slots found : ℕ) (s : PortState) (kept : KeptTable readers slots s) (load : SeatStep) (me after : At) →
        IsFoundIn s load found → IsLook slots load me found after → found ≡ 0 → kept.writer.published ≡ [] }
{}

/// A reader that is synchronized before and after a read, with nothing published in between, read the last message, or
/// Empty, and never Busy. So a thread with both ends, which meets, reads, and meets again, knows what it read.
// rule: PORT-18
pub fn what_is_read_between_two_meetings_is_the_last()
    ensures { (published : List (List ℕ)) (v w : ReaderEnd) (tries : ℕ) (before out : List ℕ) (answer : Read) →
        v.seen ≡ published → 0 < tries → ReadAnswer v w tries before out answer → StartsWithSeen published w.seen →
        ReadsLast published before out answer }
{}

/// A copy of a message's words has the octets of which these words were made.
pub fn what_was_published_is_what_is_read()
    ensures { (octets before out : List ℕ) (time place : ℕ) → AreOctets octets →
        IsCopy (words_of octets time) before out (length octets) → place < length octets →
        slice_index out place ≡ slice_index octets place }
{}

/// Numbers of a publication's steps and of a table's words, with four readers and with eight.
pub fn sizes_with_four_readers_and_with_eight()
    ensures steps_of_four { (octets : ℕ) → steps_to_publish 4 octets ≡ 7 + (octets + 7) / 8 }
    ensures steps_of_eight { (octets : ℕ) → steps_to_publish 8 octets ≡ 11 + (octets + 7) / 8 }
    ensures words_of_four { table_words 4 (slots_for 4) ≡ 1121 }
    ensures words_of_eight { table_words 8 (slots_for 8) ≡ 1869 }
    ensures fourteen { slots_for 14 ≡ most_slots }
{}
