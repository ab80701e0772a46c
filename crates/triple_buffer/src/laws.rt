//! What holds of a running triple buffer in every state that keeps the rule of its table, and so at every moment,
//! whatever its two threads do. Each law is a function without work: its contract is the statement.
ghost use Rattle.std.specs.Prelude.{◌≡◌, ◌<◌, ℕ, List, [], length};
ghost use Rattle.es_base.specs.declared.event.Message.{Message};
ghost use Rattle.triple_buffer.specs.declared.latest.Latest.{Latest};
ghost use Rattle.triple_buffer.specs.declared.rule.ReaderView.{ReaderView};
ghost use Rattle.triple_buffer.specs.declared.rule.SeatView.TheVariants.{Reads};
ghost use Rattle.triple_buffer.specs.Moments.{ArePublished, BufferState, HasMark, HasNoMark, LiesBetween, LooksAtWord, SeatSees, BufferStep, TookIn, word_in};
ghost use Rattle.triple_buffer.specs.Plays.{BufferSeat, reader_in};
ghost use Rattle.triple_buffer.specs.Rule.{IsLastOf, KeptBuffers};

/// A look gives the message that was the newest published at one moment of the call. If its load finds no mark, that is
/// the moment of the load: the reader has seen all that is published then. If it finds the mark, that is the moment of
/// its exchange: right after it the reader has seen all that is published.
// rule: CONC-17, EMB-9
pub fn a_look_gives_the_newest_message_of_one_moment()
    ensures load { (longest : ℕ) (s : BufferState) (published : List Message) (load : BufferStep) (before after : BufferSeat) →
        KeptBuffers longest s → ArePublished s published → LooksAtWord s load before after → HasNoMark (word_in s) → (reader_in after.0).seen ≡ published }
    ensures exchange { (longest found : ℕ) (s : BufferState) (published : List Message) (swap : BufferStep) (before after : BufferSeat) →
        KeptBuffers longest s → ArePublished s published → TookIn s swap found before after → (reader_in after.0).seen ≡ published }
{}

/// A look that leaves the reader without a message was made when nothing was published: its load found no mark. So None
/// after a look says that nothing was published at its load.
// rule: EMB-8, EMB-9
pub fn a_look_that_finds_no_message_finds_nothing_published()
    ensures load { (longest : ℕ) (s : BufferState) (published : List Message) (load : BufferStep) (before after : BufferSeat) →
        KeptBuffers longest s → ArePublished s published → LooksAtWord s load before after → HasNoMark (word_in s) → (reader_in after.0).seen ≡ [] → published ≡ [] }
    ensures exchange { (found : ℕ) (s : BufferState) (swap : BufferStep) (before after : BufferSeat) → TookIn s swap found before after → 0 < length (reader_in after.0).seen }
{}

/// Where the word has no mark the reader has seen all published messages.
// rule: CONC-16
pub fn where_the_word_has_no_mark_the_reader_has_seen_all()
    ensures { (longest seat : ℕ) (s : BufferState) (published : List Message) (reader : ReaderView) →
        KeptBuffers longest s → ArePublished s published → SeatSees s seat (Reads reader) → HasNoMark (word_in s) → reader.seen ≡ published }
{}

/// Where the word has the mark the last published message lies between the ends, whole and with its number, and the
/// reader hasn't seen it.
// rule: CONC-15, CONC-16
pub fn where_the_word_has_the_mark_the_last_message_lies_between()
    ensures whole { (longest : ℕ) (s : BufferState) (published : List Message) →
        KeptBuffers longest s → ArePublished s published → HasMark (word_in s) → (latest : Latest) × LiesBetween s latest × IsLastOf latest published }
    ensures newer { (longest seat : ℕ) (s : BufferState) (published : List Message) (reader : ReaderView) →
        KeptBuffers longest s → ArePublished s published → SeatSees s seat (Reads reader) → HasMark (word_in s) → length reader.seen < length published }
{}
