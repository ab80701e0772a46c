//! What a read tells of its port at one moment, whatever is published meanwhile.
ghost use Rattle.std.specs.Prelude.{◌≡◌, ℕ, List};
ghost use Rattle.es_base.specs.declared.event.Message.{Message};
ghost use Rattle.triple_buffer.specs.Moments.{ArePublished, BufferState, HasNoMark, LooksAtWord, BufferStep, TookIn, word_in};
ghost use Rattle.triple_buffer.specs.Plays.{BufferSeat, reader_in};
ghost use Rattle.triple_buffer.specs.Rule.{KeptBuffers};
ghost use Rattle.mailbox_port.specs.declared.reading.Reading.{Reading};
ghost use Rattle.mailbox_port.specs.Reads.{IsRead, PortReader, TellsNewest};

/// A read tells the message that was the newest published at one moment of the call, with its number and its time, and
/// Empty if nothing was published then. That is the moment of its load if the load finds no mark, and else the moment
/// right after its exchange. The reader has seen then what contracts see of it after the call.
// rule: EMB-8, CONC-17
pub fn a_read_tells_the_newest_message_of_one_moment()
    ensures load { (longest : ℕ) (s : BufferState) (published : List Message) (load : BufferStep) (seat after : BufferSeat) (reader later : PortReader) (before out : List ℕ) (answer : Reading) →
        KeptBuffers longest s → ArePublished s published → LooksAtWord s load seat after → HasNoMark (word_in s) →
        later.mailbox.reader.seen ≡ (reader_in after.0).seen → IsRead reader later before out answer → TellsNewest published before out answer }
    ensures exchange { (longest found : ℕ) (s : BufferState) (published : List Message) (swap : BufferStep) (seat after : BufferSeat) (reader later : PortReader) (before out : List ℕ) (answer : Reading) →
        KeptBuffers longest s → ArePublished s published → TookIn s swap found seat after →
        later.mailbox.reader.seen ≡ (reader_in after.0).seen → IsRead reader later before out answer → TellsNewest published before out answer }
{}
