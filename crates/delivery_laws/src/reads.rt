//! What a partition reads of a sampling port, by the run of the port's link.
ghost use Rattle.std.specs.Prelude.{◌≡◌, ℕ, List};
ghost use Rattle.link_core.specs.Counted.{port_no};
ghost use Rattle.triple_buffer.specs.Moments.{BufferState, HasNoMark, LooksAtWord, BufferStep, TookIn, word_in};
ghost use Rattle.triple_buffer.specs.Plays.{BufferSeat, reader_in};
ghost use Rattle.mailbox_port.specs.declared.reading.Reading.{Reading};
ghost use Rattle.mailbox_port.specs.Reads.{IsRead, PortReader, TellsNewest};
ghost use Rattle.receiver.specs.declared.port.PortOutlet.{PortOutlet};
ghost use Rattle.receiver.specs.Link.{Ported, deliveries_of};
ghost use Rattle.delivery_laws.specs.Reads.{IsMomentAt};

/// A read tells the newest message that the run of its port's link had delivered to the port at one moment of the call,
/// with its number and its time, and Empty if none was delivered by then. That is the moment of its load if the load
/// finds no mark, and else the moment right after its exchange. The link is one of a receiver for one task, or of a
/// system of two threads that keeps no frame.
// rule: EMB-8, CONC-17
pub fn a_read_tells_the_newest_that_was_delivered()
    ensures load { (link : Ported PortOutlet) (place longest : ℕ) (s : BufferState) (load : BufferStep) (seat after : BufferSeat) (reader later : PortReader) (before out : List ℕ) (answer : Reading) →
        IsMomentAt link place longest s → LooksAtWord s load seat after → HasNoMark (word_in s) →
        later.mailbox.reader.seen ≡ (reader_in after.0).seen → IsRead reader later before out answer → TellsNewest (deliveries_of link (port_no place)) before out answer }
    ensures exchange { (link : Ported PortOutlet) (place longest found : ℕ) (s : BufferState) (swap : BufferStep) (seat after : BufferSeat) (reader later : PortReader) (before out : List ℕ) (answer : Reading) →
        IsMomentAt link place longest s → TookIn s swap found seat after →
        later.mailbox.reader.seen ≡ (reader_in after.0).seen → IsRead reader later before out answer → TellsNewest (deliveries_of link (port_no place)) before out answer }
{}
