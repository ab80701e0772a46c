//! Deliveries of an end system, by the messages that were sent to it.
ghost use Rattle.std.specs.Prelude.{List};
ghost use Rattle.es_base.specs.declared.place.Net.{Net};
ghost use Rattle.link_receiver.specs.Link.{Link};
ghost use Rattle.end_system.specs.declared.ends.LinkEnds.{LinkEnds};
ghost use Rattle.network_calls.specs.Ended.{HasSettled};
ghost use Rattle.network_calls.specs.Passes.{System};
ghost use Rattle.network_calls.specs.Threads.{BothPasses};
ghost use Rattle.end_system.specs.Pass.{KnownLink};
ghost use Rattle.end_system.specs.Run.{AreOpened, Ran, Step};
ghost use Rattle.network_calls.specs.Counts.{KnownCounts};
ghost use Rattle.end_system.specs.System.{keeping_history};
ghost use Rattle.delivery_laws.specs.Histories.{DeliversEach};
ghost use Rattle.delivery_laws.specs.Holding.{EachHolds};

/// Each port of a link was given what the packets of the forwarded frames bring, each offered once, and no other
/// message, however many frames the threads of both networks gave to the system since its opening, and whatever epochs
/// they took out. So each message that arrives (`Arrives`) was given to its port, at a place of its own: a copy passed
/// of its frame, or of the frame of each of its fragments, since any fault was over and before those of later frames,
/// and its queue had room. Which others were lost or overtaken doesn't matter, nor what came later. And if the copies
/// that pass are of a sender's frames, in time, and each packet of those that aren't overtaken is the next of its
/// datagram (`BringDatagrams`), exactly the messages of these datagrams were given, in the order of ending.
pub fn each_message_is_given_once()
    ensures { (system : System) (first last : BothPasses KnownLink) (ends : List LinkEnds) (steps : List (Net × Step)) (links : List Link) (a b : KnownCounts) →
        AreOpened system first ends → Ran system first steps last → HasSettled keeping_history system last links a b → DeliversEach system steps ends links }
{}

/// So the ports of a settled link hold exactly these messages, over all its epochs: a queue's putter has put them, a
/// sampling port's writer has published their words. A taker or a reader that meets the link then has them all, and no
/// other.
pub fn each_port_holds_its_messages()
    ensures { (system : System) (first last : BothPasses KnownLink) (ends : List LinkEnds) (steps : List (Net × Step)) (links : List Link) (a b : KnownCounts) →
        AreOpened system first ends → Ran system first steps last → HasSettled keeping_history system last links a b → EachHolds system ends links }
{}
