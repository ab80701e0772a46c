//! Deliveries of a live system, by the messages that were sent to it.
ghost use Rattle.std.specs.Prelude.{ℕ, List};
ghost use Rattle.es_base.specs.declared.place.Net.{Net};
ghost use Rattle.es_base.specs.Port.{Port};
ghost use Rattle.receiver.specs.declared.ends.LinkEnds.{LinkEnds};
ghost use Rattle.receiver.specs.declared.partition.PartitionEnd.{PartitionEnd};
ghost use Rattle.network_calls.specs.Counts.{KnownCounts};
ghost use Rattle.live_system.specs.Calls.{LiveLink};
ghost use Rattle.network_calls.specs.Ended.{HasSettled};
ghost use Rattle.network_calls.specs.Passes.{System};
ghost use Rattle.network_calls.specs.Threads.{BothPasses};
ghost use Rattle.live_system.specs.Pass.{KnownLink};
ghost use Rattle.live_system.specs.Run.{AreOpened, Ran, Step};
ghost use Rattle.live_system.specs.System.{keeping_no_frame};
ghost use Rattle.delivery_laws.specs.Live.{DeliversEach};

/// Each port of a link was given what the packets of the forwarded frames bring, each offered once, and no other
/// message, however many frames the threads of both networks gave to the system since its opening, by whatever calls,
/// and whatever ends met their ports in between. So each message that arrives (`Arrives`) was given to its port, at a
/// place of its own: a copy passed of its frame, or of the frame of each of its fragments, since any fault was over and
/// before those of later frames, and its queue had room. Which others were lost or overtaken doesn't matter, nor what
/// came later. And if the copies that pass are of a sender's frames, in time, and each packet of those that aren't
/// overtaken is the next of its datagram (`BringDatagrams`), exactly the messages of these datagrams were given, in the
/// order of ending.
pub fn each_message_is_given_once()
    ensures { (readers : Port → ℕ) (system : System) (first last : BothPasses KnownLink) (ends : List (LinkEnds PartitionEnd)) (steps : List (Net × Step)) (links : List LiveLink) (a b : KnownCounts) →
        AreOpened readers system first ends → Ran system first steps last → HasSettled keeping_no_frame system last links a b → DeliversEach readers system steps ends links }
{}
