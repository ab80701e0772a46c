//! What holds of all calls of both networks.
ghost use Rattle.std.specs.Prelude.{ℕ, List, Option};
ghost use Rattle.es_base.specs.Config.{Configuration};
ghost use Rattle.es_base.specs.declared.place.Net.{Net};
ghost use Rattle.es_base.specs.declared.place.Net.TheVariants.{A, B};
ghost use Rattle.es_base.specs.declared.place.PortNo.{PortNo};
ghost use Rattle.link_lock.specs.Lists.{both_lists};
ghost use Rattle.mailbox_port.specs.Reads.{PortReader};
ghost use Rattle.message_ring.specs.Queue.{Known};
ghost use Rattle.receiver.specs.declared.ends.LinkEnds.{LinkEnds};
ghost use Rattle.receiver.specs.declared.partition.PartitionEnd.{PartitionEnd};
ghost use Rattle.receiver.specs.declared.port.PortOutlet.{PortOutlet};
ghost use Rattle.receiver.specs.declared.receiver.Reply.{Reply};
ghost use Rattle.es_base.specs.Port.{Port};
ghost use Rattle.receiver.specs.Meetings.{HasOutlet};
ghost use Rattle.receiver.specs.Port.{IsPortOf, IsQueueOf};
ghost use Rattle.receiver.specs.Receiver.{Links};
ghost use Rattle.network_calls.specs.declared.call.Call.{Call};
ghost use Rattle.network_calls.specs.Calls.{user_of};
ghost use Rattle.network_calls.specs.Places.{StandInTheRun};
ghost use Rattle.network_calls.specs.Counts.{KnownCounts};
ghost use Rattle.network_calls.specs.Ended.{HasSettled};
ghost use Rattle.network_calls.specs.Passes.{KnownNet, System};
ghost use Rattle.network_calls.specs.Threads.{BothPasses, steps_of};
ghost use Rattle.live_system.specs.Calls.{LiveLink, events_of};
ghost use Rattle.live_system.specs.Meetings.{KnowsOutlet};
ghost use Rattle.live_system.specs.Pass.{IsSettled, KnownLink};
ghost use Rattle.live_system.specs.Run.{AreOpened, HasEnded, Ran, RanAlone, Step};
ghost use Rattle.live_system.specs.System.{KnowLinks, Replies, keeping_no_frame};

/// Each call of either network that a settled link's passes know is the event at its place of the link: with its
/// network, its time, its frame and its verdict, which is that of the frame after the events before it. A network's
/// calls are in their order, and each event is of one call.
pub fn each_reply_stands_at_its_place()
    ensures { (link : Option LiveLink) (a b : List Call) (settled : LiveLink) → IsSettled link a b settled →
        StandInTheRun (λ net. both_lists a b (user_of net)) settled.core.settings (events_of settled) }
{}

/// An end of an outlet of the links as they were opened may meet it, by a pass that knows these links.
pub fn an_end_of_the_opening_may_meet_its_port()
    ensures readers { (passes : List KnownLink) (opened : Links PortOutlet) (place : ℕ) (port : PortNo) (reader : PortReader) → KnowLinks passes opened.links →
        HasOutlet opened place port (λ outlet. IsPortOf outlet reader) → KnowsOutlet passes place port (λ outlet. IsPortOf outlet reader) }
    ensures takers { (passes : List KnownLink) (opened : Links PortOutlet) (place : ℕ) (port : PortNo) (taker : Known) → KnowLinks passes opened.links →
        HasOutlet opened place port (λ outlet. IsQueueOf outlet taker) → KnowsOutlet passes place port (λ outlet. IsQueueOf outlet taker) }
{}

/// A pass keeps its links, whatever frame it gives.
pub fn a_pass_knows_its_links_after_each_frame()
    ensures { (config : Configuration) (old new : KnownNet KnownLink) (now : ℕ) (octets : List ℕ) (reply : Reply) (links : List LiveLink) → Replies config old now octets reply new →
        KnowLinks old.links links → KnowLinks new.links links }
{}

/// The work of the two threads, each with its own pass, is that of both together, in whatever order their calls came.
pub fn threads_run_together()
    ensures { (system : System) (first last : BothPasses KnownLink) (steps : List (Net × Step)) → RanAlone system first.a (steps_of A steps) last.a → RanAlone system first.b (steps_of B steps) last.b →
        Ran system first steps last }
{}

/// After any frames that both networks' threads gave to a system since its opening, in whatever order, and any meetings
/// of its ports with their ends in between: when it is settled, each link's past is one run, and each of its ports was
/// given that run's deliveries; the replies on each network are the events of that network, each at its place; and the
/// counts are those of the calls. A frame that a try answered is one of these calls, as one that waited for its link
/// is; a try that gave up is none.
pub fn from_the_opening_to_the_end()
    ensures { (readers : Port → ℕ) (system : System) (first last : BothPasses KnownLink) (ends : List (LinkEnds PartitionEnd)) (steps : List (Net × Step)) (links : List LiveLink) (a b : KnownCounts) →
        AreOpened readers system first ends → Ran system first steps last → HasSettled keeping_no_frame system last links a b → HasEnded readers system steps ends links a b }
{}
