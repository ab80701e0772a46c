//! The player's report on a link, by the messages that were sent to it.
ghost use Rattle.std.specs.Prelude.{◌≡◌, ℕ, List, Option, Some, reverse, slice_get};
ghost use Rattle.es_base.specs.declared.event.Arrival.{Arrival};
ghost use Rattle.es_base.specs.Config.{Configuration};
ghost use Rattle.link_rules.specs.Outcome.{Payload};
ghost use Rattle.es_base.specs.Port.{Port};
ghost use Rattle.es_base.specs.Settings.{Settings};
ghost use Rattle.hex_trace.specs.Frames.{TimedFrame};
ghost use Rattle.output_lines.specs.Report.{link_lines};
ghost use Rattle.trace_player.specs.Histories.{past_after};
ghost use Rattle.trace_player.specs.Merge.{merged};
ghost use Rattle.datagram_delivery.specs.Arriving.{Arrives};
ghost use Rattle.datagram_delivery.specs.Interleaved.{BringDatagrams, Carried};
ghost use Rattle.delivery_laws.specs.Reported.{AreWritten, IsReported, lines_offered, lines_sent};

/// The report's lines on a link's ports are those of the packets of the forwarded frames in both traces, each offered
/// once, and of no other message. They are in the output of the traces, which `trace_player::play` writes; nobody takes
/// a message from a queue of the player. So each message that arrives (`Arrives`) is among those that are written for
/// its port: a copy passed of its frame, or of the frame of each of its fragments, since any fault was over and before
/// those of later frames, and its queue had room. Which others were lost or overtaken doesn't matter, nor what came
/// later. And if the copies that pass are of a sender's frames, in time, and each packet of those that aren't overtaken
/// is the next of its datagram (`BringDatagrams`), exactly the messages of these datagrams are written, in the order of
/// ending. A queuing port's messages have a line each; of a sampling port's the newest has one.
pub fn each_message_is_reported_once()
    ensures offered { (constant : List ℕ) (link : Settings) (frames : List Arrival) (at : ℕ) → link_lines at link (past_after constant link frames) ≡ lines_offered link (past_after constant link frames) at }
    ensures lines { (constant : List ℕ) (link : Settings) (frames : List Arrival) (carried : List Carried) (at : ℕ) → BringDatagrams link (past_after constant link frames) carried
        → link_lines at link (past_after constant link frames) ≡ lines_sent link carried at }
    ensures written { (c : Configuration) (a b : List TimedFrame) (asked : Option ℕ) (place : ℕ) (link : Settings) (carried : List Carried) → slice_get c.links place ≡ Some link
        → BringDatagrams link (past_after c.constant link (reverse (merged a b))) carried → AreWritten c a b asked link carried }
    ensures arrived { (c : Configuration) (a b : List TimedFrame) (asked : Option ℕ) (place : ℕ) (link : Settings) (port : Port) (payload : Payload) (time : ℕ) → slice_get c.links place ≡ Some link
        → slice_get link.ports payload.port.0 ≡ Some port → (one : Arrives link (past_after c.constant link (reverse (merged a b))) payload time) → IsReported c a b asked link port payload time one }
{}
