//! What is asked of senders and networks can be met by the past of a link, and by two traces.
ghost use Rattle.std.specs.Prelude.{◌≡◌, ℕ, [], ◌∷◌, Option, reverse};
ghost use Rattle.link_rules.specs.Deliveries.{deliveries};
ghost use Rattle.es_base.specs.Past.{AreFramesOf};
ghost use Rattle.link_rules.specs.Run.{IsRun};
ghost use Rattle.datagram_delivery.specs.Interleaved.{BringDatagrams, messages_ended};
ghost use Rattle.trace_player.specs.Histories.{past_after};
ghost use Rattle.trace_player.specs.Merge.{merged};
ghost use Rattle.delivery_laws.specs.Reported.{AreWritten};
ghost use Rattle.delivery_example.specs.Traces.{trace_of_a, trace_of_b};
ghost use Rattle.delivery_example.specs.Example.{configuration, link_with_nav, nav_message, nav, past, sent, past_if_b_is_first, sent_if_b_is_first};

/// The past of a link can meet all that is asked, and be a run of its rules: two fragments come on network B, and the
/// first on A as well, before or after its copy, while A loses the second. So the port gets the message once.
pub fn the_conditions_can_be_met_by_a_run()
    ensures run { IsRun link_with_nav past }
    ensures frames { AreFramesOf link_with_nav past }
    ensures brought { BringDatagrams link_with_nav past sent }
    ensures delivered { deliveries link_with_nav past nav ≡ nav_message ∷ [] }
    ensures run_if_b_is_first { IsRun link_with_nav past_if_b_is_first }
    ensures brought_if_b_is_first { BringDatagrams link_with_nav past_if_b_is_first sent_if_b_is_first }
{}

/// The player's output of two traces of these frames has the message once, among the lines of the link's port.
pub fn the_player_reports_the_message()
    ensures past { past_after configuration.constant link_with_nav (reverse (merged trace_of_a trace_of_b)) ≡ past }
    ensures ended { messages_ended nav sent ≡ nav_message ∷ [] }
    ensures written { (asked : Option ℕ) → AreWritten configuration trace_of_a trace_of_b asked link_with_nav sent }
{}
