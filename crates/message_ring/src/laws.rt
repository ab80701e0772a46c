//! What holds of a running queue in every state that keeps the rule of its slots, and so at every moment, whatever its
//! two threads do. Each law is a function without work: its contract is the statement.
ghost use Rattle.std.specs.Prelude.{◌≡◌, List};
ghost use Rattle.message_ring.specs.declared.rule.QueuedMessage.{QueuedMessage};
ghost use Rattle.message_ring.specs.Moments.{HavePut, HaveTaken, PutterLooked, QueueState, TakerLooked};
ghost use Rattle.message_ring.specs.Plays.{QueueSeat, putter_in, taker_in};
ghost use Rattle.message_ring.specs.Rule.{KeptQueue};

/// A putter's look tells it all that is taken at one moment of the call, that of its load. So it finds the queue full
/// only if it was full then.
// rule: PORT-17, EMB-7
pub fn a_look_tells_all_that_is_taken()
    ensures { (s : QueueState) (taken : List QueuedMessage) (before after : QueueSeat) →
        KeptQueue s → HaveTaken s taken → PutterLooked s before after → (putter_in after.0).taken ≡ taken }
{}

/// A taker's look tells it all that is put at one moment of the call, that of its load. So it finds no message only if
/// it took all that were put then.
// rule: PORT-11, EMB-10
pub fn a_look_tells_all_that_is_put()
    ensures { (s : QueueState) (put : List QueuedMessage) (before after : QueueSeat) →
        KeptQueue s → HavePut s put → TakerLooked s before after → (taker_in after.0).put ≡ put }
{}
