//! Counterexamples without each rule: the contract of each function has one, at a port with eight
//! readers and, but for the last, ten slots.
ghost use Rattle.slot_core.specs.Without.{FailsEarly, FailsInHaste, GetsStuck};

/// Without the second look, if a reader held what it announces, a slot that it holds could be written.
pub fn the_second_look()
    ensures { FailsInHaste 8 10 }
{}

/// If `latest` were stored before the last word of a message, a reader could hold what is no message.
pub fn the_last_word()
    ensures { FailsEarly 8 10 }
{}

/// With nine slots for eight readers the writer could find none free, and would have to wait.
pub fn the_tenth_slot()
    ensures { GetsStuck 8 9 }
{}
