//! A sampling port as a machine: its words, what the writer and each reader know, and every step that one of them can
//! take, as data (ARINC 664 Part 7, sampling ports; the protocol is own). A list of events is one interleaving of the
//! writer and the readers, and the laws hold for every list: no slot is written while a reader holds it, and a held
//! message is whole and was the newest at the second look. A step that isn't allowed is refused, and changes nothing.
#![tactic(auto)]

mod event;
pub mod laws;
mod look;
mod machine;
mod message;
mod reader;
mod schedule;
mod steps;
mod turns;
mod view;
pub mod without;

pub use event::{CoreEvent, StepRefusal};
pub use look::WriterPhase;
pub use machine::Core;
pub use message::MessageWords;
pub use schedule::run;
pub use view::{
    LONGEST_MESSAGE, MOST_MESSAGES, MOST_SLOTS, Phase, READERS, ReaderView, SLOTS, TABLE_WORDS,
    WORDS, WriterView,
};
