//! What a link was given, compared with its history.
use block_list::BlockList;
use es_base::{Event, Net, Verdict};

/// A frame that a link was given, and what became of it.
#[derive(Drop)]
pub struct Given {
    pub net: Net,
    /// In microseconds.
    pub time: u64,
    pub frame: Vec<u8>,
    /// The place of its event among all events of the link, from 0.
    pub place: u64,
    pub verdict: Verdict,
}

impl Given {
    /// The event of this frame stands at its place, in events of which the first has the place `first`.
    pub fn stands_in(&self, first: u64, events: &BlockList<Event>) -> bool {
        match events.get(self.place.wrapping_sub(first) as usize) {
            Some(event) => self.is_of(event),
            None => false,
        }
    }

    /// The event is of this frame.
    fn is_of(&self, event: &Event) -> bool {
        event.net == self.net
            && event.time == self.time
            && event.frame.as_slice() == self.frame.as_slice()
            && event.verdict == self.verdict
    }
}
