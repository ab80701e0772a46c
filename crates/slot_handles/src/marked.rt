//! Contents of a handle's room: the mark of its kind, and its slot. A call looks at the mark before it touches the
//! slot, so that a room in which no slot of its kind was made is refused, and isn't written.
ghost use Rattle.std.specs.Prelude.{◌≡◌};

use receiver_slots::{ReaderSlot, ReceiverSlot, TakerSlot};

/// The mark of the room of a receiver.
pub const RECEIVER: u64 = 0x5EC1_7E52_A664_0001;
/// The mark of the room of a reader.
pub const READER: u64 = 0x5EC1_7E52_A664_0002;
/// The mark of the room of a taker.
pub const TAKER: u64 = 0x5EC1_7E52_A664_0003;

/// The room of a receiver: its slot was made if the mark is [`RECEIVER`].
#[repr(C)]
#[derive(Drop)]
pub struct MarkedReceiver {
    pub mark: u64,
    pub slot: ReceiverSlot,
}

impl MarkedReceiver {
    ghost use Rattle.slot_handles.specs.Made.{made_receiver};

    pub fn new() -> MarkedReceiver
        ensures { result ≡ made_receiver }
    {
        MarkedReceiver {
            mark: RECEIVER,
            slot: ReceiverSlot::new(),
        }
    }
}

/// The room of a reader: its slot was made if the mark is [`READER`].
#[repr(C)]
#[derive(Drop)]
pub struct MarkedReader {
    pub mark: u64,
    pub slot: ReaderSlot,
}

impl MarkedReader {
    ghost use Rattle.slot_handles.specs.Made.{made_reader};

    pub fn new() -> MarkedReader
        ensures { result ≡ made_reader }
    {
        MarkedReader {
            mark: READER,
            slot: ReaderSlot::new(),
        }
    }
}

/// The room of a taker: its slot was made if the mark is [`TAKER`].
#[repr(C)]
#[derive(Drop)]
pub struct MarkedTaker {
    pub mark: u64,
    pub slot: TakerSlot,
}

impl MarkedTaker {
    ghost use Rattle.slot_handles.specs.Made.{made_taker};

    pub fn new() -> MarkedTaker
        ensures { result ≡ made_taker }
    {
        MarkedTaker {
            mark: TAKER,
            slot: TakerSlot::new(),
        }
    }
}
