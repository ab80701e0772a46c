//! The steps of a running port, one call for each kind of the slot core's events: each loads or stores one word of the
//! table. Contracts say which event each is, by its seat's knowledge: `requires` is what the core allows, `ensures`
//! what the core changes. The ends of a port are made of such seats, and make no other steps. Only the opening and a
//! meeting touch the table beside them: they part and join seats, which counts as no step.
pub use crate::open::open_seats;
pub use crate::reader_seat::ReaderSeat;
pub use crate::writer_seat::WriterSeat;
