//! Answers of reassembly to a packet.

use frame_reader::UDP_HEADER;

/// The answer that a packet would get, without the datagram's octets.
#[derive(Clone, Copy, Debug, PartialEq, Eq)]
pub enum Preview {
    /// A fragment that is no piece of a datagram. It changes nothing.
    Bad,
    /// A piece of a datagram that isn't complete.
    Held,
    /// The packet is a whole datagram, or completes one.
    Whole {
        /// Length of the datagram, in octets.
        len: usize,
        /// Its first octets, as many as a UDP header has, zeros past its end.
        head: [u8; UDP_HEADER],
        /// Whether it was joined of pieces.
        joined: bool,
    },
}

/// The answer that a packet gets.
#[derive(Clone, Copy)]
pub enum Offered<'a> {
    /// A fragment that is no piece of a datagram. Nothing has changed.
    Bad,
    /// A piece of a datagram that isn't complete. It is kept.
    Held,
    /// The packet is a whole datagram, or completes one.
    Whole {
        /// The datagram's octets: the packet's own if nothing was joined.
        octets: &'a [u8],
        /// Whether it was joined of pieces.
        joined: bool,
    },
}
