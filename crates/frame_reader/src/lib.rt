//! Reads frames, IPv4 packets and UDP datagrams, and finds the link that a frame comes to. Every part is
//! lent as a slice of the input, and every fault is the first in the stated order: what is returned is
//! exactly what the definition reads. No memory is taken.
#![tactic(auto)]

mod addressing;
mod datagram;
mod field;
mod frame;
mod packet;

pub use addressing::read_addressed;
pub use datagram::{Datagram, UDP_HEADER, UdpHead, read_udp, read_udp_head};
pub use es_base::{FrameFault, PacketFault, UdpFault};
pub use frame::{Frame, frame_in, read_frame};
pub use packet::{Packet, read_packet};
