//! What comes in on each network.
use es_base::Octets;
use hex::FromHexError;
use std::alloc::{AllocError, Global};
use std::process::Abort;
use test_inputs::{ETHERNET, IP, PAYLOAD, UDP, frame_of};

/// How many frames the sender sends, which come on both networks: half of them for each port.
pub(crate) const FRAMES: u8 = 100;

/// The UDP header for `nav`.
const NAV_UDP: &str = "1389138a00190000";

/// A frame as a network's card hands it over.
#[derive(Drop)]
pub(crate) struct Received {
    /// When it came, in microseconds.
    pub time: u64,
    pub octets: Octets,
}

/// The frame with this sequence number, 1 to `FRAMES`: for `pos` if it is odd, else for `nav`.
fn frame(alloc: Global, sequence_number: u8) -> Result<Vec<u8>, FromHexError> {
    let udp = if sequence_number % 2 == 1 {
        UDP
    } else {
        NAV_UDP
    };
    frame_of(alloc, &[ETHERNET, IP, udp, PAYLOAD], sequence_number)
}

/// Arrivals on a network: the frames, a millisecond apart, each this many microseconds after it was sent.
fn on_network(alloc: Global, late: u64) -> Result<Vec<Received>, AllocError> {
    let mut frames = Vec::new(alloc);
    for sequence_number in 1..=FRAMES {
        let Ok(octets) = frame(alloc, sequence_number) else {
            return Err(AllocError);
        };
        frames.push(Received {
            time: u64::from(sequence_number) * 1000 + (late % 1000),
            octets: Octets::from(octets),
        })?;
    }
    Ok(frames)
}

/// The same arrivals, for which there is memory.
pub(crate) fn arrivals(rt: &impl Abort, alloc: Global, late: u64) -> Vec<Received> {
    on_network(alloc, late).expect(rt, "memory")
}
