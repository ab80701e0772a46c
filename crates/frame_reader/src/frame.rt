//! Frames (ARINC 664 Part 7, frame format).
ghost use Rattle.std.specs.Prelude.{◌≡◌, ◌≤◌, length, IfOk};
ghost use Rattle.es_base.specs.Returns.{Gives};
ghost use Rattle.es_base.specs.Limits.{shortest_frame, longest_frame};
ghost use Rattle.es_base.specs.Frame.{IsFrame, ethertype_of, ethertype_ipv4, link_number_of, sequence_number_of, inner_of, frame_of};

use crate::field::{u16_at, u32_at};
use es_base::{FrameFault, LinkNo};

/// Shortest frame, in octets: 64 of an Ethernet frame less its FCS of 4.
const SHORTEST: usize = 60;

/// Longest frame, in octets: 1518 less the FCS.
const LONGEST: usize = 1514;

/// Offset of the VL's number: the last two octets of the destination MAC address.
const LINK_NUMBER: usize = 4;

/// Offset of the EtherType: after two MAC addresses of 6 octets.
const ETHERTYPE: usize = 12;

const ETHERTYPE_IPV4: u16 = 0x0800;

/// Offset of the IPv4 packet: after the EtherType.
const INNER: usize = 14;

/// A frame of a virtual link, without its FCS: 60 to 1514 octets, with the EtherType of IPv4.
#[derive(Clone, Copy)]
pub struct Frame<'a> {
    /// The link number.
    pub vl: LinkNo,
    /// Sequence number, 0 to 255: the frame's last octet.
    pub sequence_number: u8,
    /// The octets between the EtherType and the sequence number: an IPv4 packet and padding.
    pub inner: &'a [u8],
    /// The whole frame.
    pub whole: &'a [u8],
    pub ghost short: { shortest_frame ≤ length whole.now },
    pub ghost long: { length whole.now ≤ longest_frame },
    pub ghost carries: { ethertype_of whole.now ≡ ethertype_ipv4 },
    pub ghost vl_is: { vl.0 ≡ link_number_of whole.now },
    pub ghost sequence_number_is: { sequence_number ≡ sequence_number_of whole.now },
    pub ghost inner_is: { inner.now ≡ inner_of whole.now },
}

/// Reads a frame of 60 to 1514 octets that begins with the network's constant field.
pub fn read_frame(constant: [u8; 4], bytes: &[u8]) -> Result<Frame<'_>, FrameFault>
    ensures parts { Gives (λ frame. record {
      link_number = frame.vl.0;
      sequence_number = frame.sequence_number;
      inner = frame.inner.now;
    }) result (frame_of constant bytes.now) }
    ensures whole { IfOk result (λ frame. frame.whole.now ≡ bytes.now) }
{
    if bytes.len() < SHORTEST {
        return Err(FrameFault::TooShort);
    }
    if bytes.len() > LONGEST {
        return Err(FrameFault::TooLong);
    }
    if u16_at(bytes, ETHERTYPE) != ETHERTYPE_IPV4 {
        return Err(FrameFault::NotIp);
    }
    if u32_at(bytes, 0) != u32_at(&constant, 0) {
        return Err(FrameFault::ForeignConstant);
    }
    Ok(frame_in(bytes))
}

/// The frame in octets that `read_frame` accepts.
pub fn frame_in(bytes: &[u8]) -> Frame<'_>
    requires { IsFrame bytes.now }
    ensures { result.whole.now ≡ bytes.now }
{
    let last = bytes.len() - 1;
    Frame {
        vl: LinkNo(u16_at(bytes, LINK_NUMBER)),
        sequence_number: bytes[last],
        inner: &bytes[INNER..last],
        whole: bytes,
    }
}
