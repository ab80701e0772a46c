//! Packets given to a Reassembly one after another.
use frame_reader::{Packet, read_frame, read_packet};
use ip_reassembly::{Offered, Preview, Reassembly};
use std::alloc::Global;
use std::process::Abort;
use test_inputs::fragments::{JOINED, PacketName, padding_after};
use test_inputs::{CONSTANT, ETHERNET, frame_of};

/// How long pieces are waited for, in microseconds.
const LIMIT: u64 = 50_000;

/// Fate of a packet. Octets are hexadecimal texts.
#[derive(Clone, Copy)]
pub(crate) enum Fate {
    Bad,
    Held,
    /// The packet has this datagram whole.
    Alone(&'static str),
    /// Pieces were joined to this datagram.
    Joined(&'static str),
    /// `First` and `Last` were joined, to `JOINED`.
    Completed,
}

impl Fate {
    /// The datagram, if any, and whether it was joined.
    fn datagram(self) -> (&'static str, bool) {
        match self {
            Fate::Bad | Fate::Held => ("", false),
            Fate::Alone(text) => (text, false),
            Fate::Joined(text) => (text, true),
            Fate::Completed => (JOINED, true),
        }
    }
}

/// A packet, its time in microseconds, and what becomes of it.
pub(crate) type Step = (PacketName, u64, Fate);

/// A new Reassembly does this with these packets.
pub(crate) fn check(rt: &impl Abort, alloc: Global, steps: &[Step]) {
    let mut reassembly = Reassembly::new(alloc, LIMIT).expect(rt, "memory");
    assert!(rt; reassembly.limit() == LIMIT);
    check_steps(rt, alloc, &mut reassembly, steps);
}

/// A new Reassembly does this with these packets, and has given up so many partial datagrams then.
pub(crate) fn check_given_up(rt: &impl Abort, alloc: Global, steps: &[Step], given_up: u64) {
    let mut reassembly = Reassembly::new(alloc, LIMIT).expect(rt, "memory");
    check_steps(rt, alloc, &mut reassembly, steps);
    assert!(rt; reassembly.given_up() == given_up);
}

/// A Reassembly is copied after the steps of `before`, and another goes on from the pieces that wait then. It, its copy
/// and that other each do the steps of `after`.
pub(crate) fn check_copied(rt: &impl Abort, alloc: Global, before: &[Step], after: &[Step]) {
    let mut first = Reassembly::new(alloc, LIMIT).expect(rt, "memory");
    check_steps(rt, alloc, &mut first, before);
    let mut copy = first.copy(alloc).expect(rt, "memory");
    let waiting = first.waiting(alloc).expect(rt, "memory");
    let mut other = waiting.begin(alloc).expect(rt, "memory");
    check_steps(rt, alloc, &mut copy, after);
    check_steps(rt, alloc, &mut other, after);
    check_steps(rt, alloc, &mut first, after);
    assert!(rt; copy.given_up() == first.given_up());
    assert!(rt; other.given_up() == first.given_up());
}

fn check_steps(rt: &impl Abort, alloc: Global, reassembly: &mut Reassembly, steps: &[Step]) {
    for (packet, time, fate) in steps {
        check_step(rt, alloc, reassembly, *packet, *time, *fate);
    }
}

fn check_step(
    rt: &impl Abort,
    alloc: Global,
    reassembly: &mut Reassembly,
    name: PacketName,
    time: u64,
    fate: Fate,
) {
    let octets = frame_octets(rt, alloc, name);
    let packet = packet_from(rt, &octets);
    let (text, joined) = fate.datagram();
    let datagram = hex::decode(alloc, text).expect(rt, "a datagram");
    check_preview(
        rt,
        reassembly.preview(&packet, time),
        fate,
        &datagram,
        joined,
    );
    check_offered(rt, reassembly.offer(&packet, time), fate, &datagram, joined);
}

/// The octets of the frame with this packet.
fn frame_octets(rt: &impl Abort, alloc: Global, name: PacketName) -> Vec<u8> {
    let (ip, octets) = name.texts();
    let texts = [ETHERNET, ip, octets, padding_after(octets)];
    frame_of(alloc, &texts, 0).expect(rt, "octets")
}

/// The packet of the frame of these octets.
fn packet_from<'a>(rt: &impl Abort, octets: &'a [u8]) -> Packet<'a> {
    let frame = read_frame(CONSTANT, octets).expect(rt, "a frame");
    read_packet(&frame).expect(rt, "a packet")
}

fn check_preview(rt: &impl Abort, preview: Preview, fate: Fate, datagram: &[u8], joined: bool) {
    let expected = match fate {
        Fate::Bad => Preview::Bad,
        Fate::Held => Preview::Held,
        _ => whole(datagram, joined),
    };
    assert!(rt; preview == expected);
}

fn whole(octets: &[u8], joined: bool) -> Preview {
    let mut head = [0; 8];
    for i in 0..octets.len().min(8) {
        head[i] = octets[i];
    }
    Preview::Whole {
        len: octets.len(),
        head,
        joined,
    }
}

fn check_offered(
    rt: &impl Abort,
    offered: Offered<'_>,
    fate: Fate,
    datagram: &[u8],
    is_joined: bool,
) {
    match (offered, fate) {
        (Offered::Bad, Fate::Bad) | (Offered::Held, Fate::Held) => {}
        (Offered::Whole { octets, joined }, Fate::Alone(_) | Fate::Joined(_) | Fate::Completed) =>
            assert!(rt; octets == datagram && joined == is_joined),
        _ => assert!(rt; false, "another fate"),
    }
}
