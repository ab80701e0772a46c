//! The greatest configuration: 64 links with numbers that lie far apart, the last of which has 32 ports; and frames for
//! its ports.
use crate::frames::{IP, frame_of};
use std::alloc::Global;

/// Number of links.
pub const GREATEST_LINKS: u16 = 64;
/// Number of ports of the last link. The others have none.
pub const GREATEST_PORTS: u16 = 32;

/// The number of the link at this place: 0, 256, 512 and so on, and 65535 of the last.
pub fn greatest_number_at(place: u16) -> u16 {
    if place == GREATEST_LINKS - 1 {
        u16::MAX
    } else {
        place.wrapping_mul(256)
    }
}

/// Whether the port at this place samples; else it queues.
pub fn greatest_samples(port: u16) -> bool {
    port % 2 == 0
}

/// The text of a port: its name is `p` and its place, and its UDP port 5000 and as many as its place.
fn port_text(alloc: Global, port: u16) -> Option<String> {
    let udp = port.wrapping_add(5000);
    let kind = if greatest_samples(port) {
        "sampling"
    } else {
        "queuing"
    };
    format!(in alloc;
        "[[link.port]]\nname = \"p{port}\"\nkind = \"{kind}\"\naddress = \"224.224.0.17\"\n\
        udp = {udp}\nmax = 17\nrefresh_us = 1000000\ndepth = 1\n"
    )
    .ok()
}

/// The text of this configuration. None if memory runs out.
pub fn greatest_text(alloc: Global) -> Option<String> {
    let mut all = String::new(alloc);
    for place in 0..GREATEST_LINKS {
        let vl = greatest_number_at(place);
        writeln!(
            all,
            "[[link]]\nvl = {vl}\nskew_max_us = 1000\nreassembly_us = 0"
        )
        .ok()?;
    }
    for port in 0..GREATEST_PORTS {
        let text = port_text(alloc, port)?;
        all.push_str(text.as_str()).ok()?;
    }
    Some(all)
}

/// The payload of the messages for the port at this place: 17 octets, the first of which is its place. None if memory
/// runs out.
pub fn greatest_payload(alloc: Global, port: u16) -> Option<String> {
    format!(in alloc; "{port:02x}02030405060708090a0b0c0d0e0f1011").ok()
}

/// The smallest frame of the link with this number for the port at this place. None if memory runs out.
pub fn greatest_frame(alloc: Global, vl: u16, port: u16, sequence_number: u8) -> Option<Vec<u8>> {
    let ethernet = format!(in alloc; "03000000{vl:04x}0200000001200800").ok()?;
    let udp_port = port.wrapping_add(5000);
    let udp = format!(in alloc; "1389{udp_port:04x}00190000").ok()?;
    let payload = greatest_payload(alloc, port)?;
    let texts = [ethernet.as_str(), IP, udp.as_str(), payload.as_str()];
    frame_of(alloc, &texts, sequence_number).ok()
}
