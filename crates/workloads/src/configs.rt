//! Configurations of many links.
use crate::refused;
use es_base::Config;
use std::alloc::Global;
use std::io;
use vl_config::read_config;

/// The number of the first link.
pub(crate) const FIRST_LINK: u16 = 100;

/// The UDP port of the first sampling port of each link, and of the first queuing port.
pub(crate) const SAMPLING_UDP: u16 = 5000;

pub(crate) const QUEUING_UDP: u16 = 6000;

/// How many messages a queue holds.
pub(crate) const DEPTH: usize = 64;

/// Size of a configuration: links, and ports of each kind a link.
#[derive(Clone, Copy)]
pub(crate) struct Shape {
    pub links: u8,
    pub sampling: u8,
    pub queuing: u8,
    /// Whether both copies of a frame are told apart.
    pub redundancy: bool,
}

/// The number of the link at a place.
pub(crate) fn link_number(place: u8) -> u16 {
    FIRST_LINK.wrapping_add(u16::from(place))
}

fn push_ports(alloc: Global, text: &mut String, shape: Shape, link: u8) -> io::Result<()> {
    for place in 0..shape.sampling {
        let udp = SAMPLING_UDP.wrapping_add(u16::from(place));
        text.push_str(format!(in alloc; "[[link.port]]\nname = \"s{link}-{place}\"\n")?.as_str())?;
        text.push_str(format!(in alloc;
            "address = \"224.224.{link}.1\"\nudp = {udp}\n"
        )?.as_str())?;
        text.push_str("kind = \"sampling\"\nrefresh_us = 100000\n")?;
    }
    for place in 0..shape.queuing {
        let udp = QUEUING_UDP.wrapping_add(u16::from(place));
        text.push_str(format!(in alloc; "[[link.port]]\nname = \"q{link}-{place}\"\n")?.as_str())?;
        text.push_str(format!(in alloc;
            "address = \"224.224.{link}.1\"\nudp = {udp}\n"
        )?.as_str())?;
        text.push_str(format!(in alloc; "kind = \"queuing\"\ndepth = {DEPTH}\n")?.as_str())?;
    }
    Ok(())
}

/// The document of a configuration of this shape.
pub(crate) fn config_text(alloc: Global, shape: Shape) -> io::Result<String> {
    let mut text = String::new(alloc);
    let redundancy = shape.redundancy;
    for link in 0..shape.links {
        let vl = link_number(link);
        text.push_str(format!(in alloc;
            "[[link]]\nvl = {vl}\nredundancy = {redundancy}\n"
        )?.as_str())?;
        text.push_str("skew_max_us = 5000\nreassembly_us = 2000000\n")?;
        push_ports(alloc, &mut text, shape, link)?;
    }
    Ok(text)
}

/// The configuration of this shape.
pub(crate) fn config_of(alloc: Global, shape: Shape) -> io::Result<Config> {
    let text = config_text(alloc, shape)?;
    match read_config(alloc, text.as_str()) {
        Ok(config) => Ok(config),
        Err(_) => Err(refused()),
    }
}
