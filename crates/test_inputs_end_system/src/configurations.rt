//! Configurations of one link and of many, a frame for each link, and frames that come to no link.
use es_base::FilterCause::{ForeignConstant, NotIp, TooLong, TooShort, UnknownLink};
use es_base::{Config, FilterCause};
use std::alloc::Global;
use test_inputs::{longest, smallest};
use vl_config::read_config;

/// The configuration that these texts say, one after another. None if memory runs out or a text is refused.
pub fn config_of(alloc: Global, texts: &[&str]) -> Option<Config> {
    let mut all = String::new(alloc);
    for text in texts {
        all.push_str(text).ok()?;
    }
    read_config(alloc, all.as_str()).ok()
}

/// The text of a link with this number and one sampling port, which has the number in its name.
fn link_text(alloc: Global, vl: u16) -> Option<String> {
    let [high, low] = vl.to_be_bytes();
    format!(in alloc;
        "[[link]]\nvl = {vl}\nskew_max_us = 1000\nreassembly_us = 50000\n\n\
        [[link.port]]\nname = \"p{vl}\"\nkind = \"sampling\"\naddress = \"224.224.{high}.{low}\"\n\
        udp = 5000\nrefresh_us = 20000\n\n"
    )
    .ok()
}

/// A configuration of links with these numbers, each with one sampling port. None if memory runs out or a limit is
/// broken.
pub fn sampling_links(alloc: Global, numbers: &[u16]) -> Option<Config> {
    let mut all = String::new(alloc);
    for vl in numbers {
        let text = link_text(alloc, *vl)?;
        all.push_str(text.as_str()).ok()?;
    }
    read_config(alloc, all.as_str()).ok()
}

/// The header checksum of the smallest frame if its destination were 224.224.0.0. One less for each address more.
const CHECKSUM: u16 = 0xcddd;

/// Writes a number in two octets, the higher one first.
fn put(octets: &mut [u8], at: usize, number: u16) {
    for (octet, byte) in octets.iter_mut().skip(at).zip(number.to_be_bytes()) {
        *octet = byte;
    }
}

/// The smallest frame for the sampling port of the link with this number: link number, destination address and header
/// checksum are the link's, whose number is at most 50,000. None if memory runs out.
pub fn smallest_for(alloc: Global, vl: u16, sequence_number: u8) -> Option<Vec<u8>> {
    let mut frame = smallest(alloc, sequence_number).ok()?;
    put(&mut frame, 4, vl);
    put(&mut frame, 24, CHECKSUM.wrapping_sub(vl));
    put(&mut frame, 32, vl);
    Some(frame)
}

/// The smallest frame with this number in place of the two octets at this place. None if memory runs out.
fn smallest_with(alloc: Global, at: usize, number: u16) -> Option<Vec<u8>> {
    let mut frame = smallest(alloc, 0).ok()?;
    put(&mut frame, at, number);
    Some(frame)
}

/// The first 59 octets of the smallest frame. None if memory runs out.
fn too_short(alloc: Global) -> Option<Vec<u8>> {
    let mut frame = smallest(alloc, 0).ok()?;
    frame.truncate(59);
    Some(frame)
}

/// The longest frame, and one octet more. None if memory runs out.
fn too_long(alloc: Global) -> Option<Vec<u8>> {
    let mut frame = longest(alloc, 0).ok()?;
    frame.push(0).ok()?;
    Some(frame)
}

/// A frame that is filtered, and its cause.
pub type Filtered = (FilterCause, Vec<u8>);

/// A frame that is filtered for each cause, if no link has the number `unknown`. None if memory runs out.
pub fn filtered_frames(alloc: Global, unknown: u16) -> Option<[Filtered; 5]> {
    Some([
        (TooShort, too_short(alloc)?),
        (TooLong, too_long(alloc)?),
        (NotIp, smallest_with(alloc, 12, 0x0806)?),
        (ForeignConstant, smallest_with(alloc, 2, 0x0001)?),
        (UnknownLink, smallest_with(alloc, 4, unknown)?),
    ])
}
