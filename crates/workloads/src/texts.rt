//! The traces of both networks as texts.
use crate::frames::{CHECKSUM, IDENTIFICATION, Template};
use crate::traffic::Traffic;
use es_base::Memory;
use std::alloc::Global;

/// The digits of hexadecimal numbers.
const DIGITS: [u8; 16] = *b"0123456789abcdef";

/// The line of a frame without its time, as it is written again and again: a space, the digits, and the line's end.
#[derive(Drop)]
struct Line {
    text: Vec<u8>,
}

/// The two digits of an octet.
fn digits_of(octet: u8) -> [u8; 2] {
    [
        DIGITS[usize::from(octet / 16)],
        DIGITS[usize::from(octet % 16)],
    ]
}

fn line_of(alloc: Global, template: &Template) -> Result<Line, Memory> {
    let mut text = Vec::with_capacity(alloc, 3100)?;
    text.push(b' ')?;
    for octet in template.octets.iter() {
        text.extend_from_slice(&digits_of(*octet))?;
    }
    text.push(b'\n')?;
    Ok(Line { text })
}

/// The lines of all templates, link by link.
#[derive(Drop)]
pub(crate) struct Lines {
    links: Vec<Vec<Line>>,
}

pub(crate) fn lines_of(alloc: Global, traffic: &Traffic) -> Result<Lines, Memory> {
    let mut links = Vec::new(alloc);
    for link in 0..traffic.links() {
        let mut lines = Vec::new(alloc);
        for template in traffic.templates(link) {
            lines.push(line_of(alloc, template)?)?;
        }
        links.push(lines)?;
    }
    Ok(Lines { links })
}

/// Adds the digits of a time, in microseconds.
fn add_time(to: &mut Vec<u8>, time: u64) -> Result<(), Memory> {
    let mut digits = [b'0'; 20];
    let mut rest = time;
    let mut from = 19;
    for at in (0..20usize).rev() {
        digits[at] = DIGITS[(rest % 10) as usize];
        rest /= 10;
        from = at;
        if rest == 0 {
            break;
        }
    }
    if from < 20 {
        to.extend_from_slice(&digits[from..])?;
    }
    Ok(())
}

/// Writes the digits of the octet at this place of a frame into the frame's line.
fn write_octet(text: &mut [u8], place: usize, octet: u8) {
    let at = place.wrapping_mul(2).wrapping_add(1);
    let [high, low] = digits_of(octet);
    if at < text.len() && text.len() - at > 1 {
        text[at] = high;
        text[at + 1] = low;
    }
}

/// Writes the digits of the octets at so many places, from this one on.
fn write_octets(text: &mut [u8], octets: &[u8], from: usize, many: usize) {
    for place in from..from.saturating_add(many) {
        if let Some(octet) = octets.get(place) {
            write_octet(text, place, *octet);
        }
    }
}

/// Writes what a frame that is sent has anew into its line.
fn write_line(line: &mut Line, template: &Template) {
    let text = line.text.as_mut_slice();
    let octets = template.octets.as_slice();
    write_octets(text, octets, IDENTIFICATION, 2);
    write_octets(text, octets, CHECKSUM, 2);
    if template.stamp > 0 {
        write_octets(text, octets, template.stamp, 8);
    }
    write_octets(text, octets, octets.len().saturating_sub(1), 1);
}

/// A trace of each network.
#[derive(Drop)]
pub(crate) struct Texts {
    pub a: Vec<u8>,
    pub b: Vec<u8>,
}

impl Texts {
    pub(crate) fn new(alloc: Global) -> Texts {
        Texts {
            a: Vec::new(alloc),
            b: Vec::new(alloc),
        }
    }

    /// Adds the line of a frame that comes at this time on the networks that are said; on B it comes `late`
    /// microseconds after it came on A.
    fn add(
        &mut self,
        line: &Line,
        time: u64,
        late: u64,
        networks: (bool, bool),
    ) -> Result<(), Memory> {
        if networks.0 {
            add_time(&mut self.a, time)?;
            self.a.extend_from_slice(&line.text)?;
        }
        if networks.1 {
            add_time(&mut self.b, time.wrapping_add(late))?;
            self.b.extend_from_slice(&line.text)?;
        }
        Ok(())
    }

    /// The traces of the next so many frames, in place of what is there. `networks` says by the place of a link which
    /// networks have its frames.
    pub(crate) fn write<F: Fn(usize) -> (bool, bool)>(
        &mut self,
        lines: &mut Lines,
        traffic: &mut Traffic,
        frames: u64,
        late: u64,
        networks: F,
    ) -> Result<(), Memory>
        requires { F.IsAlwaysCallable networks }
    {
        self.a.clear();
        self.b.clear();
        for _ in 0..frames {
            let sent = traffic.send();
            let Some(template) = traffic.templates(sent.link).get(sent.frame) else {
                continue;
            };
            if let Some(link) = lines.links.get_mut(sent.link) {
                if let Some(line) = link.get_mut(sent.frame) {
                    write_line(line, template);
                    self.add(line, sent.time, late, networks(sent.link))?;
                }
            }
        }
        Ok(())
    }
}
