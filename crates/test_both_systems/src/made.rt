//! Links, and frames by chance, which are the same for the same seed: in bursts of one network, now and then many in a row
//! of one link.
use es_base::{Config, Net};
use std::alloc::Global;
use test_inputs::rows::frame_of_17;
use test_inputs_end_system::{BUILT_IN, config_of, smallest_for};

/// Number of links that are configured. The first has the number 17, and each other one the next number.
pub(crate) const LINKS: usize = 5;

/// Number of the first link.
const FIRST: u16 = 17;

/// Offset of a message's first octet in a frame.
const FIRST_OCTET: usize = 42;

/// The number of the link at this place, from 0. At the place after the last one no link is configured.
pub(crate) fn number_at(place: usize) -> u16 {
    FIRST.wrapping_add((place % 128) as u16)
}

/// The name of the sampling port of the link at this place. None if memory runs out.
pub(crate) fn name_at(alloc: Global, place: usize) -> Option<String> {
    match number_at(place) {
        FIRST => format!(in alloc; "pos").ok(),
        vl => format!(in alloc; "p{vl}").ok(),
    }
}

/// The text of the link at this place, with one sampling port.
fn link_text(alloc: Global, place: usize) -> Option<String> {
    let vl = number_at(place);
    let name = name_at(alloc, place)?;
    format!(in alloc;
        "[[link]]\nvl = {vl}\nskew_max_us = 1000\nreassembly_us = 50000\n\n\
        [[link.port]]\nname = \"{name}\"\nkind = \"sampling\"\naddress = \"224.224.0.{vl}\"\n\
        udp = 5000\nrefresh_us = 20000\n\n"
    )
    .ok()
}

/// The configuration of all links: the built-in link, which has the queuing port `nav` too, and the others. None if
/// memory runs out.
pub(crate) fn made_config(alloc: Global) -> Option<Config> {
    let mut others = String::new(alloc);
    for place in 1..LINKS {
        let text = link_text(alloc, place)?;
        others.push_str(text.as_str()).ok()?;
    }
    config_of(alloc, &[BUILT_IN, others.as_str()])
}

/// Frames that a network brings at once, each with its time in microseconds.
#[derive(Drop)]
pub(crate) struct Burst {
    pub net: Net,
    pub frames: Vec<(u64, Vec<u8>)>,
}

/// Source of frames that look random.
#[derive(Drop)]
pub(crate) struct Source {
    state: u64,
    time: u64,
    /// Number of frames made, up to 255, and then from 0 again.
    made: u8,
    /// The last sequence number of each link on each network.
    numbers: [[u8; 2]; LINKS],
}

impl Source {
    pub(crate) fn new(seed: u64) -> Source {
        Source {
            state: seed,
            time: 1000,
            made: 0,
            numbers: [[0; 2]; LINKS],
        }
    }

    /// The next number by chance, below `bound`, which is at least 1.
    pub(crate) fn draw(&mut self, bound: usize) -> usize {
        let product = self.state.wrapping_mul(6_364_136_223_846_793_005);
        self.state = product.wrapping_add(1_442_695_040_888_963_407);
        ((self.state >> 48) as usize) % bound.max(1)
    }

    /// A network by chance.
    pub(crate) fn net(&mut self) -> Net {
        if self.draw(2) == 0 { Net::A } else { Net::B }
    }

    /// The place of a link by chance: one of the first two, or, one in three, of any other one. The last of these isn't
    /// configured.
    fn place(&mut self) -> usize {
        match self.draw(3) {
            2 => self.draw(LINKS - 1).wrapping_add(2),
            place => place,
        }
    }

    /// The next sequence number of the link at this place on this network: often the next one, else 0 to 3 more.
    fn next_number(&mut self, place: usize, net: Net) -> u8 {
        let draw = self.draw(8);
        let step = if draw < 6 { 1 } else { (draw % 4) as u8 };
        let at = if net == Net::A { 0 } else { 1 };
        match self.numbers.get_mut(place) {
            Some(numbers) => {
                numbers[at] = numbers[at].wrapping_add(step);
                numbers[at]
            }
            None => 0,
        }
    }

    /// The octets of a frame of the link at this place. None if memory runs out.
    fn octets(&mut self, alloc: Global, place: usize, net: Net) -> Option<Vec<u8>> {
        let number = self.next_number(place, net);
        let draw = self.draw(12);
        let mut octets = match number_at(place) {
            FIRST if draw < 7 => frame_of_17(alloc, draw, number)?,
            vl => smallest_for(alloc, vl, number)?,
        };
        self.made = self.made.wrapping_add(1);
        if let Some(octet) = octets.get_mut(FIRST_OCTET) {
            *octet = self.made;
        }
        if draw == 11 {
            octets.truncate(59);
        }
        Some(octets)
    }

    /// The next frame of this network for the link at this place, 0 to 400 microseconds after the one before. None if
    /// memory runs out.
    fn frame(&mut self, alloc: Global, place: usize, net: Net) -> Option<(u64, Vec<u8>)> {
        self.time = self.time.wrapping_add(self.draw(401) as u64);
        let octets = self.octets(alloc, place, net)?;
        Some((self.time, octets))
    }

    /// The next burst: 1 to `most` frames of this network, one in three for a link by chance and else for that of the
    /// one before, or, one in eight bursts, `most` of one link. None if memory runs out.
    pub(crate) fn burst(&mut self, alloc: Global, net: Net, most: usize) -> Option<Burst> {
        let stays = self.draw(8) == 0;
        let many = if stays {
            most
        } else {
            self.draw(most).wrapping_add(1)
        };
        let mut frames = Vec::with_capacity(alloc, many).ok()?;
        let mut place = self.draw(2);
        for _ in 0..many {
            if !stays && self.draw(3) == 0 {
                place = self.place();
            }
            frames.push(self.frame(alloc, place, net)?).ok()?;
        }
        Some(Burst { net, frames })
    }

    /// The next burst of each network, both of which begin at the same time. None if memory runs out.
    pub(crate) fn bursts(&mut self, alloc: Global, most: usize) -> Option<(Burst, Burst)> {
        let time = self.time;
        let a = self.burst(alloc, Net::A, most)?;
        self.time = time;
        let b = self.burst(alloc, Net::B, most)?;
        Some((a, b))
    }
}
