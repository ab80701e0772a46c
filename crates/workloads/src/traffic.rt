//! What the senders of all links send: each its frames in turn, with sequence numbers, IPv4 identifications that count
//! up by datagrams, and others octets each time.
use crate::frames::{Marks, Template};
use es_base::Memory;
use std::alloc::Global;

/// Frames that the sender of one link sends.
#[derive(Drop)]
pub(crate) struct Flow {
    frames: Vec<Template>,
    /// How many datagrams these are.
    datagrams: u16,
    /// The place of the next frame.
    next: usize,
    /// The identification of the first datagram of this turn.
    identification: u16,
    /// The next sequence number.
    number: u8,
    /// Whether frames are lost by chance.
    losses: bool,
}

/// How many sequence numbers are left out before a frame.
fn left_out(jump: u8, losses: bool, draw: u64) -> u8 {
    match draw & 0x3ff {
        0..=9 if losses => 1,
        10..=12 if losses => 5,
        _ => jump,
    }
}

/// The sequence number that follows another.
fn number_after(number: u8) -> u8 {
    if number == 255 { 1 } else { number + 1 }
}

/// A frame that is sent: the place of its link, and that of its template, which has its octets.
#[derive(Clone, Copy)]
pub(crate) struct Sent {
    pub link: usize,
    pub frame: usize,
    /// Number of frames sent until then, counted from a number of the seed's.
    pub number: u64,
    /// When it was sent, in microseconds.
    pub time: u64,
    /// A number by chance.
    pub draw: u64,
}

impl Sent {
    /// What stands where no frame was sent.
    pub(crate) const NOTHING: Sent = Sent {
        link: 0,
        frame: 0,
        number: 0,
        time: 0,
        draw: 0,
    };

    /// When it comes on network B, in microseconds: up to 511 after it came on A, by chance.
    pub(crate) fn later(self) -> u64 {
        self.time.wrapping_add(self.draw & 0x1ff)
    }
}

impl Flow {
    pub(crate) fn new(alloc: Global, losses: bool) -> Flow {
        Flow {
            frames: Vec::new(alloc),
            datagrams: 0,
            next: 0,
            identification: 0,
            number: 0,
            losses,
        }
    }

    /// Adds the frames of so many datagrams, whose places are counted from 0.
    pub(crate) fn add(&mut self, frames: Vec<Template>, datagrams: u16) -> Result<(), Memory> {
        for mut frame in frames {
            frame.datagram = frame.datagram.wrapping_add(self.datagrams);
            self.frames.push(frame)?;
        }
        self.datagrams = self.datagrams.wrapping_add(datagrams);
        Ok(())
    }

    /// Adds the frame of a datagram that comes whole.
    pub(crate) fn add_whole(&mut self, frame: Template) -> Result<(), Memory> {
        let mut frame = frame;
        frame.datagram = self.datagrams;
        self.frames.push(frame)?;
        self.datagrams = self.datagrams.wrapping_add(1);
        Ok(())
    }

    /// Begins the next turn after the last frame.
    fn go_on(&mut self) {
        self.next = self.next.wrapping_add(1);
        if self.next >= self.frames.len() {
            self.next = 0;
            self.identification = self.identification.wrapping_add(self.datagrams);
        }
    }

    /// Sends the next frame, and returns its place. `draw` says, by chance, whether numbers are left out before it:
    /// seldom one, more seldom some, which turns the frame away.
    fn send(&mut self, draw: u64, stamp: u64) -> usize {
        let place = self.next;
        let Some(template) = self.frames.get_mut(place) else {
            return place;
        };
        for _ in 0..left_out(template.jump, self.losses, draw) {
            self.number = number_after(self.number);
        }
        template.mark(Marks {
            identification: self.identification.wrapping_add(template.datagram),
            stamp,
            sequence_number: self.number,
        });
        self.number = number_after(self.number);
        self.go_on();
        place
    }
}

/// The senders of all links.
#[derive(Drop)]
pub(crate) struct Traffic {
    flows: Vec<Flow>,
    state: u64,
    /// Number of frames sent, counted from a number of the seed's.
    sent: u64,
    /// When the latest was sent, in microseconds.
    time: u64,
}

impl Traffic {
    pub(crate) fn new(alloc: Global, seed: u64) -> Traffic {
        Traffic {
            flows: Vec::new(alloc),
            state: seed.wrapping_mul(2).wrapping_add(1),
            sent: seed << 32,
            time: 1000,
        }
    }

    pub(crate) fn add(&mut self, flow: Flow) -> Result<(), Memory> {
        self.flows.push(flow)?;
        Ok(())
    }

    /// The next number by chance.
    fn draw(&mut self) -> u64 {
        self.state = self
            .state
            .wrapping_mul(6_364_136_223_846_793_005)
            .wrapping_add(1_442_695_040_888_963_407);
        self.state >> 16
    }

    /// The templates of each link, in their order.
    pub(crate) fn templates(&self, link: usize) -> &[Template] {
        match self.flows.get(link) {
            Some(flow) => flow.frames.as_slice(),
            None => &[],
        }
    }

    /// Number of links.
    pub(crate) fn links(&self) -> usize {
        self.flows.len()
    }

    /// Sends the next frame, of a link by chance. Its octets stand until another one is sent.
    pub(crate) fn send(&mut self) -> Sent {
        let draw = self.draw();
        let link = (draw >> 20) as usize % self.flows.len().max(1);
        self.sent = self.sent.wrapping_add(1);
        self.time = self.time.wrapping_add(20 + (draw & 0x3f));
        let frame = match self.flows.get_mut(link) {
            Some(flow) => flow.send(draw >> 6, self.sent),
            None => 0,
        };
        Sent {
            link,
            frame,
            number: self.sent,
            time: self.time,
            draw: self.draw(),
        }
    }

    /// The octets of the frame that was sent last.
    pub(crate) fn octets(&self, sent: Sent) -> &[u8] {
        match self.templates(sent.link).get(sent.frame) {
            Some(template) => template.octets.as_slice(),
            None => &[],
        }
    }
}
