//! Waiting pieces, in no more memory than they take.
ghost use Rattle.std.specs.Prelude.{◌≡◌, IfOk};
ghost use Rattle.ip_reassembly.specs.Waiting.{IsAt};

use crate::buffer::Buffer;
use crate::partial::Partial;
use crate::reassembly::{MOST_PARTIALS, Reassembly};
use crate::stretch::Stretch;
use arrayvec::ArrayVec;
use es_base::{DatagramKey, Memory};
use std::alloc::Global;
use std::marker::Model;

/// A partial datagram that waits: no piece joins it, so it keeps only the octets that came. To a contract it is that
/// partial datagram.
#[derive(Drop)]
struct WaitingDatagram {
    /// Key of its pieces.
    key: DatagramKey,
    /// Arrival time of its first piece, in microseconds.
    begin: u64,
    stretch: Stretch,
}

impl Model for WaitingDatagram {
    ghost use Rattle.ip_reassembly.specs.declared.partial.Partial.{Partial};

    ghost Value = { Partial };

    ghost view = { λ d. record { key = d.key; begin = d.begin; buffer = d.stretch } };
}

impl WaitingDatagram {
    /// One of no datagram. It takes no memory.
    fn new(alloc: Global) -> WaitingDatagram {
        let key = DatagramKey {
            source: 0,
            destination: 0,
            ident: 0,
        };
        WaitingDatagram {
            key,
            begin: 0,
            stretch: Stretch::new(alloc),
        }
    }
}

/// The partial datagrams of a `Reassembly`, kept without spare buffers: a reassembly can begin with them, and no packet
/// is offered to them.
#[derive(Drop)]
pub struct WaitingDatagrams {
    /// Time limit, in microseconds.
    limit: u64,
    /// Number of partial datagrams given up before. It saturates at 2^64 - 1.
    given_up: u64,
    /// Number of partial datagrams that stood.
    standing: usize,
    /// Those that stood come first, in the order in which they began; the others are empty.
    partials: ArrayVec<WaitingDatagram, MOST_PARTIALS>,
}

impl Model for WaitingDatagrams {
    ghost use Rattle.std.specs.Prelude.{◌≡◌, ◌≤◌, take};
    ghost use Rattle.arrayvec.specs.ArrayVec.{array_vec_len};
    ghost use Rattle.es_base.specs.Limits.{most_partials};
    ghost use Rattle.ip_reassembly.specs.Kept.{Kept};

    ghost Value = { Kept };

    ghost view = { λ w. record { limit = w.limit; given_up = w.given_up; partials = take w.standing w.partials.items } };

    ghost invariant = { λ w. (array_vec_len w.partials ≡ most_partials) × (w.standing ≤ most_partials) };
}

impl Reassembly {
    /// A copy of the waiting pieces. It takes memory for the octets of each partial datagram that stands, from its
    /// first piece up to its last, and for their marks. The only error is that memory ran out.
    pub fn waiting(&self, alloc: Global) -> Result<WaitingDatagrams, Memory>
        ensures { IfOk result (λ waiting. waiting ≡ self.now) }
    {
        let partials = self.standing();
        let first = copy_or_empty(alloc, partials, 0)?;
        let second = copy_or_empty(alloc, partials, 1)?;
        let third = copy_or_empty(alloc, partials, 2)?;
        let fourth = copy_or_empty(alloc, partials, 3)?;
        Ok(WaitingDatagrams {
            limit: self.limit(),
            given_up: self.given_up(),
            standing: partials.len(),
            partials: ArrayVec::from([first, second, third, fourth]),
        })
    }
}

impl WaitingDatagrams {
    /// A reassembly that goes on from these pieces. It takes the memory of a new one. The only error is that memory ran
    /// out.
    pub fn begin(&self, alloc: Global) -> Result<Reassembly, Memory>
        ensures { IfOk result (λ reassembly. reassembly ≡ self.now) }
    {
        let waiting = &self.partials[..self.standing];
        let first = partial_or_spare(alloc, waiting, 0)?;
        let second = partial_or_spare(alloc, waiting, 1)?;
        let third = partial_or_spare(alloc, waiting, 2)?;
        let fourth = partial_or_spare(alloc, waiting, 3)?;
        let four = ArrayVec::from([first, second, third, fourth]);
        Ok(Reassembly::of(self.limit, self.given_up, self.standing, four))
    }
}

/// A copy of the one at a place, or an empty one if there is none.
fn copy_or_empty(
    alloc: Global,
    partials: &[Partial],
    place: usize,
) -> Result<WaitingDatagram, Memory>
    ensures { IfOk result (λ copy. IsAt partials.now place copy) }
{
    match partials.get(place) {
        Some(partial) => copy_of(alloc, partial),
        None => Ok(WaitingDatagram::new(alloc)),
    }
}

fn copy_of(alloc: Global, partial: &Partial) -> Result<WaitingDatagram, Memory>
    ensures { IfOk result (λ copy. copy ≡ partial.now) }
{
    let stretch = partial.buffer.stretch(alloc)?;
    Ok(WaitingDatagram {
        key: partial.key,
        begin: partial.begin,
        stretch,
    })
}

/// The one at a place with a buffer of its own, or a spare one if there is none.
fn partial_or_spare(
    alloc: Global,
    waiting: &[WaitingDatagram],
    place: usize,
) -> Result<Partial, Memory>
    ensures { IfOk result (λ partial. IsAt waiting.now place partial) }
{
    match waiting.get(place) {
        Some(datagram) => partial_of(alloc, datagram),
        None => Partial::spare(alloc),
    }
}

fn partial_of(alloc: Global, datagram: &WaitingDatagram) -> Result<Partial, Memory>
    ensures { IfOk result (λ partial. partial ≡ datagram.now) }
{
    let buffer = Buffer::of(alloc, &datagram.stretch)?;
    Ok(Partial {
        key: datagram.key,
        begin: datagram.begin,
        buffer,
    })
}
