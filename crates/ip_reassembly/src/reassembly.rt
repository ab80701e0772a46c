//! The partial datagrams of one link.
ghost use Rattle.std.specs.Prelude.{◌≡◌, ℕ, ◌+◌, ◌<◌, ◌≤◌, ◌==◌, List, [], ◌∷◌, ◌++◌, length, take, remove, slice_set, slice_get, Some, IfSome, IfOk};
ghost use Rattle.std.specs.Borrow.{sem};
ghost use Rattle.arrayvec.specs.ArrayVec.{array_vec_len};
ghost use Rattle.es_base.specs.Limits.{longest_joined, most_partials};
ghost use Rattle.es_base.specs.Tally.{one_more};
ghost use Rattle.link_rules.specs.Fragments.{piece_of, key_of, datagram_from};
ghost use Rattle.link_rules.specs.Groups.{Group, place_of, found_for, group_with, with_room, without_group, fate, fate_if, groups_after};
ghost use Rattle.frame_reader.specs.Parts.{packet_parts};
ghost use Rattle.ip_reassembly.specs.Kept.{StandFor, StandsFor, Finds, joined_group};
ghost use Rattle.ip_reassembly.specs.GivenUp.{GoesOn, one_at, one_for_room, shown};
ghost use Rattle.ip_reassembly.specs.Answers.{preview_of, fate_seen};

use crate::fragment::{head_of, is_bad, is_whole, key_of};
use crate::partial::{Partial, move_to_end, place_among};
use crate::{Offered, Preview};
use arrayvec::ArrayVec;
use es_base::{DatagramKey, Memory};
use frame_reader::Packet;
use std::alloc::Global;
use std::marker::Model;

/// Most partial datagrams at one time (own).
pub const MOST_PARTIALS: usize = 4;

/// Partial datagrams, which pieces join until they are complete.
///
/// Up to four partial datagrams stand (own). A fragment that begins a fifth gives up the one that began first,
/// whichever was touched last. A whole datagram gives up the partial one with its key: source, destination and
/// identification.
///
/// A partial datagram whose first piece is older than the time limit is given up when the next good fragment of its key
/// comes, which begins a new one; not before, and for no other key (own: the timer of RFC 791, which a fragment's time
/// to live can raise, isn't used).
#[derive(Drop)]
pub struct Reassembly {
    limit: u64,
    /// Number of partial datagrams given up. It saturates at 2^64 - 1.
    given_up: u64,
    /// Number of partial datagrams that stand.
    standing: usize,
    /// Those that stand come first, in the order in which they began; the others are spare.
    partials: ArrayVec<Partial, MOST_PARTIALS>,
}

impl Model for Reassembly {
    ghost use Rattle.std.specs.Prelude.{◌≡◌, ◌≤◌, take};
    ghost use Rattle.arrayvec.specs.ArrayVec.{array_vec_len};
    ghost use Rattle.es_base.specs.Limits.{most_partials};
    ghost use Rattle.ip_reassembly.specs.Kept.{Kept};

    ghost Value = { Kept };

    ghost view = { λ r. record { limit = r.limit; given_up = r.given_up; partials = take r.standing r.partials.items } };

    ghost invariant = { λ r. (array_vec_len r.partials ≡ most_partials) × (r.standing ≤ most_partials) };
}

impl Reassembly {
    ghost use Rattle.ip_reassembly.specs.Ends.{EndsWith};

    /// A reassembly without partial datagrams. `limit` is the time limit, in microseconds: how long pieces are waited
    /// for after the first of them.
    ///
    /// All memory is taken here, and none after it: buffers for four datagrams of 8200 octets. The only error is that
    /// memory ran out.
    pub fn new(alloc: Global, limit: u64) -> Result<Reassembly, Memory>
        ensures pieces { IfOk result (λ reassembly. StandsFor reassembly limit []) }
        ensures given_up { IfOk result (λ reassembly. reassembly.given_up ≡ 0) }
    {
        let first = Partial::spare(alloc)?;
        let second = Partial::spare(alloc)?;
        let third = Partial::spare(alloc)?;
        let fourth = Partial::spare(alloc)?;
        Ok(Reassembly {
            limit,
            given_up: 0,
            standing: 0,
            partials: ArrayVec::from([first, second, third, fourth]),
        })
    }

    /// A copy, with the same pieces and as much memory. The only error is that memory ran out.
    pub fn copy(&self, alloc: Global) -> Result<Reassembly, Memory>
        ensures { IfOk result (λ copy. copy ≡ self.now) }
    {
        let first = self.partials[0].copy(alloc)?;
        let second = self.partials[1].copy(alloc)?;
        let third = self.partials[2].copy(alloc)?;
        let fourth = self.partials[3].copy(alloc)?;
        Ok(Reassembly {
            limit: self.limit,
            given_up: self.given_up,
            standing: self.standing,
            partials: ArrayVec::from([first, second, third, fourth]),
        })
    }

    /// A reassembly of these partial datagrams: first the given number that stand, in the order in which they began,
    /// then spare ones.
    pub(crate) fn of(
        limit: u64,
        given_up: u64,
        standing: usize,
        partials: ArrayVec<Partial, MOST_PARTIALS>,
    ) -> Reassembly
        requires four { array_vec_len partials ≡ most_partials }
        requires standing { standing ≤ most_partials }
        ensures { result ≡ record { limit = limit; given_up = given_up; partials = take standing partials.items } }
    {
        Reassembly {
            limit,
            given_up,
            standing,
            partials,
        }
    }

    /// The partial datagrams that stand, in the order in which they began.
    pub(crate) fn standing(&self) -> &[Partial]
        ensures value { result.now ≡ self.now.partials }
        ensures few { length result.now ≤ most_partials }
    {
        &self.partials[..self.standing]
    }

    /// Time limit, in microseconds.
    pub fn limit(&self) -> u64
        ensures { result ≡ self.now.limit }
    {
        self.limit
    }

    /// Number of partial datagrams given up: past the time limit as the next good fragment of the key came, the first
    /// of four as a fifth began, or replaced by a whole datagram of the key. It saturates at 2^64 - 1.
    pub fn given_up(&self) -> u64
        ensures { result ≡ self.now.given_up }
    {
        self.given_up
    }

    /// The answer that `offer` would give to a packet at `now`, in microseconds, with a datagram's first 8 octets and
    /// its length in place of its octets. So a caller can take memory for a datagram, or read its UDP header, before
    /// anything has changed.
    ///
    /// Times may fall: if `now` is earlier than a partial datagram's first piece, its age is 0 (own).
    pub fn preview(&self, packet: &Packet<'_>, now: u64) -> Preview
        ensures { (limit : ℕ) (groups : List Group) → StandsFor self.now limit groups →
            result ≡ preview_of (fate limit groups (packet_parts packet.now) now) }
    {
        if is_whole(packet) {
            return Preview::Whole {
                len: packet.octets.len(),
                head: head_of(packet.octets),
                joined: false,
            };
        }
        if is_bad(packet) {
            return Preview::Bad;
        }
        match self.found_for(key_of(packet), now) {
            None => Preview::Held,
            Some(place) => self.partial_at(place).preview_with(packet),
        }
    }

    /// Takes a packet that comes at `now`, in microseconds. `Bad` is a fragment that is no piece: nothing has changed.
    /// `Held` is a piece of a datagram that isn't complete. Else the datagram is returned, and its partial one ends.
    ///
    /// The octets are the packet's own if nothing was joined, else lent from the buffer that they were joined in,
    /// without a copy.
    pub fn offer<'a>(&'a mut self, packet: &'a Packet<'a>, now: u64) -> Offered<'a>
        ensures answer { (limit : ℕ) (groups : List Group) → StandsFor self.old limit groups →
            fate_seen result ≡ fate limit groups (packet_parts packet.now) now }
        ensures* after { sem 𝓛 (EndsWith self.entry (λ r. (limit : ℕ) (groups : List Group) →
            StandsFor self.old limit groups → GoesOn self.old limit groups (packet_parts packet.now) now r)) }
    {
        let key = key_of(packet);
        if is_whole(packet) {
            self.give_up_key(key);
            return Offered::Whole {
                octets: packet.octets,
                joined: false,
            };
        }
        if is_bad(packet) {
            return Offered::Bad;
        }
        match self.found_for(key, now) {
            None => {
                self.begin_anew(key, packet, now);
                Offered::Held
            }
            Some(place) => self.offer_at(place, packet),
        }
    }

    /// Index of the partial datagram with a key.
    fn place_of(&self, key: DatagramKey) -> Option<usize>
        ensures group { (groups : List Group) → StandFor self.now.partials groups → result ≡ place_of key groups }
        ensures bound { IfSome result (λ place. place < length self.now.partials) }
    {
        place_among(&self.partials[..self.standing], key)
    }

    fn partial_at(&self, place: usize) -> &Partial
        requires { place < length self.now.partials }
        ensures { slice_get self.now.partials place ≡ Some result.now }
    {
        &self.partials[place]
    }

    /// Index of the partial datagram that a piece with this key joins.
    fn found_for(&self, key: DatagramKey, now: u64) -> Option<usize>
        ensures group { (groups : List Group) → StandFor self.now.partials groups →
            Finds result groups key (found_for self.now.limit groups key now) }
        ensures bound { IfSome result (λ place. place < length self.now.partials) }
    {
        let place = self.place_of(key)?;
        if self.partial_at(place).is_over(self.limit, now) {
            None
        } else {
            Some(place)
        }
    }

    /// Gives up the partial datagram at a place.
    fn give_up(&mut self, place: usize)
        requires { place < length self.old.partials }
        ensures stand { (groups : List Group) → StandFor self.old.partials groups →
            StandFor self.new.partials (remove groups place) }
        ensures one_less { length self.new.partials + 1 ≡ length self.old.partials }
        ensures limit { self.new.limit ≡ self.old.limit }
        ensures given_up { self.new.given_up ≡ one_more self.old.given_up }
    {
        move_to_end(&mut self.partials, place, self.standing);
        self.standing -= 1;
        self.given_up = self.given_up.saturating_add(1);
    }

    /// Gives up the partial datagram with a key, if any.
    fn give_up_key(&mut self, key: DatagramKey)
        ensures stand { (groups : List Group) → StandFor self.old.partials groups →
            StandFor self.new.partials (without_group groups (place_of key groups)) }
        ensures limit { self.new.limit ≡ self.old.limit }
        ensures given_up { (groups : List Group) (n : ℕ) → StandFor self.old.partials groups → self.old.given_up ≡ shown n →
            self.new.given_up ≡ shown (n + one_at (place_of key groups)) }
    {
        if let Some(place) = self.place_of(key) {
            self.give_up(place);
        }
    }

    /// Whether the greatest number of partial datagrams stands.
    fn is_full(&self) -> bool
        ensures value { result ≡ (length self.now.partials == most_partials) }
        ensures bound { length self.now.partials ≤ most_partials }
    {
        self.standing == MOST_PARTIALS
    }

    /// Gives up the one that began first, if four stand (own).
    fn make_room(&mut self)
        ensures stand { (groups : List Group) → StandFor self.old.partials groups →
            StandFor self.new.partials (with_room groups) }
        ensures room { length self.new.partials < most_partials }
        ensures limit { self.new.limit ≡ self.old.limit }
        ensures given_up { (groups : List Group) (n : ℕ) → StandFor self.old.partials groups → self.old.given_up ≡ shown n →
            self.new.given_up ≡ shown (n + one_for_room groups) }
    {
        if self.is_full() {
            self.give_up(0);
        }
    }

    /// Adds a piece to the partial datagram at a place.
    fn join_at(&mut self, place: usize, packet: &Packet<'_>)
        requires place { place < length self.old.partials }
        requires end { packet.now.offset + length packet.now.octets.now ≤ longest_joined }
        ensures stand { (groups : List Group) (group : Group) (time : ℕ) → StandFor self.old.partials groups →
            slice_get groups place ≡ Some group → StandFor self.new.partials
            (slice_set groups place (group_with group (piece_of (packet_parts packet.now) time))) }
        ensures len { length self.new.partials ≡ length self.old.partials }
        ensures limit { self.new.limit ≡ self.old.limit }
        ensures given_up { self.new.given_up ≡ self.old.given_up }
    {
        self.partials[place].join(packet);
    }

    /// Begins a partial datagram, after the others.
    fn begin(&mut self, key: DatagramKey, packet: &Packet<'_>, now: u64)
        requires room { length self.old.partials < most_partials }
        requires end { packet.now.offset + length packet.now.octets.now ≤ longest_joined }
        ensures stand { (groups : List Group) → StandFor self.old.partials groups → StandFor self.new.partials
            (groups ++ record { key = key; pieces = piece_of (packet_parts packet.now) now ∷ [] } ∷ []) }
        ensures limit { self.new.limit ≡ self.old.limit }
        ensures given_up { self.new.given_up ≡ self.old.given_up }
    {
        self.partials[self.standing].begin(key, packet, now);
        self.standing += 1;
    }

    /// Begins a partial datagram in place of any older one of its key, with room made for it.
    fn begin_anew(&mut self, key: DatagramKey, packet: &Packet<'_>, now: u64)
        requires { packet.now.offset + length packet.now.octets.now ≤ longest_joined }
        ensures stand { (groups : List Group) → StandFor self.old.partials groups → StandFor self.new.partials
            (with_room (without_group groups (place_of key groups))
            ++ record { key = key; pieces = piece_of (packet_parts packet.now) now ∷ [] } ∷ []) }
        ensures limit { self.new.limit ≡ self.old.limit }
        ensures given_up { (groups : List Group) (n : ℕ) → StandFor self.old.partials groups → self.old.given_up ≡ shown n →
            self.new.given_up ≡ shown (n + (one_at (place_of key groups) + one_for_room (without_group groups (place_of key groups)))) }
    {
        self.give_up_key(key);
        self.make_room();
        self.begin(key, packet, now);
    }

    /// Ends the partial datagram at a place, complete now, and lends its octets.
    fn take_out(&mut self, place: usize, len: usize) -> &[u8]
        requires place { place < length self.old.partials }
        requires len { len ≤ longest_joined }
        ensures octets { (groups : List Group) (group : Group) (datagram : List ℕ) →
            StandFor self.old.partials groups → slice_get groups place ≡ Some group →
            datagram_from group.pieces ≡ Some datagram → length datagram ≡ len → result.now ≡ datagram }
        ensures* after { sem 𝓛 (EndsWith self.entry (λ r. (r.limit ≡ self.old.limit) × (r.given_up ≡ self.old.given_up)
            × ((groups : List Group) → StandFor self.old.partials groups → StandFor r.partials (remove groups place)))) }
    {
        move_to_end(&mut self.partials, place, self.standing);
        self.standing -= 1;
        self.partials[self.standing].buffer.octets(len)
    }

    /// The answer to a piece that joins the partial datagram at a place.
    fn offer_at(&mut self, place: usize, packet: &Packet<'_>) -> Offered<'_>
        requires place { place < length self.old.partials }
        requires end { packet.now.offset + length packet.now.octets.now ≤ longest_joined }
        ensures answer { (groups : List Group) (group : Group) (time : ℕ) → StandFor self.old.partials groups →
            slice_get groups place ≡ Some group →
            fate_seen result ≡ fate_if (datagram_from (piece_of (packet_parts packet.now) time ∷ group.pieces)) }
        ensures* after { sem 𝓛 (EndsWith self.entry (λ r. (r.limit ≡ self.old.limit) × (r.given_up ≡ self.old.given_up)
            × ((groups : List Group) (group : Group) (time : ℕ) → StandFor self.old.partials groups →
            slice_get groups place ≡ Some group → StandFor r.partials
            (joined_group groups place group (packet_parts packet.now) time)))) }
    {
        let joined = self.partial_at(place).joined_with(packet);
        self.join_at(place, packet);
        match joined {
            None => Offered::Held,
            Some(len) => Offered::Whole {
                octets: self.take_out(place, len),
                joined: true,
            },
        }
    }
}
