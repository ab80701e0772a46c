//! The datagram of some pieces, and the groups of pieces that stand at one time.
ghost use Rattle.std.specs.Prelude.{◌≡◌, ◌↔◌, ℕ, List, Some};
ghost use Rattle.es_base.specs.Packet.{PacketParts};
ghost use Rattle.link_rules.specs.Fragments.{Piece, datagram_from, IsDatagram};
ghost use Rattle.link_rules.specs.Groups.{Group, groups_after};
ghost use Rattle.ip_reassembly.specs.Apart.{AreApart};

/// A joined datagram ends where the latest piece with no more to follow ends, and each of its octets is
/// that of the latest piece with one at its place; if there are such octets, it is joined (RFC 791 3.2).
pub fn joins_the_datagram()
    ensures { (pieces : List Piece) (octets : List ℕ) →
        (datagram_from pieces ≡ Some octets) ↔ IsDatagram pieces octets }
{}

/// At most four groups stand after each packet, and no two of them have one key, if that held before
/// (own). So it holds of the groups after any packets, since before the first there are none.
pub fn keeps_groups_apart()
    ensures { (limit : ℕ) (groups : List Group) (packet : PacketParts) (now : ℕ) → AreApart groups →
        AreApart (groups_after limit groups packet now) }
{}
