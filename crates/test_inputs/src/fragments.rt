//! IPv4 packets from 10.1.1.1 to 224.224.0.17 that are joined, or aren't: RFC 791, 3.2. Each is a header
//! and the octets after it, as hexadecimal texts; those of one datagram have the identification 2.

/// The header of a packet, and the octets after it.
pub type PacketText = (&'static str, &'static str);

/// A packet. A table of such names is proved in a fraction of the time that a table of texts takes.
#[derive(Clone, Copy)]
pub enum PacketName {
    /// Octets 0 to 15 of a datagram, and more follow: the UDP header of a datagram of 32 octets for `nav`, and
    /// 8 octets of its payload.
    First,
    /// Its octets 16 to 31, the last ones.
    Last,
    /// A longer end: octets 16 to 39, the last ones.
    LongerLast,
    /// `First` with another payload.
    FirstAnew,
    /// `First` for `pos`.
    FirstForPos,
    /// `First` of a UDP datagram of 21 octets.
    FirstOf21,
    /// `First` with the identification 3.
    First3,
    /// `First` with the identification 4.
    First4,
    /// `First` with the identification 5.
    First5,
    /// `First` with the identification 6.
    First6,
    /// `Last` from 10.1.1.2.
    LastFromAnother,
    /// `Last` to 224.224.0.18.
    LastToAnother,
    /// Octets 16 to 19, the last ones.
    LastTo19,
    /// Octets 16 to 20, the last ones.
    LastTo20,
    /// Octets 24 to 31, the last ones.
    LastFrom24,
    /// No octets, at offset 16, and no more follow.
    EndAt16,
    /// No octets, at offset 40, and no more follow.
    EndAt40,
    /// A UDP datagram for `nav` in one packet, with the identification of the fragments.
    Whole,
    /// Bad: octets 0 to 11, and more follow.
    FirstTo11,
    /// Bad: octets 16 to 20, and more follow.
    NextTo20,
    /// Bad: no octets, at offset 0, and more follow.
    EmptyFirst,
    /// Octets 8184 to 8199, the last ones: the longest datagram that is joined.
    LastTo8199,
    /// Bad: octets 8184 to 8200, the last ones.
    LastTo8200,
    /// Bad: `Last` at offset 32784.
    LastFrom32784,
    /// Bad: 16 octets at offset 65528, the greatest, and more follow: their end is more than 16 bits.
    NextFrom65528,
    /// A datagram of 7 octets in one packet.
    SevenOctets,
    /// A datagram of no octets in one packet.
    NoOctets,
}

impl PacketName {
    /// The texts of this packet.
    pub fn texts(self) -> PacketText {
        (self.header(), self.octets())
    }

    fn header(self) -> &'static str {
        match self {
            PacketName::First
            | PacketName::FirstAnew
            | PacketName::FirstForPos
            | PacketName::FirstOf21 => "45000024000220000111add40a010101e0e00011",
            PacketName::Last => "45000024000200020111cdd20a010101e0e00011",
            PacketName::LongerLast => "4500002c000200020111cdca0a010101e0e00011",
            PacketName::First3 => "45000024000320000111add30a010101e0e00011",
            PacketName::First4 => "45000024000420000111add20a010101e0e00011",
            PacketName::First5 => "45000024000520000111add10a010101e0e00011",
            PacketName::First6 => "45000024000620000111add00a010101e0e00011",
            PacketName::LastFromAnother => "45000024000200020111cdd10a010102e0e00011",
            PacketName::LastToAnother => "45000024000200020111cdd10a010101e0e00012",
            PacketName::LastTo19 => "45000018000200020111cdde0a010101e0e00011",
            PacketName::LastTo20 => "45000019000200020111cddd0a010101e0e00011",
            PacketName::LastFrom24 => "4500001c000200030111cdd90a010101e0e00011",
            PacketName::EndAt16 => "45000014000200020111cde20a010101e0e00011",
            PacketName::EndAt40 => "45000014000200050111cddf0a010101e0e00011",
            PacketName::Whole => "4500002d000200000111cdcb0a010101e0e00011",
            PacketName::FirstTo11 => "45000020000220000111add80a010101e0e00011",
            PacketName::NextTo20 => "45000019000220020111addd0a010101e0e00011",
            PacketName::EmptyFirst => "45000014000220000111ade40a010101e0e00011",
            PacketName::LastTo8199 => "45000024000203ff0111c9d50a010101e0e00011",
            PacketName::LastTo8200 => "45000025000203ff0111c9d40a010101e0e00011",
            PacketName::LastFrom32784 => "45000024000210020111bdd20a010101e0e00011",
            PacketName::NextFrom65528 => "4500002400023fff01118dd50a010101e0e00011",
            PacketName::SevenOctets => "4500001b000100000111cdde0a010101e0e00011",
            PacketName::NoOctets => "45000014000100000111cde50a010101e0e00011",
        }
    }

    fn octets(self) -> &'static str {
        match self {
            PacketName::First
            | PacketName::First3
            | PacketName::First4
            | PacketName::First5
            | PacketName::First6
            | PacketName::NextFrom65528 => "1389138a00200000a0a1a2a3a4a5a6a7",
            PacketName::Last
            | PacketName::LastFromAnother
            | PacketName::LastToAnother
            | PacketName::LastTo8199
            | PacketName::LastFrom32784 => "b0b1b2b3b4b5b6b7b8b9babbbcbdbebf",
            PacketName::LongerLast => "d0d1d2d3d4d5d6d7d8d9dadbdcdddedfe0e1e2e3e4e5e6e7",
            PacketName::FirstAnew => "1389138a00200000c0c1c2c3c4c5c6c7",
            PacketName::FirstForPos => "1389138800200000a0a1a2a3a4a5a6a7",
            PacketName::FirstOf21 => "1389138a00150000a0a1a2a3a4a5a6a7",
            PacketName::LastTo19 => "b0b1b2b3",
            PacketName::LastTo20 | PacketName::NextTo20 => "b0b1b2b3b4",
            PacketName::LastFrom24 => "b8b9babbbcbdbebf",
            PacketName::EndAt16
            | PacketName::EndAt40
            | PacketName::EmptyFirst
            | PacketName::NoOctets => "",
            PacketName::Whole => "1389138a001900000102030405060708090a0b0c0d0e0f1011",
            PacketName::FirstTo11 => "1389138a00200000a0a1a2a3",
            PacketName::LastTo8200 => "b0b1b2b3b4b5b6b7b8b9babbbcbdbebfc0",
            PacketName::SevenOctets => "13891388000800",
        }
    }
}

/// The datagram that is joined of `First` and `Last`.
pub const JOINED: &str = "1389138a00200000a0a1a2a3a4a5a6a7b0b1b2b3b4b5b6b7b8b9babbbcbdbebf";

/// 25 octets.
const ZEROS: &str = "00000000000000000000000000000000000000000000000000";

/// The octets 0 that make the frame of a packet 60 octets long; `octets` are those after its IPv4 header.
pub fn padding_after(octets: &str) -> &'static str {
    ZEROS.get(octets.len()..).unwrap_or("")
}
