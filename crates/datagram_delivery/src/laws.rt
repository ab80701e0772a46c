//! Which senders and networks bring each datagram once, whole, in order.
ghost use Rattle.std.specs.Prelude.{◌≡◌, ℕ, ◌≤◌, ◌+◌, Bool, true, false, List, [], ◌∷◌, ◌++◌, length, None, Ok};
ghost use Rattle.es_base.specs.declared.place.PortNo.{PortNo};
ghost use Rattle.es_base.specs.declared.fragment.DatagramKey.{DatagramKey};
ghost use Rattle.es_base.specs.declared.event.Arrival.{Arrival};
ghost use Rattle.es_base.specs.declared.event.Event.{Event};
ghost use Rattle.es_base.specs.declared.event.Message.{Message};
ghost use Rattle.es_base.specs.Settings.{Settings};
ghost use Rattle.es_base.specs.Limits.{most_samples};
ghost use Rattle.es_base.specs.Past.{arrival_of};
ghost use Rattle.es_base.specs.Packet.{PacketParts};
ghost use Rattle.link_rules.specs.Fragments.{key_of};
ghost use Rattle.link_rules.specs.Groups.{fate, held, whole};
ghost use Rattle.link_rules.specs.Reassembly.{groups_in, packet_in};
ghost use Rattle.link_rules.specs.Redundancy.{is_forwarded};
ghost use Rattle.link_rules.specs.Outcome.{Payload, brings, outcome};
ghost use Rattle.link_rules.specs.Deliveries.{deliveries, number_delivered};
ghost use Rattle.frame_delivery.specs.Sending.{Copy, Numbering, events_of_copies, events_since};
ghost use Rattle.frame_delivery.specs.Once.{FirstsInOrder, new_copies};
ghost use Rattle.frame_delivery.specs.Network.{ComeWhole, KeepsGap, KeepsPause, KeepsTimes, Timing};
ghost use Rattle.frame_delivery.specs.Since.{PassTimely, forwarded_since, passing_since};
ghost use Rattle.datagram_delivery.specs.Splitting.{AreFewInParts, IsLastFragment, LeavesRoom, Offer, groups_after_offers, is_among, keys_in_parts, none_in_parts, joined, other_keys, pieces_of};
ghost use Rattle.datagram_delivery.specs.Datagrams.{CarryPackets, Completes, KeepsPlace, IsInParts, IsNextFront, IsUnused, messages_by, offers_of};
ghost use Rattle.datagram_delivery.specs.Offers.{offered_in};
ghost use Rattle.datagram_delivery.specs.Arriving.{Arrives, past_before};
ghost use Rattle.datagram_delivery.specs.Interleaved.{AreInterleaved, BringDatagrams, Carried, carried_offers, messages_ended};
ghost use Rattle.datagram_delivery.specs.Parts.{AreWhole, ComeAfterLimit, HaveParts, HavePartsSince, IsMessageOfDatagram, WereSentIn};
ghost use Rattle.datagram_delivery.specs.Counting.{CarryParts, Counting, CountsUp, IsOverBefore, KeepsCount, TurnsOverLate};
ghost use Rattle.frame_delivery.specs.Examples.{numbering, timing};
ghost use Rattle.datagram_delivery.specs.Examples.{a_part_before, after_a_part, among_one_another, counted_anew, counting_anew, datagram_at, datagram_before_restart, datagram_octets, eight, first_key, five_begun, in_two_fragments, link_of_100, link_with_queue, message_in_two, sixteen_octets, one_after, one_identification, one_overtaken, part_sent, payload_sent, payload_with, restarting, three_begun, timing_with_pause};

/// A datagram that is split into fragments is joined whole: each fragment but the last is held, and the last brings
/// exactly the octets of all, one after the other. They come in order and within the limit of time, none is missing,
/// no other of its key was in parts as it began, and of the groups that others begin after it at most three stand at a
/// time, as with four sub-virtual links.
pub fn a_split_datagram_is_joined()
    ensures held { (limit : ℕ) (offers : List Offer) (front : Offer) → IsNextFront limit offers front → fate limit (groups_after_offers limit [] offers) front.packet front.time ≡ held }
    ensures whole { (limit : ℕ) (earlier : List Offer) (first : Offer) (during : List Offer) (last : Offer) → IsInParts limit (key_of last.packet) earlier first during
        → KeepsPlace limit (key_of last.packet) earlier first during → IsLastFragment limit (pieces_of (key_of last.packet) (during ++ first ∷ [])) last
        → fate limit (groups_after_offers limit [] (during ++ first ∷ earlier)) last.packet last.time ≡ whole (joined (pieces_of (key_of last.packet) (during ++ first ∷ [])) ++ last.packet.octets) true }
{}

/// It keeps its place if at most three other datagrams have a fragment between its first and its last: then of the
/// groups that others begin at most three stand at a time. Those are datagrams as the sender counts them, each by its
/// identification; a datagram that is sent whole isn't counted. And no other of its key is in parts if none of them
/// came within the limit of time.
pub fn three_others_leave_room()
    ensures room { (limit : ℕ) (key : DatagramKey) (earlier : List Offer) (first : Offer) (during : List Offer) → IsInParts limit key earlier first during
        → length (other_keys key (during ++ first ∷ [])) ≤ 3 → KeepsPlace limit key earlier first during }
    ensures unused { (limit : ℕ) (key : DatagramKey) (now : ℕ) (earlier : List Offer) → IsUnused limit key now earlier → none_in_parts limit (groups_after_offers limit [] earlier) key now ≡ true }
{}

/// Four datagrams may be in parts at a time, by the sender's count, if each packet is the next of its datagram: each
/// keeps its place then, whatever others begin and end meanwhile. And an identification is free again with its
/// datagram's last fragment.
pub fn four_may_be_in_parts()
    ensures room { (settings : Settings) (carried : List Carried) (key : DatagramKey) (offers earlier : List Offer) → AreInterleaved settings [] carried → AreFewInParts (carried_offers carried)
        → carried_offers carried ≡ offers ++ earlier → LeavesRoom settings.reassembly (groups_after_offers settings.reassembly [] earlier) key offers }
    ensures free { (settings : Settings) (carried : List Carried) (key : DatagramKey) (now : ℕ) (offers earlier : List Offer) → AreInterleaved settings [] carried
        → carried_offers carried ≡ offers ++ earlier → is_among key (keys_in_parts earlier) ≡ false → none_in_parts settings.reassembly (groups_after_offers settings.reassembly [] earlier) key now ≡ true }
{}

/// What a port gets is what it would get if the packets of the frames that were forwarded were offered one by one, in
/// any past of a link: this asks nothing of senders and of networks, and no fault voids it. The groups stand as after
/// these offers.
pub fn deliveries_are_of_what_was_offered()
    ensures messages { (settings : Settings) (past : List Event) (port : PortNo) → deliveries settings past port ≡ messages_by settings (offered_in settings past) port }
    ensures groups { (settings : Settings) (past : List Event) → groups_in settings past ≡ groups_after_offers settings.reassembly [] (offered_in settings past) }
{}

/// After any past the packet of each frame of which a copy passes before all copies of later frames, from the first on
/// that is forwarded, is offered once, in the order of sending, at the time of the first that passes: whatever is lost
/// of others, and whatever the packets are.
pub fn each_passing_packet_is_offered_once()
    ensures { (settings : Settings) (numbering : Numbering) (timing : Timing) (packet : ℕ → PacketParts) (old : List Event) (copies : List Copy) → PassTimely settings numbering timing old copies
        → CarryPackets packet (forwarded_since settings old copies)
        → offered_in settings (events_since copies old) ≡ offers_of packet (new_copies (passing_since settings old copies)) ++ offered_in settings old }
{}

/// If a sender sends its datagrams whole, or the fragments of up to four of them among one another, as its sub-virtual
/// links do, a port gets after any past exactly the messages whose last packet comes before all copies of later frames:
/// each once, whole, in the order of ending, with the time of the first copy of its last fragment that passes; but for
/// those whose queue was full then.
pub fn each_datagram_among_others_is_delivered_once()
    ensures { (settings : Settings) (numbering : Numbering) (timing : Timing) (packet : ℕ → PacketParts) (old : List Event) (copies : List Copy) (carried : List Carried) (port : PortNo)
        → PassTimely settings numbering timing old copies → CarryPackets packet (forwarded_since settings old copies) → offers_of packet (new_copies (passing_since settings old copies)) ≡ carried_offers carried
        → AreInterleaved settings (offered_in settings old) carried → number_delivered settings old port + length carried ≤ most_samples
        → deliveries settings (events_since copies old) port ≡ deliveries settings old port ++ messages_ended port carried }
{}

/// So a message that arrives is delivered to its port: whatever came before its sender's copies, whatever was lost of
/// others, or came after one of a later frame, and whatever comes after it. No fault of a sender or a network, once it
/// is over, voids this. It stands right after what was delivered before it: so each that arrives has a place of its
/// own. For any frame that is forwarded brings the message that its packet completes, whatever groups stand.
pub fn each_message_that_arrives_is_delivered()
    ensures completed { (settings : Settings) (past : List Event) (a : Arrival) (room : Bool) (packet : PacketParts) (payload : Payload) → is_forwarded settings past a ≡ true → packet_in a.frame ≡ Ok packet
        → Completes settings payload (offered_in settings past) (record { packet = packet; time = a.time; room = room }) → outcome settings past a ≡ brings payload }
    ensures brings { (settings : Settings) (past : List Event) (payload : Payload) (time : ℕ) → (one : Arrives settings past payload time) → outcome settings (past_before one) (arrival_of one.copy.event) ≡ brings payload }
    ensures delivered { (settings : Settings) (past : List Event) (payload : Payload) (time : ℕ) → (one : Arrives settings past payload time)
        → (later : List Message) × (deliveries settings past payload.port ≡ deliveries settings (past_before one) payload.port ++ record { time = time; octets = payload.octets } ∷ later) }
{}

/// Nothing is made up, mixed or cut, whatever is lost, brought twice or out of order, and whatever came before: a
/// message that a port gets is that of the datagram of which the frame has a part that came at its time. It is only
/// asked that no two fragments that come within the limit of time of each other are of different datagrams with one
/// identification, and that an old past hasn't these identifications within it: they may be any once the limit is over
/// since all that was forwarded there, or with nothing before. Nothing is asked of the identifications of datagrams
/// that are sent whole.
pub fn each_message_was_sent()
    ensures brought { (settings : Settings) (datagram : Event → List ℕ) (old : List Event) (e : Event) (past : List Event) (payload : Payload) → HavePartsSince settings datagram old (e ∷ past)
        → outcome settings (past ++ old) (arrival_of e) ≡ brings payload → IsMessageOfDatagram settings e.frame (datagram e) payload }
    ensures delivered { (settings : Settings) (datagram : Event → List ℕ) (old past : List Event) (port : PortNo) → HavePartsSince settings datagram old past
        → (more : List Message) × (deliveries settings (past ++ old) port ≡ deliveries settings old port ++ more) × WereSentIn settings datagram port past more }
    ensures limit_over { (settings : Settings) (datagram : Event → List ℕ) (old past : List Event) → HaveParts settings.reassembly datagram past → ComeAfterLimit settings old past
        → HavePartsSince settings datagram old past }
    ensures nothing_before { (settings : Settings) (datagram : Event → List ℕ) (past : List Event) → HaveParts settings.reassembly datagram past → HavePartsSince settings datagram [] past }
    ensures whole { (limit : ℕ) (datagram : Event → List ℕ) (past : List Event) → AreWhole datagram past → HaveParts limit datagram past }
{}

/// A sender may count identifications if one comes again only after longer than the reassembly limit and what the times
/// on the way differ by. It may begin the count anew at a restart if its pause is longer than that. A count that goes
/// on over restarts needs no pause. Where datagrams are sent one after another, a count turns over after 65,536 frames
/// at the soonest.
pub fn a_count_of_identifications_mixes_nothing()
    ensures parts { (limit : ℕ) (numbering : Numbering) (timing : Timing) (counting : Counting) (datagram : Event → List ℕ) (copies : List Copy) → KeepsTimes numbering timing copies
        → CarryParts counting datagram copies → KeepsCount limit numbering timing counting → HaveParts limit datagram (events_of_copies copies) }
    ensures turns_over { (limit : ℕ) (numbering : Numbering) (timing : Timing) (counting : Counting) → KeepsGap timing → KeepsPause numbering timing → CountsUp counting → IsOverBefore limit timing
        → TurnsOverLate limit timing counting }
    ensures goes_on { (limit : ℕ) (numbering : Numbering) (timing : Timing) (counting : Counting) → ((index : ℕ) → counting.anew index ≡ false) → TurnsOverLate limit timing counting
        → KeepsCount limit numbering timing counting }
{}

/// The conditions can be met: by a message in two fragments, of which each network loses one, also after a part of
/// another with its identification, of which the rest was lost, and a frame of no sender; by two messages among one
/// another; and by a message after a frame that is lost, since its one copy comes after one of a later frame: those
/// before it are delivered, and so is this.
pub fn the_conditions_can_be_met()
    ensures in_fragments { BringDatagrams link_with_queue (events_of_copies in_two_fragments) message_in_two }
    ensures among { AreInterleaved link_with_queue [] among_one_another × AreFewInParts (carried_offers among_one_another) }
    ensures arrives { Arrives link_with_queue (events_since after_a_part a_part_before) payload_sent 61500 }
    ensures after_overtaken { Arrives link_with_queue (events_of_copies (one_after ∷ one_overtaken)) (payload_with 3) 1600 × (FirstsInOrder (passing_since link_with_queue [] one_overtaken) → ⊥)
        × (deliveries link_with_queue (events_of_copies (one_after ∷ one_overtaken)) (record { 0 = 0 })
        ≡ record { time = 100; octets = eight 0 } ∷ record { time = 1100; octets = eight 2 } ∷ record { time = 1600; octets = eight 3 } ∷ []) }
    ensures parts { HaveParts 50000 (λ e. datagram_octets) (events_of_copies in_two_fragments) }
    ensures delivered { deliveries link_with_queue (events_of_copies in_two_fragments) (record { 0 = 0 }) ≡ record { time = 1500; octets = sixteen_octets } ∷ [] }
{}

/// Counterexamples with one condition not met, and all others met: with a fifth datagram in parts the first isn't
/// completed, so its message isn't delivered; and within the limit of time, to the microsecond, one identification for
/// two datagrams mixes them. So does a count of identifications that a restart begins anew, with a limit of 50,000 and
/// a pause of 10,000: one fragment is lost on both networks. That pause is long enough for a limit of 9,999, with which
/// no message is delivered.
pub fn each_condition_is_needed()
    ensures fifth_group { IsInParts 50000 first_key [] (part_sent 1 0 100).offer ((part_sent 5 0 500).offer ∷ three_begun) × IsLastFragment 50000 (pieces_of first_key (carried_offers five_begun)) (part_sent 1 1 600).offer
        × KeepsPlace 50000 first_key [] (part_sent 1 0 100).offer three_begun × (KeepsPlace 50000 first_key [] (part_sent 1 0 100).offer ((part_sent 5 0 500).offer ∷ three_begun) → ⊥)
        × AreInterleaved link_with_queue [] five_begun × (AreFewInParts (carried_offers five_begun) → ⊥)
        × (fate 50000 (groups_after_offers 50000 [] (carried_offers five_begun)) (part_sent 1 1 600).offer.packet 600 ≡ held)
        × (messages_by link_with_queue ((part_sent 1 1 600).offer ∷ carried_offers five_begun) (record { 0 = 0 }) ≡ []) }
    ensures identification_again { HaveParts 99 datagram_at (events_of_copies one_identification) × (HaveParts 100 datagram_at (events_of_copies one_identification) → ⊥)
        × (deliveries link_of_100 (events_of_copies one_identification) (record { 0 = 0 }) ≡ record { time = 200; octets = eight 1 ++ eight 2 } ∷ []) }
    ensures counted_anew_too_soon { ComeWhole link_with_queue restarting timing_with_pause counted_anew × CarryParts counting_anew datagram_before_restart counted_anew × TurnsOverLate 50000 timing_with_pause counting_anew
        × (KeepsCount 50000 restarting timing_with_pause counting_anew → ⊥) × KeepsCount 9999 restarting timing_with_pause counting_anew
        × (deliveries link_with_queue (events_of_copies counted_anew) (record { 0 = 0 }) ≡ record { time = 13100; octets = eight 1 ++ eight 2 } ∷ [])
        × (deliveries (record link_with_queue { reassembly = 9999 }) (events_of_copies counted_anew) (record { 0 = 0 }) ≡ []) }
{}
