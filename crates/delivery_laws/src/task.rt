//! Deliveries of a receiver, by the messages that were sent to it.
ghost use Rattle.std.specs.Prelude.{◌≡◌, ℕ, List, slice_get, Some};
ghost use Rattle.es_base.specs.Config.{Configuration};
ghost use Rattle.es_base.specs.Port.{Port};
ghost use Rattle.receiver.specs.declared.ends.LinkEnds.{LinkEnds};
ghost use Rattle.receiver.specs.Link.{Ported};
ghost use Rattle.receiver.specs.Outlet.{reads_by};
ghost use Rattle.receiver.specs.Receiver.{IsNew, Links};
ghost use Rattle.receiver.specs.Run.{Call, RanCalls};
ghost use Rattle.delivery_laws.specs.Task.{DeliversEach};

use receiver::Outlet;

/// Each port of a link was given what the packets of the forwarded frames bring, each offered once, and no other
/// message, however many frames the receiver was given since its opening. So each message that arrives (`Arrives`) was
/// given to its port, at a place of its own: a copy passed of its frame, or of the frame of each of its fragments,
/// since any fault was over and before those of later frames, and its queue had room. Which others were lost or
/// overtaken doesn't matter, nor what came later. And if the copies that pass are of a sender's frames, in time, and
/// each packet of those that aren't overtaken is the next of its datagram (`BringDatagrams`), exactly the messages of
/// these datagrams were given, in the order of ending.
pub fn each_datagram_is_given_once<P: Outlet>()
    ensures { (readers : Port → ℕ) (c : Configuration) (first last : Links P) (ends : List (LinkEnds P.End)) (calls : List Call) →
        IsNew P.shows (reads_by P.reads readers) c first ends → RanCalls P.shows P.gives P.answers first calls last →
        (place : ℕ) (link : Ported P) → slice_get last.links place ≡ Some link → DeliversEach P.shows P.answers calls place link }
{}
