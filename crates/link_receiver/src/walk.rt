//! A walk through a link's history.
ghost use Rattle.std.specs.Prelude.{◌≡◌, ◌<◌, ◌≤◌, ◌∷◌, ◌++◌, List, IfOk, OnOk, Some, length, reverse, slice_get, take};
ghost use Rattle.std.specs.Option.{option_to_list};
ghost use Rattle.es_base.specs.declared.event.Event.{Event};
ghost use Rattle.es_base.specs.Frame.{IsFrame};
ghost use Rattle.es_base.specs.Past.{AreFramesOf, arrival_of};
ghost use Rattle.link_rules.specs.Reassembly.{groups_in};
ghost use Rattle.link_rules.specs.Outcome.{outcome};
ghost use Rattle.link_rules.specs.Deliveries.{delivered, number_delivered};
ghost use Rattle.link_rules.specs.Run.{IsRun};
ghost use Rattle.ip_reassembly.specs.Kept.{StandsFor};
ghost use Rattle.link_core.specs.Told.{IsLawfulAfter, tells_delivered};
ghost use Rattle.es_base.specs.Settings.{Settings};
ghost use Rattle.link_receiver.specs.Walk.{AreDeliveredBefore, AreSince};

use crate::offer::{offer, packet_of};
use block_list::BlockList;
use es_base::{Event, LinkSettings, Memory, Message, PortNo};
use ip_reassembly::{Reassembly, WaitingDatagrams};
use link_core::tells_delivered;
use std::alloc::Global;

/// The messages that a lawful history of a link delivered to a port, in order. `before` are the pieces that waited
/// before the history. Pieces are joined anew, by a reassembly of the walk's own, up to the last event that delivered a
/// message.
pub(crate) fn deliveries_after(
    alloc: Global,
    settings: &LinkSettings,
    before: &WaitingDatagrams,
    history: &BlockList<Event>,
    port: PortNo,
) -> Result<Vec<Message>, Memory>
    requires frames { AreFramesOf settings.now (reverse history.now.items) }
    ensures { IfOk result (λ messages. (earlier : List Event) →
        StandsFor before.now settings.now.reassembly (groups_in settings.now earlier) →
        IsRun settings.now (reverse history.now.items ++ earlier) →
        AreSince settings.now earlier (reverse history.now.items) port messages.items) }
{
    let end = end_of(history, port);
    if end == 0 {
        return Ok(Vec::new(alloc));
    }
    let reassembly = before.begin(alloc)?;
    deliveries_before(alloc, settings, reassembly, history, end, port)
}

/// Number of events up to the last one that delivered a message to the port.
fn end_of(history: &BlockList<Event>, port: PortNo) -> usize
    ensures { AreDeliveredBefore result port history.now.items }
{
    let mut end = history.len();
    'events: while end > 0 && !delivers_at(history, end - 1, port) {
        end -= 1;
    }
    end
}

/// Whether the event at this place delivered a message to the port.
fn delivers_at(history: &BlockList<Event>, place: usize, port: PortNo) -> bool
    requires { place < length history.now.items }
    ensures { (e : Event) → slice_get history.now.items place ≡ Some e → result ≡ tells_delivered e.verdict port }
{
    match history.get(place) {
        Some(event) => tells_delivered(event.verdict, port),
        None => false,
    }
}

/// The messages that the events of the history before this place delivered. `reassembly` is that before the history.
fn deliveries_before(
    alloc: Global,
    settings: &LinkSettings,
    mut reassembly: Reassembly,
    history: &BlockList<Event>,
    end: usize,
    port: PortNo,
) -> Result<Vec<Message>, Memory>
    requires frames { AreFramesOf settings.now (reverse history.now.items) }
    requires within { end ≤ length history.now.items }
    ensures { IfOk result (λ messages. (earlier : List Event) →
        StandsFor reassembly settings.now.reassembly (groups_in settings.now earlier) →
        IsRun settings.now (reverse history.now.items ++ earlier) →
        AreSince settings.now earlier (reverse (take end history.now.items)) port messages.items) }
{
    let mut messages = Vec::new(alloc);
    'events: for place in 0..end {
        if let Some(event) = history.get(place) {
            let message = message_of(alloc, &mut reassembly, event, port)?;
            add(&mut messages, message)?;
        }
    }
    Ok(messages)
}

/// Adds a message, if any.
fn add(messages: &mut Vec<Message>, message: Option<Message>) -> Result<(), Memory>
    ensures { OnOk result (messages.new.items ≡ messages.old.items ++ option_to_list message) }
{
    if let Some(message) = message {
        messages.push(message)?;
    }
    Ok(())
}

/// The message that an event delivered to a port. Its packet is offered to reassembly.
fn message_of(
    alloc: Global,
    reassembly: &mut Reassembly,
    event: &Event,
    port: PortNo,
) -> Result<Option<Message>, Memory>
    requires { IsFrame event.now.frame }
    ensures stands { (o : Settings) (past : List Event) → IsLawfulAfter o past event.now →
        StandsFor reassembly.old o.reassembly (groups_in o past) →
        StandsFor reassembly.new o.reassembly (groups_in o (event.now ∷ past)) }
    ensures message { IfOk result (λ message. (o : Settings) (past : List Event) → IsLawfulAfter o past event.now →
        StandsFor reassembly.old o.reassembly (groups_in o past) →
        option_to_list message ≡ delivered (outcome o past (arrival_of event.now)) event.now.room event.now.time port (number_delivered o past port)) }
{
    let packet = packet_of(event);
    let delivers = tells_delivered(event.verdict, port);
    offer(alloc, reassembly, packet, event.time, delivers)
}
