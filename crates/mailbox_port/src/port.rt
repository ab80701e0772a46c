//! The publishing end of a port, and its mailboxes.
ghost use Rattle.std.specs.Prelude.{◌≡◌, ◌+◌, ◌<◌, ◌≤◌, length, slice_get, Some, IfOk};
ghost use Rattle.triple_buffer.specs.Rule.{StartsWith, message};
ghost use Rattle.triple_buffer.specs.Ends.{most_published};
ghost use Rattle.mailbox_port.specs.Port.{IsMailboxOf, new_mailboxes, new_port, port_with, told_mailbox};

use crate::count::ReaderCount;
use es_base::Memory;
use std::alloc::Global;
use std::marker::Model;
use triple_buffer::{Reader, Writer, meet, open_buffer};

/// Mailbox of one reader.
#[derive(Drop)]
pub struct Mailbox {
    /// The reading end.
    pub reader: Reader,
    /// Place of this mailbox among its port's, 0 to 7.
    pub place: usize,
}

/// Publishing end of a port. Contracts see the buffers of its mailboxes, the longest message in octets, each published
/// message, in order, and the steps at each mailbox.
#[derive(Drop)]
pub struct PortWriter {
    /// Writer of the first mailbox, in place: each port has a reader, and a port with one reader publishes through one
    /// block less.
    first: Writer,
    others: Vec<Writer>,
    longest: usize,
    count: u64,
}

impl Model for PortWriter {
    ghost use Rattle.std.specs.Prelude.{◌∷◌};
    ghost use Rattle.mailbox_port.specs.Port.{AreAlike, PortEnd, port_end};

    ghost Value = { PortEnd };

    ghost view = { λ p. port_end (p.first ∷ p.others.items) p.longest };

    ghost invariant = { λ p. AreAlike (p.first ∷ p.others.items) p.longest p.count };
}

/// Opens a port with a mailbox for each of its readers, for messages of up to `longest` octets. All memory is taken
/// here.
pub fn open_mailboxes(
    alloc: Global,
    longest: usize,
    readers: ReaderCount,
) -> Result<(PortWriter, Vec<Mailbox>), Memory>
    ensures writer { IfOk result (λ ends. (ends.0 ≡ new_port ends.0.buffers longest) × (length ends.0.buffers ≡ readers)) }
    ensures mailboxes { IfOk result (λ ends. ends.1.items ≡ new_mailboxes ends.0.buffers longest) }
{
    let readers = readers.get();
    let mut others = Vec::with_capacity(alloc, readers - 1)?;
    let mut mailboxes = Vec::with_capacity(alloc, readers)?;
    let (first, reader) = open_buffer(alloc, longest)?;
    mailboxes.push(Mailbox { reader, place: 0 })?;
    for place in 1..readers {
        let (writer, reader) = open_buffer(alloc, longest)?;
        others.push(writer)?;
        mailboxes.push(Mailbox { reader, place })?;
    }
    let port = PortWriter {
        first,
        others,
        longest,
        count: 0,
    };
    Ok((port, mailboxes))
}

impl PortWriter {
    /// Number of published messages.
    pub fn published(&self) -> u64
        ensures { result ≡ length self.now.published }
    {
        self.count
    }

    /// The longest message, in octets.
    pub fn longest(&self) -> usize
        ensures { result ≡ self.now.longest }
    {
        self.longest
    }

    /// Publishes a message of these octets that came at `time` microseconds, and returns its number: 1, 2, 3 and so on.
    /// One copy and one atomic step for each reader. It waits for nobody and takes no memory; nothing that a reader
    /// does can refuse or delay it.
    pub fn publish(&mut self, time: u64, octets: &[u8]) -> u64
        requires short { length octets.now ≤ self.old.longest }
        requires few { length self.old.published < most_published }
        ensures number { result ≡ length self.new.published }
        ensures published { self.new ≡ port_with self.old (message time octets.now) }
    {
        self.first.publish(time, octets);
        for place in 0..self.others.len() {
            self.others[place].publish(time, octets);
        }
        self.count += 1;
        self.count
    }

    /// Synchronizes a mailbox with its port: its reader then knows all that was published. Nothing else changes.
    pub fn meet(&mut self, mailbox: &mut Mailbox)
        requires { IsMailboxOf self.old mailbox.old }
        ensures mailbox { mailbox.new ≡ told_mailbox mailbox.old self.old.published }
        ensures writer { self.new ≡ self.old }
        ensures before { StartsWith self.old.published mailbox.old.reader.known }
    {
        if mailbox.place == 0 {
            meet(&mut self.first, &mut mailbox.reader);
        } else {
            meet(&mut self.others[mailbox.place - 1], &mut mailbox.reader);
        }
    }
}
