//! A partition's reader.
ghost use Rattle.std.specs.Prelude.{◌≡◌, ◌≤◌, [], IfNone, IfSome, drop, length, min, take};
ghost use Rattle.es_base.specs.Age.{freshness as freshness_at};
ghost use Rattle.triple_buffer.specs.Rule.{HasLast, StartsWith, message_in};
ghost use Rattle.mailbox_port.specs.Port.{IsMailboxOf};
ghost use Rattle.mailbox_port.specs.Reads.{IfEmpty, IfMessage, IsCopied, IsLookOf, IsReadAs, told};

use crate::port::{Mailbox, PortWriter};
use crate::reading::Reading;
use es_base::{Freshness, freshness};
use std::marker::Model;
use triple_buffer::Latest;

/// Reading end of a sampling port, for a partition. Contracts see its mailbox and the port's refresh period.
#[derive(Drop)]
pub struct MailboxReader {
    mailbox: Mailbox,
    refresh: u64,
}

impl Model for MailboxReader {
    ghost use Rattle.mailbox_port.specs.Reads.{PortReader};

    ghost Value = { PortReader };

    ghost view = { λ r. record { mailbox = r.mailbox; refresh = r.refresh } };
}

/// Copies the octets that fit to the beginning of `out`.
fn copy_that_fits(octets: &[u8], out: &mut [u8])
    ensures { IsCopied octets.now out.old out.new }
{
    let count = octets.len().min(out.len());
    out[..count].copy_from_slice(&octets[..count]);
}

impl MailboxReader {
    /// The reader of this mailbox, of a port with this refresh period, in microseconds.
    pub fn new(mailbox: Mailbox, refresh: u64) -> MailboxReader
        ensures { result ≡ record { mailbox = mailbox; refresh = refresh } }
    {
        MailboxReader { mailbox, refresh }
    }

    /// The refresh period of the port, in microseconds.
    pub fn refresh(&self) -> u64
        ensures { result ≡ self.now.refresh }
    {
        self.refresh
    }

    /// The longest message of the port, in octets: an `out` of this length has room for each message.
    pub fn max(&self) -> usize
        ensures { result ≡ self.now.mailbox.reader.longest }
    {
        self.mailbox.reader.longest()
    }

    /// Synchronizes the reader with its port's publishing end: it then knows all that was published. Nothing else
    /// changes.
    pub fn meet(&mut self, writer: &mut PortWriter)
        requires { IsMailboxOf writer.old self.old.mailbox }
        ensures reader { self.new ≡ told self.old writer.old.published }
        ensures writer { writer.new ≡ writer.old }
        ensures before { StartsWith writer.old.published self.old.mailbox.reader.known }
    {
        writer.meet(&mut self.mailbox);
    }

    /// Reads the newest message at `now` microseconds, of the clock of the arrival times. The octets that fit are
    /// copied to the beginning of `out`, and `len` is the length of the whole message: if it is at most that of `out`,
    /// all of the message is there. All other octets of `out` are unchanged. One look, of one or two atomic steps.
    pub fn read(&mut self, now: u64, out: &mut [u8]) -> Reading
        ensures looked { IsLookOf self.old self.new }
        ensures message { IfMessage result (λ number time len _. IsReadAs self.new.mailbox.reader.seen out.old out.new number time len) }
        ensures validity { IfMessage result (λ _ time _ validity. validity ≡ freshness_at now time self.old.refresh) }
        ensures empty { IfEmpty result ((self.new.mailbox.reader.seen ≡ []) × (out.new ≡ out.old)) }
    {
        self.update();
        match self.mailbox.reader.latest() {
            Some(latest) => {
                let octets = latest.octets();
                copy_that_fits(octets, out);
                Reading::Message {
                    number: latest.number(),
                    time: latest.time(),
                    len: octets.len(),
                    validity: freshness(now, latest.time(), self.refresh),
                }
            }
            None => Reading::Empty,
        }
    }

    /// Takes the newest message, if it is newer than the reader's. One look, of one or two atomic steps.
    pub fn update(&mut self)
        ensures { IsLookOf self.old self.new }
    {
        self.mailbox.reader.update();
    }

    /// The reader's message, in place: it stays as it is until the next read or update, whatever is published
    /// meanwhile. None only if none was published when the reader looked last.
    ///
    /// ```rust
    /// match reader.latest() {
    ///     Some(latest) => {
    ///         assert!(rt; latest.number() == number && latest.time() == time);
    ///         assert!(rt; latest.octets() == octets, "{number}");
    ///         assert!(rt; reader.validity(time.saturating_add(500), latest) == Fresh);
    /// ..
    /// ```
    pub fn latest(&self) -> Option<&Latest>
        ensures some { IfSome result (λ latest. (latest.now.number ≡ length self.now.mailbox.reader.seen) ×
            HasLast self.now.mailbox.reader.seen (message_in latest.now)) }
        ensures none { IfNone result (self.now.mailbox.reader.seen ≡ []) }
    {
        self.mailbox.reader.latest()
    }

    /// Whether a message of the port is fresh at `now` microseconds.
    pub fn validity(&self, now: u64, latest: &Latest) -> Freshness
        ensures { result ≡ freshness_at now latest.now.time self.now.refresh }
    {
        freshness(now, latest.time(), self.refresh)
    }
}
