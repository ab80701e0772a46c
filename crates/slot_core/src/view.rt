//! Sizes of a sampling port, and the knowledge of its writer and of each reader.

use std::collections::LinkedList;

/// Number of readers of a sampling port (own).
pub const READERS: usize = 8;
/// Number of slots, of one message each: one for each reader, one for the message that `latest` shows,
/// and one to write (own).
pub const SLOTS: usize = READERS + 2;
/// Longest message, in octets (ARINC 664 Part 7, sampling ports: one frame).
pub const LONGEST_MESSAGE: u64 = 1471;
/// Words of a slot, those of the longest message: its length, its time, its octets, eight to a word.
pub const WORDS: usize = 2 + (LONGEST_MESSAGE as usize + 7) / 8;
/// Words of a port's table: `latest`, the announcements, the slots.
pub const TABLE_WORDS: usize = 1 + READERS + WORDS * SLOTS;
/// Greatest message number of a sampling port: 2^60 - 1 (own).
pub const MOST_MESSAGES: u64 = (1 << 60) - 1;
/// Number of slots that a word of `latest` can name; the rest of the word is the message number (own).
pub const MOST_SLOTS: u64 = 16;

/// Phase of a reader. The word is the one of `latest` that it loaded.
#[derive(Clone, Copy, Debug, PartialEq, Eq)]
pub enum Phase {
    /// It reads nothing.
    Idle,
    /// It loaded `latest`.
    Loaded(u64),
    /// It announced what it had loaded.
    Announced(u64),
    /// It found the same word in `latest` again: the slot stays as it is until the reader clears its
    /// announcement.
    Holding(u64),
}

/// Knowledge of the writer: it writes if `stored` isn't empty, and scans else. It exists in contracts
/// alone: no program makes one.
#[derive(Drop)]
pub struct WriterView {
    /// For each reader scanned so far the slot that it announced, or None.
    pub scanned: LinkedList<Option<u64>>,
    /// The slot that it writes.
    pub chosen: u64,
    /// The words stored in this slot so far.
    pub stored: LinkedList<u64>,
    /// The word that it stored last in `latest`, or 0.
    pub last: u64,
    /// The words of each message published so far.
    pub published: LinkedList<LinkedList<u64>>,
}

/// Knowledge of a reader. It exists in contracts alone: no program makes one.
#[derive(Drop)]
pub struct ReaderView {
    pub phase: Phase,
    /// Its own announcement.
    pub own: u64,
    /// The messages published when it last loaded `latest`.
    pub seen: LinkedList<LinkedList<u64>>,
}
