//! What a partition gets that only reads a sampling port: each public call once, and a reader that looks on a thread of
//! its own.
mod holds;
mod port;
mod reads;
mod threads;
