//! The queue of a queuing port: messages in their order, and two threads over one queue.
mod ends;
mod messages;
mod order;
mod threads;
