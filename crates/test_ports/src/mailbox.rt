//! A mailbox port: each public call is made once, and readers look on threads of their own.
mod in_place;
mod port;
mod reads;
mod threads;
