//! A lock round one value (own), with which two users work on threads of their own, one at a time. What each of
//! them did with the value is its *list*, which exists in contracts alone; the rule of the lock is a relation
//! between both lists and the value, chosen by the value's type (`Recorded`), so what was done may be taken out of
//! the value later while the lists keep it. A user works on the value in a *visit*, from the taking of the value to
//! its return: no call leaves the value with a user. A visit takes no memory; it waits while the other user is at
//! work, so it is passed `rt`, and nothing is promised of whose turn is next.
//!
//! ```rust
//! Lock::open(alloc, Book::new(alloc, shelf))
//! ..
//! lock.visit(rt, pass, |book: &mut Book| book.write(by, number))
//! ..
//! lock.settle(first, second)
//! ```
//!
//! The tests of this crate (`test_link_lock`) have a whole example: a book in which two users write numbers, and whose
//! written pages may be taken out.
#![tactic(auto)]

mod lock;
mod pass;
mod recorded;
mod rule;
mod user;

pub use crate::lock::{Lock, Opened};
pub use crate::pass::{Pass, PassOf};
pub use crate::recorded::Recorded;
pub use crate::user::User;
