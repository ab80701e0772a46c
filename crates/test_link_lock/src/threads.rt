//! Two threads that visit one value, each of which ends by itself.
ghost use Rattle.std.specs.Prelude.{◌≡◌};
ghost use Rattle.link_lock.specs.declared.user.User.TheVariants.{First, Second};

use crate::book::{Book, Line, settle, take_out};
use crate::visits::{opened, written};
use link_lock::{Lock, Opened, PassOf, User};
use std::process::Abort;
use std::sync::Wait;
use std::thread;
use std::thread::{Threads, join};

/// Number of numbers that each user writes.
const MANY: u64 = 20_000;

/// Writes the numbers from 0 on.
fn write_many<R: Abort + Wait>(rt: &R, lock: &Lock<Book>, mut pass: PassOf<Book>) -> PassOf<Book>
    requires { pass.lock ≡ lock.now }
    ensures { (result.lock ≡ pass.lock) × (result.user ≡ pass.user) }
{
    for number in 0..MANY {
        written(rt, lock, &mut pass, number);
    }
    pass
}

/// The numbers of this user are 0, 1 and so on. Returns their number.
fn count_in_order(rt: &impl Abort, lines: &[Line], user: User) -> u64 {
    let mut count = 0u64;
    for line in lines {
        if line.by == user {
            assert!(rt; line.number == count, "{count}");
            count = count.wrapping_add(1);
        }
    }
    count
}

fn check_writers<R: Abort + Threads + Wait + Sync>(rt: &R, opened: Opened<Book>)
    requires first { (opened.first.lock ≡ opened.lock) × (opened.first.user ≡ First) }
    requires second { (opened.second.lock ≡ opened.lock) × (opened.second.user ≡ Second) }
{
    let Opened {
        lock,
        first,
        second,
    } = opened;
    let shared = &lock;
    let (first, second) = join(
        rt,
        move ||
            requires { (first.lock ≡ shared.now) × (first.user ≡ First) }
            ensures { (result.lock ≡ shared.entry.now) × (result.user ≡ First) }
        { write_many(rt, shared, first) },
        move ||
            requires { (second.lock ≡ shared.now) × (second.user ≡ Second) }
            ensures { (result.lock ≡ shared.entry.now) × (result.user ≡ Second) }
        { write_many(rt, shared, second) },
    );
    let book = settle(lock, first, second);
    assert_eq!(rt; count_in_order(rt, book.lines(), User::First), MANY);
    assert_eq!(rt; count_in_order(rt, book.lines(), User::Second), MANY);
    assert!(rt; book.lines().len() as u64 == 2 * MANY);
}

// rule: CONC-1, CONC-11
#[test]
fn two_threads_write_into_one_book_and_no_line_is_lost(rt: HostRuntime) {
    check_writers(&rt, opened(&rt, rt.alloc()));
}

/// Takes written pages out again and again. Returns their number of lines.
fn take_out_many<R: Abort + Wait>(
    rt: &R,
    lock: &Lock<Book>,
    mut pass: PassOf<Book>,
) -> (PassOf<Book>, u64)
    requires { pass.lock ≡ lock.now }
    ensures { (result.0.lock ≡ pass.lock) × (result.0.user ≡ pass.user) }
{
    let mut count = 0u64;
    for _ in 0..MANY {
        count = count.wrapping_add(take_out(rt, lock, &mut pass) as u64);
        thread::yield_now();
    }
    (pass, count)
}

fn check_writer_and_remover<R: Abort + Threads + Wait + Sync>(rt: &R, opened: Opened<Book>)
    requires first { (opened.first.lock ≡ opened.lock) × (opened.first.user ≡ First) }
    requires second { (opened.second.lock ≡ opened.lock) × (opened.second.user ≡ Second) }
{
    let Opened {
        lock,
        first,
        second,
    } = opened;
    let shared = &lock;
    let (first, (second, taken)) = join(
        rt,
        move ||
            requires { (first.lock ≡ shared.now) × (first.user ≡ First) }
            ensures { (result.lock ≡ shared.entry.now) × (result.user ≡ First) }
        { write_many(rt, shared, first) },
        move ||
            requires { (second.lock ≡ shared.now) × (second.user ≡ Second) }
            ensures { (result.0.lock ≡ shared.entry.now) × (result.0.user ≡ Second) }
        { take_out_many(rt, shared, second) },
    );
    let book = settle(lock, first, second);
    let left = book.lines().len() as u64;
    assert_eq!(rt; taken.wrapping_add(left), MANY);
}

// rule: CONC-13
#[test]
fn one_thread_takes_out_pages_while_another_writes(rt: HostRuntime) {
    check_writer_and_remover(&rt, opened(&rt, rt.alloc()));
}
