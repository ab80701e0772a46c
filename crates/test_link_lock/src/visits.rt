//! Each call of a lock, with what becomes of the book.
ghost use Rattle.std.specs.Prelude.{◌≡◌};
ghost use Rattle.link_lock.specs.declared.user.User.TheVariants.{First, Second};

use crate::book::{Book, open, settle, take_out, try_inside, try_write, write};
use link_lock::{Lock, Opened, PassOf, User};
use std::alloc::Global;
use std::process::Abort;
use std::sync::Wait;

/// A lock round an empty book.
pub(crate) fn opened(rt: &impl Abort, alloc: Global) -> Opened<Book>
    ensures first { (result.first.lock ≡ result.lock) × (result.first.user ≡ First) }
    ensures second { (result.second.lock ≡ result.lock) × (result.second.user ≡ Second) }
{
    open(alloc, 7).expect(rt, "memory")
}

/// The user writes a number, for which there is memory.
pub(crate) fn written<R: Abort + Wait>(
    rt: &R,
    lock: &Lock<Book>,
    pass: &mut PassOf<Book>,
    number: u64,
)
    requires { pass.old.lock ≡ lock.now }
    ensures { (pass.new.lock ≡ pass.old.lock) × (pass.new.user ≡ pass.old.user) }
{
    write(rt, lock, pass, number).expect(rt, "memory");
}

/// The user takes out so many lines.
fn taken_out<R: Abort + Wait>(rt: &R, lock: &Lock<Book>, pass: &mut PassOf<Book>, count: usize)
    requires { pass.old.lock ≡ lock.now }
    ensures { (pass.new.lock ≡ pass.old.lock) × (pass.new.user ≡ pass.old.user) }
{
    let taken = take_out(rt, lock, pass);
    assert!(rt; taken == count, "{taken}");
}

fn check_lines(rt: &impl Abort, book: &Book, wanted: &[(User, u64)]) {
    assert!(rt; book.lines().len() == wanted.len());
    for (line, (by, number)) in book.lines().iter().zip(wanted) {
        assert!(rt; line.by == *by && line.number == *number, "{number}");
    }
}

fn check_users(rt: &impl Abort, opened: &Opened<Book>) {
    assert!(rt; opened.first.user() == User::First);
    assert!(rt; opened.second.user() == User::Second);
}

fn check_visits<R: Abort + Wait>(rt: &R, opened: Opened<Book>)
    requires first { (opened.first.lock ≡ opened.lock) × (opened.first.user ≡ First) }
    requires second { (opened.second.lock ≡ opened.lock) × (opened.second.user ≡ Second) }
{
    let Opened {
        lock,
        mut first,
        mut second,
    } = opened;
    written(rt, &lock, &mut first, 10);
    written(rt, &lock, &mut second, 20);
    written(rt, &lock, &mut second, 21);
    written(rt, &lock, &mut first, 11);
    let book = settle(lock, first, second);
    let wanted = [
        (User::First, 10),
        (User::Second, 20),
        (User::Second, 21),
        (User::First, 11),
    ];
    check_lines(rt, &book, &wanted);
}

// rule: CONC-2, CONC-12, CONC-13
#[test]
fn each_user_finds_what_the_other_left(rt: HostRuntime) {
    let opened = opened(&rt, rt.alloc());
    check_users(&rt, &opened);
    check_visits(&rt, opened);
}

fn check_taken_out<R: Abort + Wait>(rt: &R, opened: Opened<Book>)
    requires first { (opened.first.lock ≡ opened.lock) × (opened.first.user ≡ First) }
    requires second { (opened.second.lock ≡ opened.lock) × (opened.second.user ≡ Second) }
{
    let Opened {
        lock,
        mut first,
        mut second,
    } = opened;
    taken_out(rt, &lock, &mut first, 0);
    written(rt, &lock, &mut first, 10);
    written(rt, &lock, &mut second, 20);
    taken_out(rt, &lock, &mut second, 2);
    written(rt, &lock, &mut first, 11);
    let book = settle(lock, first, second);
    check_lines(rt, &book, &[(User::First, 11)]);
}

// rule: CONC-13
#[test]
fn pages_that_were_taken_out_are_not_in_the_settled_book(rt: HostRuntime) {
    check_taken_out(&rt, opened(&rt, rt.alloc()));
}

/// The user tries to write a number, for which there is memory. Returns whether it came to the book.
fn tried(rt: &impl Abort, lock: &Lock<Book>, pass: &mut PassOf<Book>, number: u64) -> bool
    requires { pass.old.lock ≡ lock.now }
    ensures { (pass.new.lock ≡ pass.old.lock) × (pass.new.user ≡ pass.old.user) }
{
    match try_write(lock, pass, number) {
        Some(wrote) => {
            wrote.expect(rt, "memory");
            true
        }
        None => false,
    }
}

fn check_tries<R: Abort + Wait>(rt: &R, opened: Opened<Book>)
    requires first { (opened.first.lock ≡ opened.lock) × (opened.first.user ≡ First) }
    requires second { (opened.second.lock ≡ opened.lock) × (opened.second.user ≡ Second) }
{
    let Opened {
        lock,
        mut first,
        second,
    } = opened;
    let (mut second, inside) = try_inside(rt, &lock, &mut first, second, 20);
    assert!(rt; !inside);
    assert!(rt; tried(rt, &lock, &mut second, 21));
    assert!(rt; tried(rt, &lock, &mut first, 10));
    written(rt, &lock, &mut second, 22);
    let book = settle(lock, first, second);
    let wanted = [(User::Second, 21), (User::First, 10), (User::Second, 22)];
    check_lines(rt, &book, &wanted);
}

// rule: CONC-4, CONC-7
#[test]
fn a_try_gives_up_while_the_other_user_has_the_book_and_only_then(rt: HostRuntime) {
    check_tries(&rt, opened(&rt, rt.alloc()));
}
