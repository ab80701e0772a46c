//! An example of a value under a lock: a book in which two users write numbers, and whose written pages may be
//! taken out.
ghost use Rattle.std.specs.Prelude.{◌≡◌, [], ◌∷◌, ◌++◌, length, OnOk, OnErr, IfNone, IfOk, IfSome};
ghost use Rattle.link_lock.specs.declared.user.User.TheVariants.{First, Second};
ghost use Rattle.link_lock.specs.Lists.{both_lists};
ghost use Rattle.link_lock.specs.Pass.{known, with_list_of};
ghost use Rattle.test_link_lock.specs.Book.{AreLists, empty_book, book_line, with_line, without_lines};

use link_lock::{Lock, Opened, PassOf, Recorded, User};
use std::alloc::{AllocError, Global};
use std::collections::LinkedList;
use std::marker::Model;
use std::sync::Wait;

/// A line of a user.
#[derive(Clone, Copy, Debug, PartialEq, Eq)]
pub struct Line {
    pub by: User,
    pub number: u64,
}

/// A book. Contracts see its shelf and its lines.
#[derive(Drop)]
pub struct Book {
    shelf: u64,
    lines: Vec<Line>,
}

impl Model for Book {
    ghost use Rattle.test_link_lock.specs.Book.{Pages};

    ghost Value = { Pages };

    ghost view = { λ b. record { shelf = b.shelf; lines = b.lines.items } };
}

impl Book {
    /// An empty book.
    pub fn new(alloc: Global, shelf: u64) -> Book
        ensures { result ≡ empty_book shelf }
    {
        Book {
            shelf,
            lines: Vec::new(alloc),
        }
    }

    /// The lines that are there, in order.
    pub fn lines(&self) -> &[Line]
        ensures { result.now ≡ self.now.lines }
    {
        &self.lines
    }

    /// Writes a line at the end.
    pub fn write(&mut self, by: User, number: u64) -> Result<(), AllocError>
        ensures ok { OnOk result (self.new ≡ with_line self.old (book_line by number)) }
        ensures err { OnErr result (self.new ≡ self.old) }
    {
        self.lines.push(Line { by, number })?;
        Ok(())
    }

    /// Takes all written pages out. Returns their number of lines.
    pub fn take_out(&mut self) -> usize
        ensures lines { result ≡ length self.old.lines }
        ensures rest { self.new ≡ without_lines self.old }
    {
        let count = self.lines.len();
        self.lines.clear();
        count
    }
}

impl Recorded for Book {
    type List = LinkedList<u64>;

    ghost use Rattle.std.specs.Prelude.{[]};
    ghost use Rattle.test_link_lock.specs.Book.{AreLists, goes_on, without_lines};

    ghost fixed = { without_lines };

    ghost agree = { AreLists };

    ghost goes_on = { goes_on };

    ghost nothing = { [] };
}

/// A lock round an empty book.
pub fn open(alloc: Global, shelf: u64) -> Result<Opened<Book>, AllocError>
    ensures first { IfOk result (λ o. o.first ≡ known o.lock First (empty_book shelf) []) }
    ensures second { IfOk result (λ o. o.second ≡ known o.lock Second (empty_book shelf) []) }
{
    Lock::open(alloc, Book::new(alloc, shelf))
}

/// The user writes a number. If memory runs out nothing is written.
pub fn write<R: Wait>(
    rt: &R,
    lock: &Lock<Book>,
    pass: &mut PassOf<Book>,
    number: u64,
) -> Result<(), AllocError>
    requires { pass.old.lock ≡ lock.now }
    ensures ok { OnOk result (pass.new ≡ with_list_of pass.old (pass.old.list ++ number ∷ [])) }
    ensures err { OnErr result (pass.new ≡ pass.old) }
{
    let by = pass.user();
    lock.visit(rt, pass, |book: &mut Book| book.write(by, number))
}

/// The user writes a number if nobody has the book at this moment. `None` if another user has it, and nothing is
/// written.
pub fn try_write(
    lock: &Lock<Book>,
    pass: &mut PassOf<Book>,
    number: u64,
) -> Option<Result<(), AllocError>>
    requires { pass.old.lock ≡ lock.now }
    ensures ok { IfSome result (λ wrote. OnOk wrote (pass.new ≡ with_list_of pass.old (pass.old.list ++ number ∷ []))) }
    ensures err { IfSome result (λ wrote. OnErr wrote (pass.new ≡ pass.old)) }
    ensures away { IfNone result (pass.new ≡ pass.old) }
{
    let by = pass.user();
    lock.try_visit(pass, |book: &mut Book| book.write(by, number))
}

/// While this user has the book, the other one tries to write a number. Returns the other one's pass, and whether it
/// came to the book.
pub fn try_inside<R: Wait>(
    rt: &R,
    lock: &Lock<Book>,
    pass: &mut PassOf<Book>,
    other: PassOf<Book>,
    number: u64,
) -> (PassOf<Book>, bool)
    requires own { pass.old.lock ≡ lock.now }
    requires other { other.lock ≡ lock.now }
    ensures same { pass.new ≡ pass.old }
    ensures other { (result.0.lock ≡ other.lock) × (result.0.user ≡ other.user) }
{
    lock.visit(
        rt,
        pass,
        move |book: &mut Book| -> (PassOf<Book>, bool)
            requires { other.lock ≡ lock.now }
            ensures book { book.new ≡ book.old }
            ensures other { (result.0.lock ≡ other.lock) × (result.0.user ≡ other.user) }
        {
            let mut other = other;
            let wrote = try_write(lock, &mut other, number);
            (other, wrote.is_some())
        },
    )
}

/// The user takes all written pages out, whoever wrote them. Returns their number of lines.
pub fn take_out<R: Wait>(rt: &R, lock: &Lock<Book>, pass: &mut PassOf<Book>) -> usize
    requires { pass.old.lock ≡ lock.now }
    ensures { pass.new ≡ pass.old }
{
    lock.visit(rt, pass, |book: &mut Book| book.take_out())
}

/// The book, and what both users wrote into it: after the pages that were taken out, the lines that are there.
pub fn settle(lock: Lock<Book>, first: PassOf<Book>, second: PassOf<Book>) -> Book
    requires lock { (first.lock ≡ lock) × (second.lock ≡ lock) }
    requires users { (first.user ≡ First) × (second.user ≡ Second) }
    ensures { AreLists (both_lists first.list second.list) result }
{
    lock.settle(first, second)
}
