//! The lock.
ghost use Rattle.std.specs.Prelude.{◌≡◌, Some, [], ◌∷◌, IfNone, IfOk, IfSome, false, true};
ghost use Rattle.std.specs.Fn.{FnOnceReturnsAtMut, FnOnceTakesAtMut};
ghost use Rattle.atomic_table.specs.Table.{step};
ghost use mathlib.Core.Option.{none};
ghost use Rattle.link_lock.specs.declared.user.User.{User};
ghost use Rattle.link_lock.specs.declared.user.User.TheVariants.{First, Second};
ghost use Rattle.link_lock.specs.Lists.{both_lists};
ghost use Rattle.link_lock.specs.Pass.{MayFind, MayLeave, Visited, known};
ghost use Rattle.link_lock.specs.Rule.{IsReady, MayGive, Took, Worked, gave};

use crate::pass::PassOf;
use crate::recorded::Recorded;
use crate::rule::{GivesBack, LockTable, Right, Takes, Users};
use crate::user::User;
use atomic_table::{Refused, Table};
use std::alloc::{AllocError, Global};
use std::marker::Model;
use std::snapshot::Snapshot;
use std::sync::Wait;
use std::thread;

// The table has one word and one slot.
const WORD: usize = 0;

const SLOT: usize = 0;

// The lock's word: free while the value is in its slot, away while a user has it.
const FREE: u64 = 0;

const AWAY: u64 = 1;

/// A value that two users share, one at a time. Contracts see which lock it is, and nothing of the value, which a
/// user may be changing.
#[derive(Drop)]
pub struct Lock<S: Recorded> {
    table: LockTable<S>,
}

impl<S: Recorded> Model for Lock<S> {
    ghost use Rattle.std.specs.Prelude.{◌≡◌};
    ghost use Rattle.link_lock.specs.Pass.{LockId};

    ghost Value = { LockId };

    ghost view = { λ l. l.table.shared.table_id };

    ghost invariant = { λ l. (l.table.shared.table_id.words ≡ 1) × (l.table.shared.table_id.slots ≡ 1) };
}

/// A new lock and its two users' passes.
#[derive(Drop)]
pub struct Opened<S: Recorded> {
    /// Shared by the threads of both users.
    pub lock: Lock<S>,
    /// The pass of `User::First`.
    pub first: PassOf<S>,
    /// The pass of `User::Second`.
    pub second: PassOf<S>,
}

impl<S: Recorded> Lock<S> {
    /// Puts a value under a lock of its own; no user has done anything so far. All memory of the lock is taken
    /// here. `Err` says that there was none, and the value is dropped.
    // rule: CONC-2
    pub fn open(alloc: Global, value: S) -> Result<Opened<S>, AllocError>
        requires { S.agree (λ _. S.nothing) value }
        ensures first { IfOk result (λ o. o.first ≡ known o.lock First (S.fixed value) S.nothing) }
        ensures second { IfOk result (λ o. o.second ≡ known o.lock Second (S.fixed value) S.nothing) }
    {
        let begun = Snapshot::of(&value);
        let mut slots = Vec::with_capacity(alloc, 1)?;
        slots.push_reserved(value);
        match Table::new(alloc, &[FREE], slots, &begun) {
            Ok((table, mut first)) => {
                let second = table.shared.split_seat::<Users>(&mut first);
                Ok(Opened {
                    lock: Lock { table },
                    first: PassOf::<S> {
                        user: User::First,
                        right: first,
                    },
                    second: PassOf::<S> {
                        user: User::Second,
                        right: second,
                    },
                })
            }
            Err(Refused { slots: _ }) => Err(AllocError),
        }
    }

    /// Takes the value if it is in its slot, and returns whether it was.
    fn try_take(&self, right: &mut Right<S, S::List>) -> bool
        requires lock { right.old.table_id ≡ self.now }
        requires ready { (user : User) × IsReady user right.old.me }
        ensures id { (right.new.table_id ≡ right.old.table_id) × (right.new.id ≡ right.old.id) }
        ensures took { result ≡ true → Took S.fixed S.agree right.old.me right.new.me }
        ensures away { result ≡ false → right.new.me ≡ right.old.me }
    {
        let found = self
            .table
            .shared
            .compare_exchange::<Takes>(right, WORD, FREE, AWAY);
        found == FREE
    }

    /// Waits until the value is in its slot, and takes it.
    fn take<R: Wait>(&self, rt: &R, right: &mut Right<S, S::List>)
        requires lock { right.old.table_id ≡ self.now }
        requires ready { (user : User) × IsReady user right.old.me }
        ensures id { (right.new.table_id ≡ right.old.table_id) × (right.new.id ≡ right.old.id) }
        ensures took { Took S.fixed S.agree right.old.me right.new.me }
    {
        for _ in rt.forever() {
            if self.try_take(right) {
                return;
            }
            thread::yield_now();
        }
        unreachable!()
    }

    /// Gives the value back as it is now.
    fn give_back(&self, right: &mut Right<S, S::List>)
        requires lock { right.old.table_id ≡ self.now }
        requires may { MayGive S.goes_on S.fixed S.agree right.old.me }
        ensures id { (right.new.table_id ≡ right.old.table_id) × (right.new.id ≡ right.old.id) }
        ensures gave { gave S.goes_on (step 1 0 0 0 none) right.old.me 0 right.new.me }
    {
        self.table.shared.store::<GivesBack>(right, WORD, FREE);
    }

    /// Lets `work` change the value that the seat has.
    fn work_on<T, F: FnOnce(&mut S) -> T>(&self, right: &mut Right<S, S::List>, work: F) -> T
        requires lock { right.old.table_id ≡ self.now }
        requires held { (s : S) × (right.old.me.1 ≡ (0, s) ∷ []) × FnOnceTakesAtMut F.FnOnce work s }
        ensures id { (right.new.table_id ≡ right.old.table_id) × (right.new.id ≡ right.old.id) }
        ensures worked { Worked (λ s t. FnOnceReturnsAtMut F.FnOnce work s result t) right.old.me right.new.me }
    {
        work(right.slot_mut(&self.table.shared, SLOT))
    }

    /// One visit: waits until no user has the value, lets `work` change it, gives it back, and returns what `work`
    /// returned. The user's list goes on by the value as found and as left. Takes no memory.
    ///
    /// The caller proves of `work` that it may be called with each value that this user may find (`callable`), and that
    /// the value it leaves keeps the rule, with the user's list gone on and the other's as it was (`keeps`); of both
    /// lists nothing is known but the rule, and that one is the user's own.
    ///
    /// A `work` that visits the same lock with the other user's pass waits for ever.
    // rule: CONC-11, CONC-12
    pub fn visit<R: Wait, T, F: FnOnce(&mut S) -> T>(
        &self,
        rt: &R,
        pass: &mut PassOf<S>,
        work: F,
    ) -> T
        requires lock { pass.old.lock ≡ self.now }
        requires callable { (lists : User → S.List) (found : S) → MayFind S.fixed S.agree pass.old lists found →
            FnOnceTakesAtMut F.FnOnce work found }
        requires keeps { (lists : User → S.List) (found left : S) (answer : T) → MayFind S.fixed S.agree pass.old lists found →
            FnOnceReturnsAtMut F.FnOnce work found answer left → MayLeave S.fixed S.agree S.goes_on pass.old lists found left }
        ensures { Visited S.fixed S.agree S.goes_on (λ found left. FnOnceReturnsAtMut F.FnOnce work found result left) pass.old pass.new }
    {
        let right = &mut pass.right;
        self.take(rt, right);
        let answer = self.work_on(right, work);
        self.give_back(right);
        answer
    }

    /// One visit if no user has the value at this moment: as [`visit`](Lock::visit), and returns what `work` returned.
    /// `None` if a user has it: `work` isn't called, and the pass is as it was, so that another try may follow. Tries
    /// once, and waits for nobody. Takes no memory.
    ///
    /// That `None` comes only if a user has the value isn't proved.
    // rule: CONC-7
    pub fn try_visit<T, F: FnOnce(&mut S) -> T + Drop>(
        &self,
        pass: &mut PassOf<S>,
        work: F,
    ) -> Option<T>
        requires lock { pass.old.lock ≡ self.now }
        requires callable { (lists : User → S.List) (found : S) → MayFind S.fixed S.agree pass.old lists found →
            FnOnceTakesAtMut F.FnOnce work found }
        requires keeps { (lists : User → S.List) (found left : S) (answer : T) → MayFind S.fixed S.agree pass.old lists found →
            FnOnceReturnsAtMut F.FnOnce work found answer left → MayLeave S.fixed S.agree S.goes_on pass.old lists found left }
        ensures visited { IfSome result (λ answer. Visited S.fixed S.agree S.goes_on (λ found left. FnOnceReturnsAtMut F.FnOnce work found answer left) pass.old pass.new) }
        ensures away { IfNone result (pass.new ≡ pass.old) }
    {
        let right = &mut pass.right;
        if !self.try_take(right) {
            return None;
        }
        let answer = self.work_on(right, work);
        self.give_back(right);
        Some(answer)
    }

    /// Ends the lock. Returns the value, with which the lists of both users agree. There is nobody to wait for,
    /// since both passes are here. Takes no memory.
    // rule: CONC-13
    pub fn settle(self, first: PassOf<S>, second: PassOf<S>) -> S
        requires lock { (first.lock ≡ self) × (second.lock ≡ self) }
        requires users { (first.user ≡ First) × (second.user ≡ Second) }
        ensures fixed { Some (S.fixed result) ≡ first.fixed }
        ensures agrees { S.agree (both_lists first.list second.list) result }
    {
        let Lock { table } = self;
        let mut both = first.right;
        table.shared.join_seat::<Users>(&mut both, second.right);
        let mut closed = table.close_with(both);
        let value = closed.take(SLOT);
        closed.free();
        value
    }
}
