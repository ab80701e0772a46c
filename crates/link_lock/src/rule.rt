//! The rule of the table, and its steps. No value of these types is made.
ghost use Rattle.link_lock.specs.Rule.{Locked, first_part, gave, joined_views, opened_view, second_part, spent, tried};

use crate::recorded::Recorded;
use crate::user::User;
use atomic_table::{Join, Play, Seat, Split, Table, TableRule};
use std::alloc::Global;
use std::snapshot::Snapshot;

/// Owner of a seat.
pub(crate) enum Whose {
    One(User),
    Both,
    Nobody,
}

/// Knowledge of a seat. The list of its own user is right at each moment, and while it has the value, both are.
pub(crate) struct View<S, L> {
    /// The value without all that a visit may change.
    pub fixed: Option<S>,
    pub whose: Whose,
    /// The list of the first user.
    pub first: L,
    /// The list of the second user.
    pub second: L,
    /// The value as the seat took it, if it has it.
    pub held: Option<S>,
}

/// At most one seat has the value. If none has, the lists of both users agree with it.
pub(crate) struct OneHolder;

impl<S: Recorded> TableRule<S, View<S, S::List>, Snapshot<S>> for OneHolder {
    ghost holds = { λ begun. Locked S.fixed S.agree (S.fixed begun.value) };

    ghost first = { λ begun. opened_view (S.fixed begun.value) S.nothing };
}

/// The value is taken, or found to be away.
pub(crate) struct Takes;

impl<S: Recorded> Play<S, View<S, S::List>> for Takes {
    ghost then = { tried S.fixed S.agree };
}

/// The value is given back.
pub(crate) struct GivesBack;

impl<S: Recorded> Play<S, View<S, S::List>> for GivesBack {
    ghost then = { gave S.goes_on };
}

/// The seat of both users, parted and joined.
pub(crate) struct Users;

impl<S: Recorded> Split<View<S, S::List>> for Users {
    ghost left = { first_part };

    ghost right = { second_part };
}

impl<S: Recorded> Join<View<S, S::List>> for Users {
    ghost both = { joined_views };

    ghost spent = { spent S.nothing };
}

/// The word and the slot that both users share.
pub(crate) type LockTable<S> = Table<
    S,
    View<S, <S as Recorded>::List>,
    Snapshot<S>,
    OneHolder,
    Global,
>;

/// A right to take steps on them.
pub(crate) type Right<S, L> = Seat<S, View<S, L>>;
