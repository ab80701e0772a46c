//! A user's pass.
ghost use Rattle.std.specs.Prelude.{◌≡◌};

use crate::recorded::Recorded;
use crate::rule::Right;
use crate::user::User;
use std::marker::Model;

/// One user's pass at a lock, for a value `S` with lists `L`. Contracts see at which lock it is, whose it is, what
/// no visit changes of the value, and the user's list. Between two visits it never has the value.
#[derive(Drop)]
pub struct Pass<S, L> {
    pub(crate) user: User,
    pub(crate) right: Right<S, L>,
}

impl<S, L> Model for Pass<S, L> {
    ghost use Rattle.link_lock.specs.Pass.{KnownPass};
    ghost use Rattle.link_lock.specs.Rule.{IsReady, known_of};

    ghost Value = { KnownPass S L };

    ghost view = { λ p. known_of p.right.table_id p.user p.right.me.0 };

    ghost invariant = { λ p. IsReady p.user p.right.me };
}

/// A user's pass at the lock of such a value.
pub type PassOf<S> = Pass<S, <S as Recorded>::List>;

impl<S, L> Pass<S, L> {
    /// The user of the pass.
    pub fn user(&self) -> User
        ensures { result ≡ self.now.user }
    {
        self.user
    }
}
