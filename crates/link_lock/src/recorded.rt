//! Interface of a lock's value.

/// A value with a record of what its two users did. Each ghost member is a choice of the type (own); the contracts of a
/// lock are stated by them.
pub trait Recorded: Drop {
    /// List of what one user did. No value of it is made.
    type List;

    ghost use Rattle.link_lock.specs.declared.user.User.{User};

    /// The fixed part: the value without all that a visit may change.
    ghost fixed: { Self → Self };

    /// The rule: these are the users' lists of this value.
    ghost agree: { (User → Self.List) → Self → Type 0 };

    /// This user's list after a visit that found the first value and left the second.
    ghost goes_on: { User → Self → Self → Self.List → Self.List };

    /// The list of a user that has done nothing.
    ghost nothing: { Self.List };
}
