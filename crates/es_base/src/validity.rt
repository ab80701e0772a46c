//! Validity of a message, by its age and its port's refresh period.
ghost use Rattle.std.specs.Prelude.{Some};
ghost use Rattle.es_base.specs.Age.{freshness_word};

use std::fmt;

/// Validity of a message, by its age and its port's refresh period.
#[derive(Clone, Copy, Debug, PartialEq, Eq)]
pub enum Freshness {
    /// Its age is at most the refresh period.
    Fresh,
    /// Its age is greater.
    Stale,
}

impl fmt::Display for Freshness {
    ghost output = { λ state. Some (freshness_word state) };

    fn fmt<W: fmt::Write>(&self, f: &mut fmt::Formatter<W>) -> fmt::Result {
        f.write_str(match self {
            Freshness::Fresh => "fresh",
            Freshness::Stale => "stale",
        })
    }
}
