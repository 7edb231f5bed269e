//! Why a year has no limit, by number and word.
ghost use Rattle.std.specs.Prelude.{◌≡◌, Some};
ghost use Rattle.limit.specs.Outcome.{no_limit_number, no_limit_word};

use crate::outcome::NoLimit;
use std::fmt;

impl NoLimit {
    /// The number by which the cause goes.
    pub fn number(&self) -> u64
        ensures { result ≡ no_limit_number self.now }
    {
        // A method of its own, as each fault has: a trait for it would need as many impls with this one line.
        *self as u64
    }
}

/// The word that goes with the number.
impl fmt::Display for NoLimit {
    ghost output = { λ c. Some (no_limit_word c) };

    fn fmt<W: fmt::Write>(&self, f: &mut fmt::Formatter<W>) -> fmt::Result {
        f.write_str(match self {
            NoLimit::Vacant => "vacant",
            NoLimit::Early => "early",
            NoLimit::Exempt => "exempt",
        })
    }
}
