//! Why a line has no contribution.
ghost use Rattle.std.specs.Prelude.{◌≡◌, Some};
ghost use Rattle.standard.specs.Causes.{cause_number, cause_word};

use std::fmt;

/// The cause of a line's fault.
#[derive(Clone, Copy, Debug, PartialEq, Eq)]
pub enum Cause {
    /// The method serves no calculated lines.
    Method = 31,
    /// No reference year qualifies.
    Reference = 32,
    /// The calculated standard is above the most, as rounded.
    Large = 33,
    /// There is production and no capacity.
    Capacity = 34,
}

impl Cause {
    /// The number by which the cause goes.
    pub fn number(&self) -> u64
        ensures { result ≡ cause_number self.now }
    {
        // A method of its own, as each fault has: a trait for it would need as many impls with this one line.
        *self as u64
    }
}

/// The word that goes with the number.
impl fmt::Display for Cause {
    ghost output = { λ c. Some (cause_word c) };

    fn fmt<W: fmt::Write>(&self, f: &mut fmt::Formatter<W>) -> fmt::Result {
        f.write_str(match self {
            Cause::Method => "method",
            Cause::Reference => "reference",
            Cause::Large => "large",
            Cause::Capacity => "capacity",
        })
    }
}
