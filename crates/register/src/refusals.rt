//! Why a register refuses a call.
ghost use Rattle.std.specs.Prelude.{◌≡◌, Some};
ghost use Rattle.register.specs.Refusals.{refusal_told, refusal_word};
ghost use Rattle.register.specs.declared.refusals.Refusal.TheVariants.{Enrolment};

use enrolment::faults::EnrolmentFault;
use std::fmt;

/// A register's refusal of a call, which then changes nothing.
#[derive(Clone, Copy, Debug, PartialEq, Eq)]
pub enum Refusal {
    /// The facility is not enrolled.
    Unknown = 11,
    /// The facility is enrolled already.
    Enrolled = 12,
    /// A field of the enrolment is outside its range.
    // The number of the enrolment's own fault: an enum declared with its numbers holds no values, so it is said again.
    Enrolment = 13,
    /// A filing stands at the place.
    Stands = 14,
    /// Nothing stands at the place, or the year has none.
    Vacant = 15,
    /// The undo log is full.
    Book = 16,
    /// The undo log is empty.
    Bare = 17,
    /// The last number is used.
    Spent = 18,
}

impl From<EnrolmentFault> for Refusal {
    ghost from_gives = { λ e r. r ≡ Enrolment };

    fn from(fault: EnrolmentFault) -> Refusal {
        match fault {
            EnrolmentFault::Outside => Refusal::Enrolment,
        }
    }
}

impl Refusal {
    /// The number by which the refusal goes.
    pub fn number(&self) -> u64
        ensures { result ≡ (refusal_told self.now).number }
    {
        // A method of its own, as each fault has: a trait for it would need as many impls with this one line.
        *self as u64
    }
}

/// The word that goes with the number.
impl fmt::Display for Refusal {
    ghost output = { λ w. Some (refusal_word w) };

    fn fmt<W: fmt::Write>(&self, f: &mut fmt::Formatter<W>) -> fmt::Result {
        f.write_str(match self {
            Refusal::Unknown => "unknown",
            Refusal::Enrolled => "enrolled",
            Refusal::Enrolment => "enrolment",
            Refusal::Stands => "stands",
            Refusal::Vacant => "vacant",
            Refusal::Book => "book",
            Refusal::Bare => "bare",
            Refusal::Spent => "spent",
        })
    }
}
