//! Why an enrolment is refused.
ghost use Rattle.std.specs.Prelude.{◌≡◌, Some};
ghost use Rattle.enrolment.specs.Told.{enrolment_told, enrolment_printed};

use std::fmt;

/// The refusal of an enrolment.
#[derive(Clone, Copy, Debug, PartialEq, Eq)]
pub enum EnrolmentFault {
    /// A field is outside its range.
    Outside = 13,
}

impl EnrolmentFault {
    /// The number by which the refusal goes.
    pub fn number(&self) -> u64
        ensures { result ≡ (enrolment_told self.now).number }
    {
        // A method of its own, as each fault has: a trait for it would need as many impls with this one line.
        *self as u64
    }
}

/// The number and the word: `13 enrolment`.
impl fmt::Display for EnrolmentFault {
    ghost output = { λ f. Some (enrolment_printed f) };

    fn fmt<W: fmt::Write>(&self, f: &mut fmt::Formatter<W>) -> fmt::Result {
        match self {
            EnrolmentFault::Outside => write!(f, "{} enrolment", self.number()),
        }
    }
}
