//! The kinds of enrolment, and the choices of reference years.
ghost use Rattle.std.specs.Prelude.{◌≡◌};
ghost use Rattle.enrolment.specs.Kinds.{enrolment_kind_number, choice_number, DecodesKind, DecodesChoice};

use crate::faults::EnrolmentFault;

/// What kind of facility is enrolled.
#[derive(Clone, Copy, Debug, PartialEq, Eq)]
pub enum EnrolmentKind {
    Industrial = 1,
    Station = 2,
}

/// Which years a calculated standard is worked out from.
#[derive(Clone, Copy, Debug, PartialEq, Eq)]
pub enum Choice {
    /// Those of 2017 and 2018 that qualify.
    Fixed = 1,
    /// The base year.
    Base = 2,
    /// The years before the base year.
    BeforeBase = 3,
}

// One impl a type, since the check refuses a derive of the repository's own.

/// The number that stands for a kind.
impl From<EnrolmentKind> for u64 {
    ghost from_gives = { λ kind n. n ≡ enrolment_kind_number kind };

    fn from(kind: EnrolmentKind) -> u64 {
        kind as u64
    }
}

/// The kind that a number stands for.
impl TryFrom<u64> for EnrolmentKind {
    type Error = EnrolmentFault;

    ghost try_from_gives = { DecodesKind };

    fn try_from(number: u64) -> Result<EnrolmentKind, EnrolmentFault> {
        match number {
            1 => Ok(EnrolmentKind::Industrial),
            2 => Ok(EnrolmentKind::Station),
            _ => Err(EnrolmentFault::Outside),
        }
    }
}

/// The number that stands for a choice.
impl From<Choice> for u64 {
    ghost from_gives = { λ choice n. n ≡ choice_number choice };

    fn from(choice: Choice) -> u64 {
        choice as u64
    }
}

/// The choice that a number stands for.
impl TryFrom<u64> for Choice {
    type Error = EnrolmentFault;

    ghost try_from_gives = { DecodesChoice };

    fn try_from(number: u64) -> Result<Choice, EnrolmentFault> {
        match number {
            1 => Ok(Choice::Fixed),
            2 => Ok(Choice::Base),
            3 => Ok(Choice::BeforeBase),
            _ => Err(EnrolmentFault::Outside),
        }
    }
}
