//! How an enrolment is made from bare numbers, and which years it leaves without a limit.
ghost use Rattle.std.specs.Prelude.{◌≡◌};
ghost use Rattle.enrolment.specs.Exempt.{first_year, exempt as exempt_year, FirstYear};
ghost use Rattle.enrolment.specs.Ranges.{numbers_in_ranges, Lawful};
ghost use Rattle.enrolment.specs.Views.{enrolled, Enrols};

use crate::calendar::days_in;
use crate::enrolment::Enrolment;
use crate::faults::EnrolmentFault;
use crate::fields::EnrolmentFields;
use crate::kinds::{Choice, EnrolmentKind};
use filing::places::{FACILITIES, LAST_YEAR};

/// The enrolment as bare numbers.
impl From<Enrolment> for EnrolmentFields {
    ghost from_gives = { λ enrolment fields. (fields ≡ enrolled enrolment) × Lawful fields };

    fn from(enrolment: Enrolment) -> EnrolmentFields {
        EnrolmentFields {
            facility: u64::from(enrolment.facility),
            kind: u64::from(enrolment.kind),
            year: u64::from(enrolment.year),
            day: u64::from(enrolment.day),
            choice: u64::from(enrolment.choice),
            factor: u64::from(enrolment.factor),
        }
    }
}

/// Whether the fields that are plain numbers are in their ranges.
fn numbers_in_ranges(fields: &EnrolmentFields) -> bool
    ensures { result ≡ numbers_in_ranges fields.now }
{
    (1..=FACILITIES).contains(&fields.facility)
        && (1900..=LAST_YEAR).contains(&fields.year)
        && (1..=days_in(fields.year)).contains(&fields.day)
        && (1..=100).contains(&fields.factor)
}

/// The enrolment of these fields, refused where one is outside its range.
impl TryFrom<EnrolmentFields> for Enrolment {
    type Error = EnrolmentFault;

    ghost try_from_gives = { Enrols };

    fn try_from(fields: EnrolmentFields) -> Result<Enrolment, EnrolmentFault> {
        let kind = EnrolmentKind::try_from(fields.kind)?;
        let choice = Choice::try_from(fields.choice)?;
        if !numbers_in_ranges(&fields) {
            return Err(EnrolmentFault::Outside);
        }
        Ok(Enrolment {
            facility: fields.facility as u8,
            kind,
            year: fields.year as u16,
            day: fields.day as u16,
            choice,
            factor: fields.factor as u8,
        })
    }
}

impl Enrolment {
    /// The first calendar year that begins on or after first production.
    pub fn first_year(&self) -> u64
        ensures value { result ≡ first_year (enrolled self.now) }
        ensures means { FirstYear (enrolled self.now) result }
    {
        if self.day == 1 {
            u64::from(self.year)
        } else {
            u64::from(self.year) + 1
        }
    }

    /// Whether a year comes too early after first production to have a limit.
    pub fn exempt(&self, year: u64) -> bool
        ensures { result ≡ exempt_year (enrolled self.now) year }
    {
        year < self.first_year() + 2
    }
}
