//! An enrolment with its ranges. Nothing cited here names the type, so that definitions above may.
ghost use Rattle.std.specs.Prelude.{◌≤◌};
ghost use Rattle.enrolment.specs.Calendar.{days_in};

use crate::kinds::{Choice, EnrolmentKind};

/// A facility's enrolment. None lacks these ranges.
#[derive(Clone, Copy)]
pub struct Enrolment {
    pub facility: u8,
    pub kind: EnrolmentKind,
    /// The year of first production.
    pub year: u16,
    /// The day of first production, from 1.
    pub day: u16,
    pub choice: Choice,
    /// Per cent.
    pub factor: u8,
    ghost facility_range: { (1 ≤ facility) × (facility ≤ 4) },
    ghost year_range: { (1900 ≤ year) × (year ≤ 2036) },
    ghost day_range: { (1 ≤ day) × (day ≤ days_in year) },
    ghost factor_range: { (1 ≤ factor) × (factor ≤ 100) },
}
