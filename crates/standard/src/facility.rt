//! A facility in a year. Nothing cited here names the type, so that definitions above may.
use enrolment::enrolment::Enrolment;
use filing::places::YEARS;
use filing::signed::Signed;

/// A facility in a year: its enrolment, and its yearly places.
#[derive(Clone, Copy)]
pub struct FacilityYear<'a> {
    pub enrolment: &'a Enrolment,
    /// Those of 2017 to 2036, each with the filing that stands there or none.
    pub places: &'a [Option<Signed>; YEARS],
    pub year: u64,
}
