//! Which places there are. Nothing cited here names these types, so that definitions above may.
ghost use Rattle.std.specs.Prelude.{◌≡◌, ◌-◌, ◌<◌, ◌≤◌, true, false, MatchOption};
ghost use Rattle.filing.specs.Views.{filed};
ghost use Rattle.enrolment.specs.Ranges.{between};

use enrolment::enrolment::Enrolment;
use filing::places::{FACILITIES, FIRST_YEAR, LAST_YEAR};
use filing::signed::Signed;

/// Where a facility or a year stands among those from the first on.
pub(crate) fn index_from(first: u64, n: u64) -> usize
    requires { first ≤ n }
    ensures { result ≡ n - first }
{
    (n - first) as usize
}

/// A place of the table: one of the four facilities, and one of the twenty years.
#[derive(Clone, Copy)]
pub(crate) struct Place {
    pub(crate) facility: u64,
    pub(crate) year: u64,
    ghost facility_range: { (1 ≤ facility) × (facility ≤ 4) },
    ghost year_range: { (2017 ≤ year) × (year ≤ 2036) },
}

/// The place that a filing is for.
impl From<&Signed> for Place {
    ghost from_gives = { λ signed place. (place.facility ≡ (filed signed.now).head.facility) × (place.year ≡ (filed signed.now).head.year) };

    fn from(signed: &Signed) -> Place {
        let head = signed.filing().head();
        Place {
            facility: u64::from(head.facility),
            year: u64::from(head.year),
        }
    }
}

impl Place {
    /// The place of a facility and year, where there is one.
    pub(crate) fn new(facility: u64, year: u64) -> Option<Place>
        ensures { MatchOption result (between 1 4 facility ≡ true → between 2017 2036 year ≡ false) (λ p. (p.facility ≡ facility) × (p.year ≡ year)) }
    {
        if !(1..=FACILITIES).contains(&facility) || !(FIRST_YEAR..=LAST_YEAR).contains(&year) {
            return None;
        }
        Some(Place { facility, year })
    }
}

/// A place, and the enrolment of its facility.
#[derive(Clone, Copy)]
pub(crate) struct EnrolledPlace {
    pub(crate) place: Place,
    pub(crate) enrolment: Enrolment,
}
