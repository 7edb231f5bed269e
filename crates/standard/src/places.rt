//! A facility's yearly places, 2017 to 2036, each with the signed filing that stands there or none.
ghost use Rattle.std.specs.Prelude.{◌≡◌, ◌-◌, ◌≤◌, length, IfSome, option_copied, option_map};
ghost use Rattle.filing.specs.Views.{fields_of};
ghost use Rattle.standard.specs.Places.{at_year, filing_at, filings, standing, up_to};
ghost use Rattle.standard.specs.Seen.{seen};

use crate::facility::FacilityYear;
use filing::filing::Filing;
use filing::places::{FIRST_YEAR, YEARS};
use filing::signed::Signed;

/// What stands at a year, which may be any number: years outside 2017 to 2036 have no place.
pub fn at_year<T>(places: &[Option<T>; YEARS], year: u64) -> Option<&T>
    ensures value { option_copied result ≡ at_year places.now year }
    ensures placed { IfSome result (λ _. (2017 ≤ year) × (year ≤ 2036)) }
{
    let i = year.checked_sub(FIRST_YEAR)?;
    places.get(i as usize)?.as_ref()
}

/// The places of the years up to and with a year.
// No method of `FacilityYear`: that the array has its twenty places is known of a parameter. Of a field it is not, and
// a ghost field that says it would be asked of each caller that makes a `FacilityYear`.
pub(crate) fn up_to(places: &[Option<Signed>; YEARS], year: u64) -> &[Option<Signed>]
    ensures value { filings result.now ≡ up_to year (filings places.now) }
    ensures few { length result.now ≤ 20 }
{
    let count = year.saturating_sub(FIRST_YEAR - 1) as usize;
    &places[..count.min(YEARS)]
}

impl<'a> FacilityYear<'a> {
    /// What stands at another year, as this year sees it: no later filing counts.
    pub(crate) fn seen(self, year: u64) -> Option<&'a Signed>
        ensures { filing_at (option_copied result) ≡ standing (seen self.entry) year }
    {
        if year > self.year {
            return None;
        }
        at_year(self.places, year)
    }

    /// The filing that stands at the year.
    pub fn filing(self) -> Option<&'a Filing>
        ensures { option_map (λ f. fields_of f.now) result ≡ standing (filings self.entry.places.now) self.entry.year }
    {
        at_year(self.places, self.year).map(Signed::filing)
    }
}
