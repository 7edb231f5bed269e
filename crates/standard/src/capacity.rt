//! The capacity of a unit that makes electricity from gaseous fuel.
ghost use Rattle.std.specs.Prelude.{◌≡◌, ℕ, ◌+◌, ◌≤◌, [], ◌∷◌, map, sum_by};
ghost use Rattle.quantity.specs.Ranges.{most_megawatts};
ghost use Rattle.filing.specs.Parts.{line_fields};
ghost use Rattle.filing.specs.Views.{fields_of};
ghost use Rattle.standard.specs.Adding.{Adds};
ghost use Rattle.standard.specs.Capacity.{dated, lines_at, triggers as triggers_in, megawatts, additions, triggering_megawatts, other_megawatts};
ghost use Rattle.standard.specs.Places.{filing_at, filings, up_to as years_to};
ghost use Rattle.standard.specs.Ranges.{most_added};
ghost use Rattle.standard.specs.Seen.{seen};

use crate::facility::FacilityYear;
use crate::places::up_to;
use crate::units::Capacity;
use filing::filing::Filing;
use filing::kinds::LineKind;
use filing::parts::Line;
use filing::places::{FIRST_YEAR, YEARS};
use filing::signed::Signed;

/// The least addition that triggers the decreasing standard, in megawatts.
const TRIGGER_MW: u64 = 50;

/// The first year in which an addition triggers it.
const TRIGGER_YEAR: u64 = 2021;

/// The ratio below which an addition triggers it, in thousandths.
const TRIGGER_RATIO: u16 = 900;

/// Whether an addition in that year triggers the decreasing standard.
fn triggers(line: &Line, year: u64) -> bool
    ensures { result ≡ triggers_in (dated year (line_fields line.now)) }
{
    line.added.mw >= TRIGGER_MW && year >= TRIGGER_YEAR && line.ratio < TRIGGER_RATIO
}

/// A unit in a year.
#[derive(Clone, Copy)]
struct UnitYear {
    unit: u16,
    year: u64,
}

impl UnitYear {
    /// What a line of the year's filing adds to the unit.
    fn added_by_line(self, line: &Line) -> Capacity
        ensures adds { Adds self.unit (dated self.year (line_fields line.now) ∷ []) result.triggering result.other }
        ensures bound { result.triggering + result.other ≤ most_megawatts }
    {
        if !line.is(LineKind::Gaseous, self.unit) {
            return Capacity::NONE;
        }
        if triggers(line, self.year) {
            Capacity {
                triggering: line.added.mw,
                other: 0,
            }
        } else {
            Capacity {
                triggering: 0,
                other: line.added.mw,
            }
        }
    }

    /// What the year's filing adds to the unit.
    fn added_by(self, filing: &Filing) -> Capacity
        ensures adds { Adds self.unit (map (dated self.year) (fields_of filing.now).lines) result.triggering result.other }
        ensures bound { result.triggering + result.other ≤ most_added }
    {
        let lines = filing.lines();
        let mut triggering = 0;
        let mut other = 0;
        // One `for`: two chains, for what triggers and for the rest, would walk the lines twice.
        for line in lines {
            let added = self.added_by_line(line);
            triggering += added.triggering;
            other += added.other;
        }
        Capacity { triggering, other }
    }

    /// What the year's place adds to the unit.
    fn added_at(self, place: &Option<Signed>) -> Capacity
        ensures adds { Adds self.unit (map (dated self.year) (lines_at (filing_at place.now))) result.triggering result.other }
        ensures bound { result.triggering + result.other ≤ most_added }
    {
        place
            .as_ref()
            .map_or(Capacity::NONE, |signed| self.added_by(signed.filing()))
    }
}

/// The capacity of a unit in a year: what the places of the years up to it add.
pub fn capacity_of(places: &[Option<Signed>; YEARS], year: u64, unit: u16) -> Capacity
    ensures triggering { result.triggering ≡ triggering_megawatts unit (years_to year (filings places.now)) }
    ensures other { result.other ≡ other_megawatts unit (years_to year (filings places.now)) }
    ensures all { result.triggering + result.other ≡ sum_by megawatts (additions unit (years_to year (filings places.now))) }
{
    let past = up_to(places, year);
    let mut triggering = 0;
    let mut other = 0;
    // A `for`. A `fold` of a `Capacity` was tried: that the sum so far stays in its range is an invariant here,
    // and was not found for the calls of a `fold`.
    for (year, place) in (FIRST_YEAR..).zip(past) {
        let added = UnitYear { unit, year }.added_at(place);
        triggering += added.triggering;
        other += added.other;
    }
    Capacity { triggering, other }
}

impl FacilityYear<'_> {
    /// The capacity of a unit in the year, for which the enrolment makes no difference.
    pub fn capacity(self, unit: u16) -> Capacity
        ensures triggering { result.triggering ≡ triggering_megawatts unit (seen self.entry) }
        ensures other { result.other ≡ other_megawatts unit (seen self.entry) }
        ensures all { result.triggering + result.other ≡ sum_by megawatts (additions unit (seen self.entry)) }
    {
        capacity_of(self.places, self.year, unit)
    }
}
