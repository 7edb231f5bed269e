//! The industrial method and the station's.
ghost use Rattle.std.specs.Prelude.{◌≡◌, Some};
ghost use Rattle.standard.specs.Places.{filings, standing};
ghost use Rattle.standard.specs.Seen.{by_year};
ghost use Rattle.limit.specs.Methods.{of_filing, industrial, station, station_exempt};
ghost use Rattle.limit.specs.Outcome.{told};
ghost use Rattle.enrolment.specs.Exempt as SpecsExempt;
ghost use Rattle.standard.specs.declared.calculation.Calculation.TheVariants.{FromYears, Barred};
ghost use Rattle.limit.specs.Same.{outcome_same, outcome_vacant};
ghost use Rattle.limit.specs.Small.{outcome_small};

use crate::lines::limit_of;
use crate::method::LimitMethod;
use crate::outcome::{NoLimit, Outcome};
use standard::calculation::Calculation;
use standard::facility::FacilityYear;

/// The method for industrial facilities.
#[derive(Clone, Copy)]
pub struct Industrial;

/// The method for generating stations.
#[derive(Clone, Copy)]
pub struct Station;

/// Limits begin with this year.
const FIRST_LIMIT: u64 = 2019;

/// Stations that began in this year or later have no exempt year.
const NEVER_EXEMPT: u16 = 2021;

/// The outcome of a year, where it is known whether the year is exempt.
// A flag: the methods differ in it and in their `Calculation` alone. A closure in its place would be called once, and need a contract: no plainer.
fn settled(exempt: bool, calculation: Calculation, at: FacilityYear<'_>) -> Outcome
    ensures { told result ≡ by_year (of_filing exempt calculation) at.entry (standing (filings at.entry.places.now) at.entry.year) }
{
    let Some(filing) = at.filing() else {
        return Outcome::NoLimit(NoLimit::Vacant);
    };
    if at.year < FIRST_LIMIT {
        return Outcome::NoLimit(NoLimit::Early);
    }
    if exempt {
        return Outcome::NoLimit(NoLimit::Exempt);
    }
    limit_of(calculation, at, filing)
}

// Two impls that read alike. One over a trait for what sets them apart, the exempt years and the `Calculation`,
// proves too, but is a trait, two impls of it and this one: longer, and no plainer.
impl LimitMethod for Industrial {
    ghost meaning = { λ m e ps y. industrial e ps y };

    ghost later = { λ m e ps qs y h. outcome_same (SpecsExempt.exempt e y) FromYears e ps qs y h };

    ghost vacant = { λ m e ps y h. outcome_vacant (SpecsExempt.exempt e y) FromYears e ps y h };

    ghost most = { λ m e ps y h. outcome_small (SpecsExempt.exempt e y) FromYears e ps y h };

    fn outcome(&self, at: FacilityYear<'_>) -> Outcome {
        let exempt = at.enrolment.exempt(at.year);
        settled(exempt, Calculation::FromYears, at)
    }
}

impl LimitMethod for Station {
    ghost meaning = { λ m e ps y. station e ps y };

    ghost later = { λ m e ps qs y h. outcome_same (station_exempt e y) Barred e ps qs y h };

    ghost vacant = { λ m e ps y h. outcome_vacant (station_exempt e y) Barred e ps y h };

    ghost most = { λ m e ps y h. outcome_small (station_exempt e y) Barred e ps y h };

    fn outcome(&self, at: FacilityYear<'_>) -> Outcome {
        let exempt = at.enrolment.year < NEVER_EXEMPT && at.enrolment.exempt(at.year);
        settled(exempt, Calculation::Barred, at)
    }
}
