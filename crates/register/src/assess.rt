//! How a facility's places are assessed anew.
ghost use Rattle.std.specs.Prelude.{◌≡◌, ℕ, ◌+◌, ◌<◌, ◌≤◌, None as none, slice_index_or};
ghost use Rattle.std.specs.Option.{option_map};
ghost use Rattle.filing.specs.Emissions.{emissions as emissions_of};
ghost use Rattle.filing.specs.Views.{fields_of};
ghost use Rattle.enrolment.specs.Views.{enrolled};
ghost use Rattle.limit.specs.Outcome.{told};
ghost use Rattle.standard.specs.Places.{filings, standing};
ghost use Rattle.register.specs.Answers.{assessment};
ghost use Rattle.register.specs.Views.{assessment_fields, anew_of, anew};

use crate::places::index_from;
use crate::table::Assessment;
use filing::filing::Filing;
use filing::places::{FIRST_YEAR, LAST_YEAR, YEARS};
use limit::balance::balance;
use limit::method::LimitMethod;
use limit::outcome::Outcome;
use standard::facility::FacilityYear;

/// The assessment of a filing by its outcome.
fn assessment_of(filing: &Filing, outcome: Outcome, number: u64) -> Assessment
    ensures { assessment_fields result ≡ assessment (emissions_of (fields_of filing.now).head) (told outcome) number }
{
    let emissions = filing.emissions();
    Assessment {
        emissions,
        outcome,
        balance: balance(&outcome, emissions),
        number,
    }
}

/// The assessment of a year, where a filing stands there.
// The method and the number stay two parameters, here, in `reassess` and in `refill`: a struct of both would need a lifetime, a type
// parameter and an impl, for a pair that is made in one place.
fn fresh<M: LimitMethod>(method: &M, at: FacilityYear<'_>, number: u64) -> Option<Assessment>
    ensures { option_map assessment_fields result ≡ anew_of (M.LimitMethod.meaning method.now) (enrolled at.entry.enrolment.now) (filings at.entry.places.now) at.entry.year number (standing (filings at.entry.places.now) at.entry.year) }
{
    // No `map`: its closure would need a contract of its own, as what it calls is the method's.
    let filing = at.filing()?;
    Some(assessment_of(filing, method.outcome(at), number))
}

/// Assesses the years from that of `at` on anew, with a number.
pub(crate) fn reassess<M: LimitMethod>(
    method: &M,
    at: FacilityYear<'_>,
    assessed: &mut [Option<Assessment>; YEARS],
    number: u64,
)
    requires { 2017 ≤ at.year }
    ensures before { (k : ℕ) → 2017 + k < at.entry.year → slice_index_or assessed.new k none ≡ slice_index_or assessed.old k none }
    ensures after { (k : ℕ) → at.entry.year ≤ 2017 + k → k < 20 → option_map assessment_fields (slice_index_or assessed.new k none) ≡ anew (M.LimitMethod.meaning method.now) (enrolled at.entry.enrolment.now) (filings at.entry.places.now) k number }
{
    // By index: `(at.year..).zip(&mut assessed[from..])` was tried, and its invariant can't name what was written.
    for year in at.year..=LAST_YEAR {
        assessed[index_from(FIRST_YEAR, year)] = fresh(method, FacilityYear { year, ..at }, number);
    }
}
