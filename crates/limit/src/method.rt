//! What every limit method is.
ghost use Rattle.std.specs.Prelude.{◌≡◌, ℕ, List, Option};
ghost use Rattle.filing.specs.Filing.{FilingFields};
ghost use Rattle.enrolment.specs.declared.fields.EnrolmentFields.{EnrolmentFields};
ghost use Rattle.standard.specs.Seen.{by_year};
ghost use Rattle.limit.specs.Laws.{Later, Vacant as VacantLaw, Most};
ghost use Rattle.limit.specs.Outcome.{Told, told};

use crate::outcome::Outcome;
use standard::facility::FacilityYear;

/// A way to settle a year's limit. It answers its meaning, which is one outcome
/// for an enrolment, a facility's yearly places and a year.
pub trait LimitMethod {
    ghost meaning: { Self → EnrolmentFields → List (Option FilingFields) → ℕ → Told };

    /// The outcome of a year.
    fn outcome(&self, at: FacilityYear<'_>) -> Outcome
        ensures { told result ≡ by_year (meaning self.now) at.entry };

    ghost later: { (m : Self) → Later (meaning m) };

    ghost vacant: { (m : Self) → VacantLaw (meaning m) };

    ghost most: { (m : Self) → Most (meaning m) };
}
