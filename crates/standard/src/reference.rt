//! The reference years of an activity, by the facility's choice.
ghost use Rattle.std.specs.Prelude.{◌≡◌, ◌≤◌, Some, [], ◌∷◌, filter};
ghost use Rattle.standard.specs.Reference.{qualifies, figures_at, before_base, reference_years, references};
ghost use Rattle.standard.specs.Seen.{seen, as_seen, by_activity, figured};
ghost use Rattle.standard.specs.Views.{listed, year_figures};

use crate::activity::Activity;
use crate::facility::FacilityYear;
use crate::units::{ReferenceYear, ReferenceYears};
use enrolment::kinds::Choice;

/// The first year of the fixed choice.
const FIRST_FIXED: u64 = 2017;

/// The second.
const SECOND_FIXED: u64 = 2018;

impl Activity<'_> {
    /// Those of the two fixed years that qualify.
    fn fixed_years(self) -> Option<ReferenceYears>
        ensures { listed result ≡ figured self.entry (filter (qualifies (seen self.entry.at) self.entry.number) (2017 ∷ 2018 ∷ [])) }
    {
        match (self.of_year(FIRST_FIXED), self.of_year(SECOND_FIXED)) {
            (Some(first), Some(second)) => Some(ReferenceYears::Two(first, second)),
            (Some(only), None) | (None, Some(only)) => Some(ReferenceYears::One(only)),
            (None, None) => None,
        }
    }

    /// The two years before the base year, else the one before it, else the base year itself.
    fn years_before(self, base: ReferenceYear) -> ReferenceYears
        requires early { 2019 ≤ base.year }
        requires is { year_figures base ≡ figures_at (seen self.at) self.number base.year }
        ensures { listed (Some result) ≡ figured self.entry (before_base (qualifies (seen self.entry.at) self.entry.number) base.year) }
    {
        let Some(before) = self.of_year(base.year - 1) else {
            return ReferenceYears::One(base);
        };
        match self.of_year(base.year - 2) {
            Some(earlier) => ReferenceYears::Two(earlier, before),
            None => ReferenceYears::One(before),
        }
    }

    /// The years of the facility's choice.
    #[tactic(auto, using(crate::proofs::BaseMeaning::base_from))]
    fn chosen_years(self) -> Option<ReferenceYears>
        ensures { listed result ≡ figured self.entry (by_activity reference_years self.entry) }
    {
        match self.at.enrolment.choice {
            Choice::Fixed => self.fixed_years(),
            Choice::Base => self.base().map(ReferenceYears::One),
            Choice::BeforeBase => Some(self.years_before(self.base()?)),
        }
    }
}

impl FacilityYear<'_> {
    /// The reference years of an activity, as the year sees them: no later filing counts.
    #[tactic(auto, unfolding(crate::specs::Reference::references))]
    pub fn reference_years(self, activity: u16) -> Option<ReferenceYears>
        ensures { listed result ≡ as_seen references self.entry activity }
    {
        self.activity(activity).chosen_years()
    }
}
