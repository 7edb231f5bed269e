//! The base year of an activity.
ghost use Rattle.std.specs.Prelude.{◌≡◌};
ghost use Rattle.standard.specs.Found.{Based};
ghost use Rattle.standard.specs.Reference.{may_be_base, base_year, BaseOf};
ghost use Rattle.standard.specs.Seen.{as_seen, by_activity};

use crate::activity::Activity;
use crate::facility::FacilityYear;
use crate::units::ReferenceYear;
use filing::places::LAST_YEAR;

/// The first year that may be a base year.
const FIRST_BASE: u64 = 2019;

impl Activity<'_> {
    /// Whether a year may be the base year: it is not exempt, and has a line of the activity.
    fn may_be_base(self, year: u64) -> bool
        ensures { result ≡ by_activity may_be_base self.entry year }
    {
        !self.at.enrolment.exempt(year) && self.has(year)
    }

    /// The earliest year that may be the base year.
    fn base_year(self) -> Option<u64>
        ensures { result ≡ by_activity base_year self.entry }
    {
        (FIRST_BASE..=LAST_YEAR).find(|year| self.may_be_base(*year))
    }

    /// What the base year has of the activity.
    #[tactic(auto, using(crate::proofs::BaseMeaning::has_base))]
    pub(crate) fn base(self) -> Option<ReferenceYear>
        ensures { by_activity Based self.entry result }
    {
        self.of_year(self.base_year()?)
    }
}

impl FacilityYear<'_> {
    /// The base year of an activity, as the year sees it: from 2019 on, the earliest that is not exempt and has a line of the activity.
    #[tactic(auto, using(crate::proofs::BaseMeaning::base_is))]
    pub fn base_year(self, activity: u16) -> Option<u64>
        ensures value { result ≡ as_seen base_year self.entry activity }
        ensures means { as_seen BaseOf self.entry activity result }
    {
        self.activity(activity).base_year()
    }
}
