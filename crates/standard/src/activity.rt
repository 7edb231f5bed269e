//! An activity of a facility, as a year sees it. Nothing cited here names the type, so that definitions above may.
ghost use Rattle.std.specs.Prelude.{◌≡◌};

use crate::facility::FacilityYear;

/// An activity of a facility, by its number, as a year sees it: no later filing counts.
#[derive(Clone, Copy)]
pub(crate) struct Activity<'a> {
    pub(crate) at: FacilityYear<'a>,
    pub(crate) number: u16,
}

impl<'a> FacilityYear<'a> {
    /// An activity as the year sees it.
    pub(crate) fn activity(self, number: u16) -> Activity<'a>
        ensures at { result.at ≡ self.entry }
        ensures number { result.number ≡ number }
    {
        Activity { at: self, number }
    }
}
