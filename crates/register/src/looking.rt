//! What can be seen of a register.
ghost use Rattle.std.specs.Prelude.{◌≡◌, ◌-◌, ◌≤◌, List, MatchResult, slice_index_or};
ghost use Rattle.standard.specs.Places.{filings, filing_at, standing};
ghost use Rattle.register.specs.Answers.{answer_to};
ghost use Rattle.register.specs.Calls.{CallFields, look_up};
ghost use Rattle.register.specs.Lived.{Lived};
ghost use Rattle.register.specs.declared.refusals.Refusal.TheVariants.{Unknown};
ghost use Rattle.register.specs.Steps.{Sought, SoughtAt, StandsAt};
ghost use Rattle.register.specs.Views.{shown_at, Looked, look_answer};

use crate::places::{EnrolledPlace, Place, index_from};
use crate::refusals::Refusal;
use crate::table::{Assessment, Plant, Register};
use enrolment::enrolment::Enrolment;
use filing::signed::Signed;
use limit::method::LimitMethod;
use standard::places::at_year;

impl<M: LimitMethod> Register<M> {
    /// What is held of a facility, which may be any number.
    fn plant_of(&self, facility: u64) -> Result<&Plant, Refusal>
        ensures { MatchResult result (λ p. (1 ≤ facility) × (facility ≤ 4) × (p.now ≡ slice_index_or self.now.plants (facility - 1) p.now)) (λ w. (w ≡ Unknown) × (1 ≤ facility → facility ≤ 4 → ⊥)) }
    {
        let i = facility.checked_sub(1).ok_or(Refusal::Unknown)?;
        self.plants.get(i as usize).ok_or(Refusal::Unknown)
    }

    /// The enrolment of a facility, which may be any number.
    pub(crate) fn enrolment_of(&self, facility: u64) -> Result<Enrolment, Refusal>
        ensures { Sought self.now facility result }
    {
        self.plant_of(facility)?.enrolment.ok_or(Refusal::Unknown)
    }

    /// A place with the enrolment of its facility.
    pub(crate) fn enrolled(&self, place: Place) -> Result<EnrolledPlace, Refusal>
        ensures { SoughtAt self.now place result }
    {
        let enrolment = self.enrolment_of(place.facility)?;
        Ok(EnrolledPlace { place, enrolment })
    }

    /// What stands at a place.
    pub(crate) fn standing(&self, place: Place) -> Option<Signed>
        ensures { StandsAt self.now place.facility place.year result }
    {
        let plant = &self.plants[index_from(1, place.facility)];
        at_year(&plant.places, place.year).copied()
    }

    /// The assessment of a facility and year.
    // Bare numbers: a caller may ask for a facility or a year that there is not.
    pub fn look_up(&self, facility: u64, year: u64) -> Result<Assessment, Refusal>
        ensures shows { Looked result (shown_at self.now facility year) }
        ensures answers { (m : M) (cs : List CallFields) → Lived M.LimitMethod.meaning m self.now cs → look_answer result ≡ answer_to (M.LimitMethod.meaning m) (look_up facility year) cs }
    {
        let plant = self.plant_of(facility)?;
        plant.enrolment.ok_or(Refusal::Unknown)?;
        at_year(&plant.assessed, year)
            .copied()
            .ok_or(Refusal::Vacant)
    }
}
