//! How a place is filled: the facility is assessed from there on, and the act goes into the undo log.
ghost use Rattle.std.specs.Prelude.{◌-◌};
ghost use Rattle.register.specs.Steps.{Put, Acted, Refilled, NextNumber};

use crate::assess::reassess;
use crate::log::{Entry, MOST_ACTS};
use crate::places::{EnrolledPlace, index_from};
use crate::refusals::Refusal;
use crate::table::{Plant, Register};
use filing::places::FIRST_YEAR;
use filing::signed::Signed;
use limit::method::LimitMethod;
use standard::facility::FacilityYear;

/// The last number.
const LAST_NUMBER: u64 = 1_000_000;

impl Plant {
    /// Puts the content into the place of a year, and assesses from there on.
    fn refill<M: LimitMethod>(
        &mut self,
        method: &M,
        at: &EnrolledPlace,
        content: Option<Signed>,
        number: u64,
    )
        ensures { Refilled (M.LimitMethod.meaning method.now) self.old self.new (at.now.place.year - 2017) at.now.enrolment content number }
    {
        self.places[index_from(FIRST_YEAR, at.place.year)] = content;
        let from = FacilityYear {
            enrolment: &at.enrolment,
            places: &self.places,
            year: at.place.year,
        };
        reassess(method, from, &mut self.assessed, number);
    }
}

impl<M: LimitMethod> Register<M> {
    /// The number of the next act or take-back.
    pub(crate) fn next_number(&self) -> Result<u64, Refusal>
        ensures { NextNumber self.now.used result }
    {
        if self.used >= LAST_NUMBER {
            return Err(Refusal::Spent);
        }
        let number = self.used + 1;
        Ok(number)
    }

    /// Puts the content into the place of an enrolled facility with a number, and assesses from that year on.
    pub(crate) fn put(&mut self, at: EnrolledPlace, content: Option<Signed>, number: u64)
        ensures { Put M.LimitMethod.meaning self.old self.new at.place.facility at.place.year at.enrolment content number }
    {
        let f = index_from(1, at.place.facility);
        self.plants[f].refill(&self.method, &at, content, number);
        self.used = number;
    }

    /// An act on a place that holds `before`: into the undo log, and then into the table.
    // A place and its content stay two parameters, here, in `put` and in `refill`: a struct of both would be made
    // at each call only to be taken apart in `refill`.
    pub(crate) fn act(
        &mut self,
        at: EnrolledPlace,
        before: Option<Signed>,
        content: Option<Signed>,
    ) -> Result<u64, Refusal>
        ensures { Acted M.LimitMethod.meaning self.old self.new at.place.facility at.place.year at.enrolment before content result }
    {
        if self.log.len() >= MOST_ACTS {
            return Err(Refusal::Book);
        }
        let number = self.next_number()?;
        self.log.write(Entry {
            place: at.place,
            before,
        });
        self.put(at, content, number);
        Ok(number)
    }
}
