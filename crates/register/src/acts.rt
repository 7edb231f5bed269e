//! The calls that change a register.
ghost use Rattle.std.specs.Prelude.{◌≡◌, [], is_some, IfOk, OnErr};
ghost use Rattle.filing.specs.Views.{filed};
ghost use Rattle.register.specs.Answers.{number_answer, enrol_answer};
ghost use Rattle.register.specs.Calls.{enrol as enrol_call, file as file_call, amend as amend_call, withdraw as withdraw_call, take_back, close as close_call};
ghost use Rattle.register.specs.Lived.{Lived, Lives, LivesAnswering};

use crate::log::UndoLog;
use crate::places::{EnrolledPlace, Place, index_from};
use crate::refusals::Refusal;
use crate::table::{Plant, Register};
use enrolment::enrolment::Enrolment;
use enrolment::fields::EnrolmentFields;
use filing::places::{FACILITIES, YEARS};
use filing::signed::Signed;
use limit::method::LimitMethod;
use std::alloc::{AllocError, Global};

/// Whether a facility is enrolled already.
fn is_taken(enrolment: Option<Enrolment>) -> bool
    ensures { result ≡ is_some enrolment }
{
    enrolment.is_some()
}

// `refused` stands in five calls: it is over two states, so no invariant and no ghost field can hold it.
impl<M: LimitMethod> Register<M> {
    /// Enrols a facility; an enrolment stays.
    pub fn enrol(&mut self, fields: EnrolmentFields) -> Result<(), Refusal>
        ensures lives { LivesAnswering M.LimitMethod.meaning self.old self.new (enrol_call fields) (enrol_answer result) }
        ensures refused { OnErr result (self.new ≡ self.old) }
    {
        let enrolment = Enrolment::try_from(fields)?;
        let i = index_from(1, u64::from(enrolment.facility));
        if is_taken(self.plants[i].enrolment) {
            return Err(Refusal::Enrolled);
        }
        self.plants[i].enrolment = Some(enrolment);
        Ok(())
    }

    /// Files at a place where nothing stands.
    pub fn file(&mut self, signed: Signed) -> Result<u64, Refusal>
        ensures lives { LivesAnswering M.LimitMethod.meaning self.old self.new (file_call (filed signed)) (number_answer result) }
        ensures refused { OnErr result (self.new ≡ self.old) }
    {
        let at = self.enrolled(Place::from(&signed))?;
        if self.standing(at.place).is_some() {
            return Err(Refusal::Stands);
        }
        self.act(at, None, Some(signed))
    }

    /// Files in the place of what stands.
    pub fn amend(&mut self, signed: Signed) -> Result<u64, Refusal>
        ensures lives { LivesAnswering M.LimitMethod.meaning self.old self.new (amend_call (filed signed)) (number_answer result) }
        ensures refused { OnErr result (self.new ≡ self.old) }
    {
        let at = self.enrolled(Place::from(&signed))?;
        let before = self.standing(at.place).ok_or(Refusal::Vacant)?;
        self.act(at, Some(before), Some(signed))
    }

    /// Empties a place where a filing stands.
    // Bare numbers: a caller may ask for a facility or a year that there is not.
    pub fn withdraw(&mut self, facility: u64, year: u64) -> Result<u64, Refusal>
        ensures lives { LivesAnswering M.LimitMethod.meaning self.old self.new (withdraw_call facility year) (number_answer result) }
        ensures refused { OnErr result (self.new ≡ self.old) }
    {
        let enrolment = self.enrolment_of(facility)?;
        let place = Place::new(facility, year).ok_or(Refusal::Vacant)?;
        let before = self.standing(place).ok_or(Refusal::Vacant)?;
        self.act(EnrolledPlace { place, enrolment }, Some(before), None)
    }

    /// Undoes the latest act of the undo log.
    pub fn take_back(&mut self) -> Result<u64, Refusal>
        ensures lives { LivesAnswering M.LimitMethod.meaning self.old self.new take_back (number_answer result) }
        ensures refused { OnErr result (self.new ≡ self.old) }
    {
        let entry = self.log.latest().ok_or(Refusal::Bare)?;
        let number = self.next_number()?;
        // The facility of an act is enrolled, so no history is refused here. An invariant of the register that said
        // so would leave an `unwrap` in place of the `?`, and ask for the enrolment at every act.
        let at = self.enrolled(entry.place)?;
        self.log.strike();
        self.put(at, entry.before, number);
        Ok(number)
    }

    /// Empties the undo log: what was done can't be taken back any more.
    pub fn close(&mut self)
        ensures { Lives M.LimitMethod.meaning self.old self.new close_call (λ m cs. Unit {0}) }
    {
        self.log.clear();
    }
}

impl<M: LimitMethod + Drop> Register<M> {
    /// A register with nothing enrolled, no filing, an empty undo log and no number used.
    pub fn new(heap: Global, method: M) -> Result<Register<M>, AllocError>
        ensures { IfOk result (λ g. Lived M.LimitMethod.meaning method g []) }
    {
        let log = UndoLog::new(heap)?;
        let blank = Plant {
            enrolment: None,
            places: [None; YEARS],
            assessed: [None; YEARS],
        };
        Ok(Register {
            method,
            plants: [blank; FACILITIES as usize],
            log,
            used: 0,
        })
    }
}
