//! Any call of a history, and a whole history.
ghost use Rattle.std.specs.Prelude.{◌≡◌, IfOk};
ghost use Rattle.register.specs.Calls.{call_fields};
ghost use Rattle.register.specs.Performing.{answered, Performs, KeptIf, Ran};

use crate::answers::Answer;
use crate::calls::Call;
use crate::refusals::Refusal;
use crate::table::Register;
use limit::method::LimitMethod;
use std::alloc::{AllocError, Global};

impl<M: LimitMethod> Register<M> {
    /// Performs a call. A refusal changes nothing.
    pub fn perform(&mut self, call: Call) -> Result<Answer, Refusal>
        ensures laws { Performs M.LimitMethod.meaning self.old self.new (call_fields call) (answered result) }
        ensures refused { KeptIf M.LimitMethod.meaning result self.old self.new }
    {
        match call {
            Call::Enrol(fields) => self.enrol(fields).map(|()| Answer::Enrolled),
            Call::File(signed) => self.file(signed).map(Answer::Number),
            Call::Amend(signed) => self.amend(signed).map(Answer::Number),
            Call::Withdraw { facility, year } => self.withdraw(facility, year).map(Answer::Number),
            Call::TakeBack => self.take_back().map(Answer::Number),
            Call::Close => {
                self.close();
                Ok(Answer::Closed)
            }
            Call::LookUp { facility, year } => self.look_up(facility, year).map(Answer::Assessed),
        }
    }
}

/// A new register, and a whole history performed on it from its oldest call on.
pub fn run<M: LimitMethod + Drop>(
    heap: Global,
    method: M,
    calls: &[Call],
) -> Result<(Register<M>, Vec<Result<Answer, Refusal>>), AllocError>
    ensures { IfOk result (λ x. Ran M.LimitMethod.meaning method calls.now x.0 x.1.items) }
{
    let mut answers = Vec::with_capacity(heap, calls.len())?;
    let mut register = Register::new(heap, method)?;
    // No chain: its closure would change the register, and need an invariant on what it captures: longer than this loop.
    // Nor a trait over this loop and the engine's: with its ghost members and two impls it is longer than both.
    for call in calls {
        answers.push_reserved(register.perform(*call));
    }
    Ok((register, answers))
}
