//! Any step, and a whole list of them, from record bytes to assessment.
ghost use Rattle.std.specs.Prelude.{◌≡◌, [], IfOk};
ghost use Rattle.engine.specs.Engine.{step_fields, step_answered, record_answered, Steps, StepKept, EngineLived, engine_method, RanSteps};

use crate::engine::Engine;
use crate::faults::EngineFault;
use crate::steps::{Recorded, Step, StepAnswer};
use limit::joined::Joined;
use limit::methods::{Industrial, Station};
use register::table::Register;
use std::alloc::{AllocError, Global};

/// The answer to a step that files or amends by a record.
fn recorded(res: Result<Recorded, EngineFault>) -> Result<StepAnswer, EngineFault>
    ensures { step_answered result ≡ record_answered res }
{
    res.map(StepAnswer::Recorded)
}

impl Engine {
    /// Performs a step. A refusal, of the reader or of the register, changes nothing.
    pub fn perform(&mut self, step: Step<'_>) -> Result<StepAnswer, EngineFault>
        ensures laws { Steps self.old self.new (step_fields step.entry) (step_answered result) }
        ensures refused { StepKept result self.old self.new }
    {
        match step {
            Step::Call(call) => Ok(StepAnswer::Call(self.register.perform(call)?)),
            Step::FileRecord(bytes) => recorded(self.file_record(bytes)),
            Step::AmendRecord(bytes) => recorded(self.amend_record(bytes)),
        }
    }

    /// A new engine.
    pub fn new(heap: Global) -> Result<Engine, AllocError>
        ensures { IfOk result (λ g. EngineLived engine_method g []) }
    {
        let method = Joined {
            first: Industrial,
            second: Station,
        };
        let register = Register::new(heap, method)?;
        Ok(Engine { register })
    }
}

/// A new engine, and all steps performed on it from the oldest on.
pub fn run(
    heap: Global,
    steps: &[Step<'_>],
) -> Result<(Engine, Vec<Result<StepAnswer, EngineFault>>), AllocError>
    ensures { IfOk result (λ x. RanSteps steps.now x.0 x.1.items) }
{
    let mut answers = Vec::with_capacity(heap, steps.len())?;
    let mut engine = Engine::new(heap)?;
    // No chain: its closure would change the engine, and need an invariant on what it captures: longer than this loop.
    // Nor a trait over this loop and the register's: with its ghost members and two impls it is longer than both.
    for step in steps {
        answers.push_reserved(engine.perform(*step));
    }
    Ok((engine, answers))
}
