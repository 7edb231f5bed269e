//! From record bytes to the register.
ghost use Rattle.std.specs.Prelude.{◌≡◌, OnErr};
ghost use Rattle.engine.specs.Engine.{record_answered, Steps};
ghost use Rattle.engine.specs.Steps.{file_record as file_step, amend_record as amend_step};

use crate::engine::Engine;
use crate::faults::EngineFault;
use crate::steps::Recorded;
use codec::record::Record;

impl Recorded {
    /// A record and the number of its filing.
    fn of(read: &Record, number: u64) -> Recorded
        ensures used { result.used ≡ read.now.used }
        ensures version { result.version ≡ read.now.version }
        ensures number { result.number ≡ number }
    {
        Recorded {
            used: read.used,
            version: read.version,
            number,
        }
    }
}

// The two differ in one call of the register. With that call as a closure, a third function would need clauses that
// say what the closure does to the register and answers, and the two would each still need their own.
impl Engine {
    /// Reads the record at the front of `bytes` and files it.
    pub fn file_record(&mut self, bytes: &[u8]) -> Result<Recorded, EngineFault>
        ensures laws { Steps self.old self.new (file_step bytes.now) (record_answered result) }
        ensures refused { OnErr result (self.new ≡ self.old) }
    {
        let record = Record::read(bytes)?;
        let number = self.register.file(record.signed)?;
        Ok(Recorded::of(&record, number))
    }

    /// Reads the record at the front of `bytes` and amends by it.
    pub fn amend_record(&mut self, bytes: &[u8]) -> Result<Recorded, EngineFault>
        ensures laws { Steps self.old self.new (amend_step bytes.now) (record_answered result) }
        ensures refused { OnErr result (self.new ≡ self.old) }
    {
        let record = Record::read(bytes)?;
        let amended = self.register.amend(record.signed)?;
        Ok(Recorded::of(&record, amended))
    }
}
