//! Why a record is not filed: the fault of the reader or the refusal of the register, whole.
ghost use Rattle.std.specs.Prelude.{◌≡◌, Some};
ghost use Rattle.engine.specs.Faults.{engine_told, engine_printed};
ghost use Rattle.engine.specs.declared.faults.EngineFault.TheVariants.{Read as ReadVariant, Register as RegisterVariant};

use codec::faults::ReadFault;
use register::refusals::Refusal;
use std::fmt;

/// The fault of the layer that refused.
#[derive(Clone, Copy, Debug, PartialEq, Eq)]
pub enum EngineFault {
    Read(ReadFault),
    Register(Refusal),
}

impl From<ReadFault> for EngineFault {
    ghost from_gives = { λ e r. r ≡ ReadVariant e };

    fn from(fault: ReadFault) -> EngineFault {
        EngineFault::Read(fault)
    }
}

impl From<Refusal> for EngineFault {
    ghost from_gives = { λ e r. r ≡ RegisterVariant e };

    fn from(refusal: Refusal) -> EngineFault {
        EngineFault::Register(refusal)
    }
}

impl EngineFault {
    /// The number by which the refusal goes.
    pub fn number(&self) -> u64
        ensures { result ≡ (engine_told self.now).number }
    {
        // Written out: the number is that of the fault within, and an enum with values can't be cast to one.
        match self {
            EngineFault::Read(fault) => fault.number(),
            EngineFault::Register(refusal) => refusal.number(),
        }
    }
}

/// The reader's own text, or the register's number and word, as `14 stands`.
impl fmt::Display for EngineFault {
    ghost output = { λ f. Some (engine_printed f) };

    fn fmt<W: fmt::Write>(&self, f: &mut fmt::Formatter<W>) -> fmt::Result {
        match self {
            EngineFault::Read(fault) => write!(f, "{fault}"),
            EngineFault::Register(refusal) => write!(f, "{} {refusal}", refusal.number()),
        }
    }
}
