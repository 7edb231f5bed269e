//! Why a record is not read, and why one is not written.
ghost use Rattle.std.specs.Prelude.{◌≡◌, Some};
ghost use Rattle.codec.specs.ReadFaults.{told as read_told, printed as read_printed};
ghost use Rattle.codec.specs.WriteFaults.{told as write_told, printed as write_printed};
ghost use Rattle.codec.specs.declared.faults.ReadFault.TheVariants.{Filing};

use filing::faults::FilingFault;
use std::fmt;

/// A refusal of a record: each case has its number and tells its values.
#[derive(Clone, Copy, Debug, PartialEq, Eq)]
pub enum ReadFault {
    /// The input ends too early: how long it is.
    Cut { length: usize },
    /// The first three bytes are not the mark.
    Mark,
    /// The table has no row for the version.
    Version,
    /// The first line of the schema, from 1, that is not as in the version's row.
    Schema { line: usize },
    /// What the record says is no filing.
    Filing(FilingFault),
}

/// Why a filing is not written.
#[derive(Clone, Copy, Debug, PartialEq, Eq)]
pub enum WriteFault {
    /// The buffer is too small.
    Short = 10,
}

impl From<FilingFault> for ReadFault {
    ghost from_gives = { λ e r. r ≡ Filing e };

    fn from(fault: FilingFault) -> ReadFault {
        ReadFault::Filing(fault)
    }
}

impl ReadFault {
    /// The number by which the refusal goes.
    pub fn number(&self) -> u64
        ensures { result ≡ (read_told self.now).number }
    {
        // Written out: an enum with a case that holds values can't be cast to its number.
        match self {
            ReadFault::Cut { .. } => 1,
            ReadFault::Mark => 2,
            ReadFault::Version => 3,
            ReadFault::Schema { .. } => 4,
            ReadFault::Filing(fault) => fault.number(),
        }
    }
}

impl WriteFault {
    /// The number by which the refusal goes.
    pub fn number(&self) -> u64
        ensures { result ≡ (write_told self.now).number }
    {
        // A method of its own, as each fault has: a trait for it would need as many impls with this one line.
        *self as u64
    }
}

/// The number, the word and the values by name, as `4 schema line 6`.
impl fmt::Display for ReadFault {
    ghost output = { λ f. Some (read_printed f) };

    fn fmt<W: fmt::Write>(&self, f: &mut fmt::Formatter<W>) -> fmt::Result {
        match self {
            ReadFault::Cut { length } => write!(f, "{} cut length {length}", self.number()),
            ReadFault::Mark => write!(f, "{} mark", self.number()),
            ReadFault::Version => write!(f, "{} version", self.number()),
            ReadFault::Schema { line } => write!(f, "{} schema line {line}", self.number()),
            ReadFault::Filing(fault) => write!(f, "{fault}"),
        }
    }
}

/// The number and the word: `10 short`.
impl fmt::Display for WriteFault {
    ghost output = { λ f. Some (write_printed f) };

    fn fmt<W: fmt::Write>(&self, f: &mut fmt::Formatter<W>) -> fmt::Result {
        match self {
            WriteFault::Short => write!(f, "{} short", self.number()),
        }
    }
}
