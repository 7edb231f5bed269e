//! Why a field, a line or a head is refused.
ghost use Rattle.std.specs.Prelude.{◌≡◌, Some};
ghost use Rattle.filing.specs.Told.{told, printed};

use std::fmt;

/// A refusal of a filing: each case has its number and tells its values.
#[derive(Clone, Copy, Debug, PartialEq, Eq)]
pub enum FilingFault {
    /// A field is outside its range: its code, and the line, or 0 for the head.
    // Not an `Option`: a refusal tells and prints `line 0` for the head, so `None` would become 0 again there.
    // The code is the format's own number of a field, and is printed as it is.
    Range { code: usize, line: usize },
    /// A line's kind is not 1 to 3.
    Kind { line: usize },
    /// There are six lines already.
    Lines,
    /// An earlier line has the same kind and number.
    Twice { line: usize },
    /// The lines' attributed kilograms come to more than the total.
    Attributed,
}

impl FilingFault {
    /// The number by which the refusal goes.
    pub fn number(&self) -> u64
        ensures { result ≡ (told self.now).number }
    {
        // Written out: an enum with a case that holds values can't be cast to its number.
        match self {
            FilingFault::Range { .. } => 5,
            FilingFault::Kind { .. } => 6,
            FilingFault::Lines => 7,
            FilingFault::Twice { .. } => 8,
            FilingFault::Attributed => 9,
        }
    }
}

/// The number, the word and the values by name, as `5 range code 23 line 1`.
impl fmt::Display for FilingFault {
    ghost output = { λ f. Some (printed f) };

    fn fmt<W: fmt::Write>(&self, f: &mut fmt::Formatter<W>) -> fmt::Result {
        match self {
            FilingFault::Range { code, line } => {
                write!(f, "{} range code {code} line {line}", self.number())
            }
            FilingFault::Kind { line } => write!(f, "{} kind line {line}", self.number()),
            FilingFault::Lines => write!(f, "{} lines", self.number()),
            FilingFault::Twice { line } => write!(f, "{} twice line {line}", self.number()),
            FilingFault::Attributed => write!(f, "{} attributed", self.number()),
        }
    }
}
