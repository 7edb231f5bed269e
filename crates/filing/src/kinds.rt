//! The kinds of a filing's line.
ghost use Rattle.std.specs.Prelude.{◌≡◌};
ghost use Rattle.filing.specs.Kinds.{kind_number, Decodes};

/// Where a line's output-based standard comes from.
#[derive(Clone, Copy, Debug, PartialEq, Eq)]
pub enum LineKind {
    /// The standard is a number that the line states.
    Numerical = 1,
    /// The standard is calculated from reference years.
    Calculated = 2,
    /// Electricity from gaseous fuel, by its unit's capacity.
    Gaseous = 3,
}

/// A number that stands for no kind.
#[derive(Clone, Copy, Debug, PartialEq, Eq)]
pub struct UnknownKind(pub u64);

// One impl a type, here and for the kinds of enrolment, since the check refuses a derive of the repository's own.

/// The number that stands for a kind in field 21.
impl From<LineKind> for u64 {
    ghost from_gives = { λ kind n. n ≡ kind_number kind };

    fn from(kind: LineKind) -> u64 {
        kind as u64
    }
}

/// The kind that a number stands for.
impl TryFrom<u64> for LineKind {
    type Error = UnknownKind;

    ghost try_from_gives = { Decodes };

    fn try_from(number: u64) -> Result<LineKind, UnknownKind> {
        match number {
            1 => Ok(LineKind::Numerical),
            2 => Ok(LineKind::Calculated),
            3 => Ok(LineKind::Gaseous),
            _ => Err(UnknownKind(number)),
        }
    }
}
