//! The outcome of a year. Nothing cited here names these types, so that definitions above may.
use quantity::units::Tonnes;
use standard::causes::Cause;

/// Why a year has no limit.
#[derive(Clone, Copy, Debug, PartialEq, Eq)]
pub enum NoLimit {
    /// Nothing stands at the year, or it has no place.
    // The number that the register refuses such a place by: its enum of refusals is of a crate above.
    Vacant = 15,
    /// Limits begin with 2019.
    Early = 41,
    /// The facility began to produce too short a time ago.
    Exempt = 42,
}

/// What a limit method makes of a year: three answers of one rank. It is no `Result`, since a year without a
/// limit is assessed all the same, and so is one with a fault.
#[derive(Clone, Copy, Debug, PartialEq, Eq)]
pub enum Outcome {
    Limit(Tonnes),
    NoLimit(NoLimit),
    /// The first line that has a fault, counted from 1.
    Fault { cause: Cause, line: usize },
}
