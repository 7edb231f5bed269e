//! Where the standard of a calculated line comes from.

/// What a limit method does with calculated lines. Two cases, and no closure: the rules and the laws
/// of limits are stated over them, and a closure's contract would say the same two cases again.
#[derive(Clone, Copy)]
pub enum Calculation {
    /// The standard is worked out from reference years.
    FromYears,
    /// There is none: a calculated line is a fault.
    Barred,
}
