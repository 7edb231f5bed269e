//! The fields of an enrolment as they are handed in: bare numbers, of which nothing is known yet.

/// An enrolment's six fields.
#[derive(Clone, Copy, Debug, PartialEq, Eq)]
pub struct EnrolmentFields {
    pub facility: u64,
    /// 1 industrial, 2 station.
    pub kind: u64,
    /// The year of first production.
    pub year: u64,
    /// The day of first production in that year, from 1.
    pub day: u64,
    /// Which reference years serve calculated standards.
    pub choice: u64,
    /// Per cent of the reference intensity that a calculated standard allows.
    pub factor: u64,
}
