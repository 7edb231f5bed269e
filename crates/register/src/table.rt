//! What a register holds. Nothing cited here names these types, so that definitions above may.
use crate::log::UndoLog;
use enrolment::enrolment::Enrolment;
use filing::places::{FACILITIES, YEARS};
use filing::signed::Signed;
use limit::outcome::Outcome;
use quantity::units::Tonnes;

/// What the filing of a year came to.
#[derive(Clone, Copy, Debug, PartialEq, Eq)]
pub struct Assessment {
    pub emissions: Tonnes,
    pub outcome: Outcome,
    /// Limit minus emissions; 0 without a limit.
    pub balance: i64,
    /// The number of the act or take-back that it was made by.
    pub number: u64,
}

/// A facility: its enrolment, its yearly places from 2017 on, and the assessment of each.
#[derive(Clone, Copy)]
pub(crate) struct Plant {
    pub(crate) enrolment: Option<Enrolment>,
    // Two arrays and not one of pairs: a method is lent the places alone, while the assessments are written.
    pub(crate) places: [Option<Signed>; YEARS],
    pub(crate) assessed: [Option<Assessment>; YEARS],
}

/// The register of four facilities.
#[derive(Drop)]
pub struct Register<M> {
    pub(crate) method: M,
    // An array, as the facilities have fixed memory by the rule of the project.
    pub(crate) plants: [Plant; FACILITIES as usize],
    pub(crate) log: UndoLog,
    pub(crate) used: u64,
}
