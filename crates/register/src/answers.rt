//! What accepted calls are answered. Nothing cited here names the type, so that definitions above may.
use crate::table::Assessment;

/// The answer to an accepted call.
#[derive(Clone, Copy, Debug, PartialEq, Eq)]
pub enum Answer {
    Enrolled,
    /// The number of an act or take-back.
    Number(u64),
    Closed,
    Assessed(Assessment),
}
