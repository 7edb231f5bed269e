//! The register of yearly filings: its calls, and three laws for every history of them.
#![tactic(auto)]

mod acts;
pub mod answers;
mod assess;
pub mod calls;
mod filling;
mod log;
mod looking;
pub mod perform;
mod places;
pub mod refusals;
pub mod table;
