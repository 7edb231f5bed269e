//! Enrolments: which facilities take part, and from which year on they have limits.
#![tactic(auto)]

mod calendar;
pub mod enrolment;
pub mod faults;
pub mod fields;
pub mod kinds;
mod making;
