//! Limit methods: the emissions limit of a year, from a facility's enrolment and its yearly filings.
#![tactic(auto)]

pub mod balance;
pub mod joined;
pub mod lines;
pub mod method;
pub mod methods;
pub mod outcome;
mod telling;
