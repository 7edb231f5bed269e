//! The worked figures: one list of cases, each with what the definitions come to.
#![tactic(auto)]

pub mod worked;
