//! The engine: record bytes to assessment in one call.
#![tactic(auto)]

pub mod engine;
pub mod faults;
pub mod perform;
mod records;
pub mod steps;
