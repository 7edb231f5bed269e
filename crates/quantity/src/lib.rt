//! Quantities with their ranges, and how they are rounded.
#![tactic(auto)]

pub mod rounding;
#[cfg(test)]
mod tests;
pub mod units;
