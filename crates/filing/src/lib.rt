//! Filings: what a facility reports for a year, drawn up as a draft and then signed.
#![tactic(auto)]

mod building;
pub mod draft;
pub mod faults;
pub mod fields;
pub mod filing;
pub mod kinds;
pub mod parts;
pub mod places;
mod ranges;
mod reading;
pub mod signed;
mod sums;
#[cfg(test)]
mod tests;
