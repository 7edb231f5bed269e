//! The text of a journal: one step to a line, as staff write it into a file.
//!
//! All of it works on bytes, since a file may hold bytes that are no text.
#![tactic(auto)]

pub mod desk;
pub mod excerpt;
pub mod lines;
pub mod numbers;
pub mod sources;
pub mod steps;
#[cfg(test)]
mod tests;
pub mod words;
