//! Records of filings: read from bytes and written to bytes.
#![tactic(auto)]

pub mod faults;
mod fields;
mod input;
mod parts;
pub mod reader;
pub mod record;
mod table;
pub mod writer;
