//! Histories of calls on a register, each with what its calls are answered.
#![tactic(auto)]

#[cfg(test)]
mod tests;
