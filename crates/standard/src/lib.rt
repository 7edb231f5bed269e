//! Standards: what a line of a filing contributes to the year's limit.
#![tactic(auto)]

mod activity;
pub mod base;
pub mod calculated;
pub mod calculation;
pub mod capacity;
pub mod causes;
pub mod contribution;
pub mod decreasing;
pub mod facility;
mod figures;
mod gaseous;
pub mod places;
pub mod reference;
pub mod units;
