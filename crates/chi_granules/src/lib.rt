//! What is found of each granule of a trace. Source: profile.
#![tactic(auto)]

mod judge;
mod listing;
mod whole;

pub use listing::judged_granules;
pub use whole::{all_granules, granules_around};
