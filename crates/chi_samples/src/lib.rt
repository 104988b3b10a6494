//! Requests, scripts and races that tests of several crates share.
#![tactic(auto)]

mod races;
mod requests;
mod scripts;

pub use races::{Raced, STORE_ADD, race_adding};
pub use requests::{first_lane, plain_request};
pub use scripts::additions;
