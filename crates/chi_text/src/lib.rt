//! The parts of a text, and their bytes.
#![tactic(auto)]

mod part;

pub use part::{Part, add_parts};
