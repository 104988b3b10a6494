//! Histories of operations, seats, and the contract of a home.
#![tactic(auto)]

pub mod callers;
mod credit;
mod entry;
mod gate;
mod home;
pub mod laws;
mod line;
mod numbers;
mod opening;
mod served;

pub use credit::Credit;
pub use entry::Entry;
pub use gate::{Gate, NoGate};
pub use home::Home;
pub use line::Line;
pub use numbers::{MOST_NUMBERS, Numbers};
pub use opening::{OpenFault, Opening};
pub use served::Served;
