//! A home whose cache line stands in one cell under a lock.
#![tactic(auto)]

mod cell_steps;
mod home;
pub mod laws;
mod rule;
mod seat;
mod service;
mod step_kinds;
mod steps;
mod store;
mod type_size;

pub use rule::LINE_GRANULES;
pub use seat::LockSeat;
pub use store::LockStore;
