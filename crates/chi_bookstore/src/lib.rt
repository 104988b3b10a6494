//! A home whose steps are lock-free: each request is a load and one compare-exchange of its granule's word.
#![tactic(auto)]

mod attempt;
mod home;
pub mod laws;
mod open;
mod rule;
mod seat;
mod steps;
mod store;
mod tries;

pub use open::MOST_ATTEMPTS;
pub use seat::BookSeat;
pub use store::BookStore;
