//! The tests, and what they share.

mod comparison;
mod counts_tests;
mod dropped_tests;
mod ending_tests;
mod fault_tests;
mod home;
mod hot_tests;
mod reach_tests;
mod settled_tests;
mod stop;
mod watch_tests;
