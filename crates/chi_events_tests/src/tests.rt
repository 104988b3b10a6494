//! The tests, and what they share.

mod comparison;
mod completion_tests;
mod fault_tests;
mod home;
mod open_tests;
mod operation_tests;
mod refused_tests;
mod steps;
