//! The tests, and what they share.

mod along_tests;
mod commuting_tests;
mod comparison;
mod counter_tests;
mod equal_tests;
mod found;
mod frontier_order_tests;
mod frontier_steps;
mod frontier_tests;
mod maker_tests;
mod many_tests;
mod open_tests;
mod operations;
mod order_tests;
mod part_tests;
mod progress_tests;
mod run_tests;
mod words_tests;
