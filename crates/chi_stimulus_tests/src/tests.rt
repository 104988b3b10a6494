//! The tests, and what they share.

mod comparison;
mod counts;
mod coverage_tests;
mod executed;
mod mix_tests;
mod operation_tests;
mod refusal_tests;
mod result_tests;
mod script_tests;
