//! The tests, and what they share.

mod blames;
mod byte_tests;
mod comparison;
mod execution_tests;
mod explain_tests;
mod first_tests;
mod order_tests;
mod progress_tests;
mod random_tests;
mod to_the_end_tests;
mod trace_tests;
mod traces;
mod verdicts;
mod words_tests;
