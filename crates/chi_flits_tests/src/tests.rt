//! Flits whose events were worked by hand.

mod answer_tests;
mod comparison;
mod data_tests;
mod fault_tests;
mod flits;
mod outstanding_tests;
mod request_tests;
