//! The tests, and what they share.

mod added_tests;
mod comparison;
mod json_tests;
mod many_tests;
mod operation_tests;
mod operations;
mod page_tests;
mod plan_tests;
mod reason_tests;
mod sequence_tests;
mod table_tests;
mod traffic_tests;
