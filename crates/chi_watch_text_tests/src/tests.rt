//! The tests, and what they share.

mod comparison;
mod events;
mod flit_fault_tests;
mod flit_tests;
mod flits;
mod keep_going_tests;
mod line_tests;
mod operation_tests;
mod point_tests;
mod progress_tests;
mod reach_text_tests;
mod reader_tests;
mod recorded_tests;
mod required_tests;
mod saved_tests;
mod text_tests;
mod verdict_tests;
mod waiting_tests;
