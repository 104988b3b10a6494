//! The tests, and what they share.

mod comparison;
mod exchange_tests;
mod flat_tests;
mod image_tests;
mod input_tests;
mod member_tests;
mod sample_scripts;
mod script_tests;
mod script_text_tests;
mod transcript_tests;
