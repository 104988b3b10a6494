//! The tests, and what they share.

mod answers;
mod attempt_tests;
mod comparison;
mod device_tests;
mod devices;
mod fault_tests;
mod gate_tests;
mod hostile_device_tests;
mod hostile_script_tests;
mod image_tests;
mod meeting_tests;
mod race_tests;
mod run_tests;
mod scripts;
mod trace_tests;
mod transcript_json_tests;
