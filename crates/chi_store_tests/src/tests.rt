//! The tests, and what they share.

mod bookstore_tests;
mod both_stores;
mod clock_gate;
mod comparison;
mod growth_list_tests;
mod growth_race_tests;
mod growth_tests;
mod growth_work_tests;
mod home_tests;
mod interference_tests;
mod interference_work_tests;
mod interferer;
mod lockstore_tests;
mod numbers_tests;
mod opening_tests;
mod race_scripts;
mod race_tests;
mod refusing_allocator;
mod work_tests;
