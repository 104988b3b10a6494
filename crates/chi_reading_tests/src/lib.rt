//! Tests of how traces are read, and events from lines.
#![tactic(auto)]

#[cfg(test)]
mod comparison;
#[cfg(test)]
mod event_comparison;
#[cfg(test)]
mod event_fault_tests;
#[cfg(test)]
mod event_member_tests;
#[cfg(test)]
mod event_tests;
#[cfg(test)]
mod fault_tests;
#[cfg(test)]
mod memory_tests;
#[cfg(test)]
mod other_kind_tests;
#[cfg(test)]
mod request_fault_tests;
#[cfg(test)]
mod request_tests;
#[cfg(test)]
mod texts;
#[cfg(test)]
mod usual_event_tests;
