//! Tests of how flits are read.
#![tactic(auto)]

#[cfg(test)]
mod comparison;
#[cfg(test)]
mod data_member_tests;
#[cfg(test)]
mod data_tests;
#[cfg(test)]
mod fault_tests;
#[cfg(test)]
mod request_tests;
#[cfg(test)]
mod response_tests;
#[cfg(test)]
mod usual_tests;
