//! Tests of decoding, regions and names, of the operations on packed words, and of the runs of bytes in them.
#![tactic(auto)]

#[cfg(test)]
mod comparison;
#[cfg(test)]
mod decoding_tests;
#[cfg(test)]
mod kernel_tests;
#[cfg(test)]
mod name_tests;
#[cfg(test)]
mod operation_tests;
#[cfg(test)]
mod region_tests;
