//! Tests of what is answered of a trace: the texts of answers and of excerpts, and the page.
#![tactic(auto)]

#[cfg(test)]
mod answers;
#[cfg(test)]
mod comparison;
#[cfg(test)]
mod excerpt_tests;
#[cfg(test)]
mod page_tests;
#[cfg(test)]
mod text_tests;
#[cfg(test)]
mod witness_tests;
#[cfg(test)]
mod wrong_byte_tests;
