//! Tests of whole traces.
#![tactic(auto)]

#[cfg(test)]
mod tests;
