//! Tests of tables of coverage.
#![tactic(auto)]

#[cfg(test)]
mod tests;
