//! Tests of the search of one granule.
#![tactic(auto)]

#[cfg(test)]
mod tests;
