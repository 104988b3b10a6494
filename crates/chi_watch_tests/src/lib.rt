//! Tests of how granules are watched while events come.
#![tactic(auto)]

#[cfg(test)]
mod tests;
