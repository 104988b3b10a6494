//! Tests of how events are read line by line and watched.
#![tactic(auto)]

#[cfg(test)]
mod tests;
