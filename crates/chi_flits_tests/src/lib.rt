//! Tests of flits at a home's port, and of the events that they tell.
#![tactic(auto)]

#[cfg(test)]
mod tests;
