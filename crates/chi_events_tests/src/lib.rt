//! Tests of events: which operations end by them, and which requests are outstanding.
#![tactic(auto)]

#[cfg(test)]
mod tests;
