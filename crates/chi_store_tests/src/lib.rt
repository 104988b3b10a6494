//! Tests of seats and of both stores by their calls: numbers, work and races, interference in the tries, each growth of memory
//! refused in turn, and what races of real threads did.
#![tactic(auto)]

#[cfg(test)]
mod tests;
