//! Tests of scripts by chance: what comes in them, what is refused, that a seed makes one script, and what they cover.
#![tactic(auto)]

#[cfg(test)]
mod tests;
