//! Tests of the engine: worked examples from bytes to bytes, printed texts, devices and up to seven real threads.
#![tactic(auto)]

#[cfg(test)]
mod tests;
