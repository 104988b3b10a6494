//! Tests of scripts and transcripts.
#![tactic(auto)]

#[cfg(test)]
mod tests;
