//! Scripts by chance, for a home node and its model to be tried on. Source: profile.
#![tactic(auto)]

mod chance;
mod generate;
mod mix;
mod operation;
mod plan;
mod request;
mod stimulus;
mod text;
mod value;

pub use generate::generated_script;
pub use mix::{Mix, MixFault};
pub use stimulus::Stimulus;
