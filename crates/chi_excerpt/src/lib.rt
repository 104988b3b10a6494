//! Operations of a granule as the rows of a table: when each was under way, what was sent, and what came back. Source: profile.
#![tactic(auto)]

mod bar;
mod columns;
mod excerpt;
mod failure;
mod impossible;
mod line;
mod operand;
mod writers;
mod wrong_bytes;

pub use excerpt::{add_excerpt, add_order};
pub use failure::{failure_text, order_in};
pub use writers::add_writers;
