//! Plans of coverage as JSON texts, and how one is read. Source: profile.
#![tactic(auto)]

mod fault;
mod member;
mod plan;
mod rule;

pub use fault::PlanFault;
pub use member::Member;
pub use plan::read_plan;
