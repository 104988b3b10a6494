//! What the operations of traces covered: functional coverage, counted by definition, and its table and page. Source: profile.
#![tactic(auto)]

mod added_json;
mod added_lines;
mod adding;
mod alike;
mod bin;
mod covered;
mod group;
mod json;
mod kept;
mod lines;
mod measured;
mod names;
mod number;
mod open;
mod operand;
mod operation;
mod page;
mod page_script;
mod page_style;
mod pattern;
mod plan;
mod plan_json;
mod plan_rows;
mod refusal_rows;
mod refusals;
mod rows;
mod sequence;
mod sequence_group;
mod table;
mod traffic;
mod traffic_group;

pub use added_lines::add_added_lines;
pub use bin::{Bin, Depth, Enabled, Transaction};
pub use covered::Covered;
pub use json::add_json;
pub use page::add_page;
pub use pattern::bins_fitting;
pub use plan::{Plan, Rule};
pub use refusal_rows::add_refusals;
pub use refusals::Refusals;
pub use table::add_table;
