//! The page that shows a trace: its granules, their operations over time, and the order found of each; and answers as
//! JSON. Source: profile.
#![tactic(auto)]

mod answer;
mod blame;
mod details_script;
mod drawing_script;
mod drawn;
mod granule;
mod layout_script;
mod listed;
mod lists;
mod moving_script;
mod object;
mod operation;
mod page;
mod page_script;
mod reach;
mod request;
mod stopped;
mod style;

pub use answer::answer_json;
pub use drawn::{Drawn, are_of_trace};
pub use granule::add_finding;
pub use listed::add_between;
pub use page::add_page;
pub use reach::{add_doubt_json, add_found_json};
pub use request::add_request_members;
