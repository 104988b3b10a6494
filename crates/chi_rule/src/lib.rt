//! The rule of a store: what its words and its seats keep at each step.
#![tactic(auto)]

mod purpose;
mod split_off;
mod values;
mod view;

pub use purpose::Purpose;
pub use split_off::{SplitNumber, SplitOff};
pub use values::OpeningValues;
pub use view::{Half, View};
