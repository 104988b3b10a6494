//! Lines of events or of flits that are read: the operations that they tell, or the text of what a watch of them finds. Source:
//! profile.
#![tactic(auto)]

mod awaited_data;
mod fault;
mod granules_told;
mod kept;
mod line_format;
mod line_stated;
mod line_told;
mod lines;
mod operations;
mod options;
mod pointed_told;
mod progress;
mod quiet;
mod reach_lines;
mod reading;
mod recorded;
mod required;
mod required_lines;
mod saved;
mod stated;
mod summary_json;
mod summary_lines;
mod taking;
mod telling;
mod waiting;
mod waiting_lines;
mod watched;
mod watching;
mod written;

pub use fault::{LinesFault, TellingFault};
pub use line_format::{ErrorEffect, LineFormat};
pub use operations::{OperationsTold, read_operations};
pub use options::WatchOptions;
pub use progress::WatchProgress;
pub use recorded::read_events;
pub use required::Required;
pub use saved::lines_of_granule;
pub use waiting::{Waiting, WaitsFor};
pub use watched::{FoundGranule, Unfinished, Watched};
pub use watching::watch_lines;
pub use written::closing_text;
