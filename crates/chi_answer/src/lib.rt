//! What is answered of a trace that was read, and its text.
#![tactic(auto)]

mod answer;
mod beside;
mod beside_line;
mod cut_short;
mod doubt_lines;
mod format;
mod further_lines;
mod lines;
mod stop_lines;
mod text;
mod witness;

pub use answer::{Answer, Further, answer_of};
pub use cut_short::add_cut_short;
pub use doubt_lines::add_found_time;
pub use format::AnswerFormat;
pub use further_lines::add_further;
pub use lines::{add_granule, add_undecided};
pub use stop_lines::add_stop;
pub use text::{add_blame, add_words_at_end, answer_text};
