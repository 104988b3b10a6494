//! Traces as JSON texts and events as lines of JSON, and how each is read. Source: profile.
#![tactic(auto)]

mod alone;
mod event_line;
mod fault;
mod fields;
mod line_kind;
mod line_members;
mod mark;
mod member;
mod memory;
mod other_kind;
mod recorded;
mod refused;
mod requests;
mod stated;
mod told;
mod trace;
mod usual_line;
mod usual_trace;

pub use event_line::read_event;
pub use fault::{LineFault, MOST_OPERATIONS, RequestFault, TraceFault};
pub use mark::line_value;
pub use member::Member;
pub use recorded::Recorded;
pub use trace::read_trace;
pub use usual_line::usual_event;
