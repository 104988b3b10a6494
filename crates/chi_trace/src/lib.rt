//! The model of what was observed at a home: its operations, the words of granules, which orders explain them, and the laws of that.
#![tactic(auto)]

mod effect;
mod execution;
pub mod laws;
mod operation;
mod reply;
mod request_fields;
mod trace;
mod words;

pub use effect::apply_operation;
pub use execution::{Executed, execute};
pub use operation::Operation;
pub use reply::{ReplyFault, reply_fault};
pub use request_fields::{RequestFields, access};
pub use trace::{Trace, are_traced, cut, operations_at, operations_of};
pub use words::{GranuleWord, GranuleWords};
