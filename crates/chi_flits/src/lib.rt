//! Flits at a home's port, and the events that they tell. Source: profile.
#![tactic(auto)]

mod answer;
mod bounds;
mod effects;
mod fault;
mod flit;
mod held;
mod lanes;
pub mod laws;
mod noting;
mod opcode;
mod open;
mod outstanding;
mod port;
mod read_faults;
mod request;
mod response_faults;
mod taking;
mod told_answers;
mod told_data;
mod told_requests;
mod transaction;
mod transfer;
mod write_faults;

pub use fault::FlitFault;
pub use flit::{Chunk, DataFlit, Flit, FlitKind, RequestFlit, ResponseFlit};
pub use held::Held;
pub use opcode::{
    gives_dbid, is_atomic, is_cancel, is_comp, is_read, is_read_data, is_response, is_write,
    is_write_data, takes_txn, writes_nothing,
};
pub use port::Port;
