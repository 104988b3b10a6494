//! Requests to a home node: their fields, the region that it serves, and which requests it refuses.
#![tactic(auto)]

mod access;
mod decoding;
mod kind;
pub mod laws;
mod opcode;
mod refusal;
mod region;
mod request;

pub use access::Access;
pub use decoding::decode;
pub use kind::{Kind, Op};
pub use opcode::op_name;
pub use refusal::{Refusal, refusal_name};
pub use region::{ADDRESSES, Region, RegionFault, region_fault_name};
pub use request::Request;
