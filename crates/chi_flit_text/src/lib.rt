//! Flits and points as objects of JSON, and how one is read. Source: profile.
#![tactic(auto)]

mod channel;
mod digits;
mod fault;
mod flit_line;
mod hex_member;
mod kind;
mod lanes;
mod looked_at;
mod member;
mod numbers;
mod point_line;

pub use fault::FlitLineFault;
pub use flit_line::{read_flit, usual_flit};
pub use member::FlitMember;
pub use point_line::{names_point, read_point, usual_point};
