//! Accesses on the packed words of granules.
#![tactic(auto)]

mod byte_order;
mod combination;
mod kernels;
pub mod laws;
mod operand;
mod operation;
mod packet;
mod reply;

pub use byte_order::swap_order;
pub use kernels::{extract, insert, lane_mask};
pub use operation::apply;
pub use packet::{compare_half, swap_half};
pub use reply::Reply;
