//! Requests at a home's port, told at the times at which they take effect. Source: profile.
#![tactic(auto)]

mod ending;
mod fault;
mod known;
pub mod laws;
mod noting;
mod point;
mod point_faults;
mod pointed_port;
mod points;
mod slot;
mod telling;

pub use fault::PointFault;
pub use point::Point;
pub use pointed_port::PointedPort;
pub use points::Points;
