//! Requesters and the work that they bring to a home.
#![tactic(auto)]

mod fault;
mod mixed_gate;
mod policy;
mod race_of_any;
mod race_of_four;
mod race_of_two;
mod requester_work;
mod serial;
mod single;

pub use fault::WorkFault;
pub use mixed_gate::MixedGate;
pub use policy::Policy;
pub use race_of_any::{Racer, race};
pub use race_of_four::{RaceFour, race_four};
pub use race_of_two::{Race, race_two};
pub use requester_work::work;
pub use serial::run_serial;
