//! Events of a home, as a monitor tells them, and the trace that they are. Source: profile.
#![tactic(auto)]

mod apply_event;
mod bounds;
mod deciding;
mod event;
mod fault;
pub mod laws;
mod outstanding;
mod requests;
mod starts;

pub use event::{Completion, Event, EventKind, Packet, Requested, WordTold};
pub use fault::EventFault;
pub use outstanding::{Open, Outstanding};
#[doc(hidden)]
pub use requests::Requests;
#[doc(hidden)]
pub use starts::Start;
