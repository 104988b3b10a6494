//! Scripts of requests and the transcripts of their work.
#![tactic(auto)]

mod device;
mod fault;
pub mod laws;
mod member;
mod page;
mod parts;
mod requests;
mod script;
mod transcript;

pub use device::{WriteFault, write_bytes};
pub use fault::{MOST_REQUESTS, ScriptFault};
pub use member::Member;
pub use script::{Script, read_script};
pub use transcript::{write_lines, write_transcript};
