//! The engine: from a script's bytes to a transcript's bytes, or to a trace's, over the store of the options. Source: profile.
#![tactic(auto)]

mod engine;
mod fault;
mod input;
mod json_written;
mod optional_gate;
mod options;
mod race;
mod race_json;
mod run;
mod run_form;
mod run_json;
mod store;
mod trace;
mod transcript_json;
mod workers;

pub use engine::{
    engine_race, engine_race_gated, engine_race_json, engine_run, engine_run_json, engine_trace,
};
pub use fault::{EngineFault, status_of};
pub use input::MOST_BYTES;
pub use options::{Options, Store};
pub use workers::Workers;
