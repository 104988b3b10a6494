//! chicheck: whether what was observed at a home node can be explained, from a trace or from events on standard input, and what the
//! operations of traces or of events covered. Source: profile.
#![tactic(auto)]

mod arguments;
mod check;
mod command;
mod cover;
mod fault;
mod following;
mod inputs;
mod machine;
mod meter;
mod named_input;
mod option_values;
mod options;
mod page;
mod pages;
mod plan;
mod progress_line;
mod recorded;
mod save;
mod search;
mod show;
mod sources;
mod tasks;
mod untold;
mod watch;
mod written;

use crate::arguments::run_arguments;
use crate::command::PROGRAM;
use crate::fault::CheckFault;
use crate::machine::Machine;
use crate::progress_line::ProgressLine;
use chi_program::{arguments_after_name, report_no_arguments};
use std::io;
use std::process::ExitCode;

fn main(rt: HostRuntime) -> ExitCode {
    let mut errors = rt.stderr();
    let mut progress = ProgressLine::new(&rt, rt.stderr());
    let mut machine = Machine::new(&rt);
    let status = match arguments_after_name(&rt) {
        Ok(arguments) => {
            let mut from = rt.reader();
            let mut to = io::writer(&rt);
            run_arguments(
                rt.alloc(),
                arguments.as_slice(),
                &mut from,
                &mut to,
                &mut errors,
                &mut progress,
                &mut machine,
            )
        }
        Err(fault) => report_no_arguments::<CheckFault, _>(PROGRAM, &fault, &mut errors),
    };
    ExitCode::from(status)
}
