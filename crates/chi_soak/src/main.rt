//! chi_soak: four workers race at the lock-free home for some time, and what a monitor at the home would have told is
//! written as events.
#![tactic(auto)]

mod course;
mod events;
mod fault;
mod lines;
mod options;
mod plant;
mod requests;
mod rounds;
mod times;

use crate::course::soak;
use crate::fault::{SoakFault, status_of};
use crate::options::{Options, USAGE, options_of};
use std::env::{self, Env};
use std::io::{self, BufWriter, Write};
use std::process::ExitCode;
use std::sync::Wait;
use std::thread::Threads;
use std::time::Clock;

// What the arguments after the program's name ask for; `None` where they are refused.
fn options_after_name<T: AllocGlobal + Env>(rt: &T) -> io::Result<Option<Options>> {
    let mut arguments = Vec::new(rt.alloc());
    for argument in env::args(rt)?.skip(1) {
        arguments.push(argument)?;
    }
    Ok(options_of(arguments.as_slice()))
}

// Soaks the store, and writes the events to standard output.
fn soak_to_output<T: AllocGlobal + Clock + Print + Threads + Wait + Sync>(
    rt: &T,
    options: &Options,
) -> Result<(), SoakFault> {
    let mut to = BufWriter::new(rt.alloc(), io::writer(rt))?;
    soak(rt, options, &mut to)
}

fn main(rt: HostRuntime) -> ExitCode {
    let mut errors = rt.stderr();
    let status = match options_after_name(&rt) {
        Ok(Some(options)) => match soak_to_output(&rt, &options) {
            Ok(()) => 0,
            Err(fault) => {
                let _written = writeln!(errors, "chi_soak: {fault}");
                status_of(&fault)
            }
        },
        Ok(None) | Err(_) => {
            let _written = writeln!(errors, "{USAGE}");
            2
        }
    };
    ExitCode::from(status)
}
