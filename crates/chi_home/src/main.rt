//! chihome: far atomics at a home node, from a script on standard input to a transcript on standard output.
#![tactic(auto)]

mod arguments;
mod command;
mod fault;
mod generation;
mod tasks;

use crate::arguments::run_words;
use crate::command::PROGRAM;
use crate::fault::HomeFault;
use chi_program::{arguments_after_name, report_no_arguments};
use std::io;
use std::process::ExitCode;

fn main(rt: HostRuntime) -> ExitCode {
    let mut errors = rt.stderr();
    let status = match arguments_after_name(&rt) {
        Ok(arguments) => {
            let mut from = rt.reader();
            let mut to = io::writer(&rt);
            run_words(&rt, arguments.as_slice(), &mut from, &mut to, &mut errors)
        }
        Err(fault) => report_no_arguments::<HomeFault, _>(PROGRAM, &fault, &mut errors),
    };
    ExitCode::from(status)
}
