//! The command line of a program.

ghost use Rattle.std.specs.Prelude.{◌≡◌, IfErr, IfOk};
ghost use Rattle.clap.specs.Simple.{app_of};
ghost use Rattle.clap.specs.Values.{kind_of};
ghost use Rattle.chi_program.specs.Rules.{bare_app};
ghost use Rattle.chi_program.specs.Tasks.{app_with_tasks};

use crate::task::{NamedTask, task_command};
use clap::error::ErrorKind;
use clap::{Command, Error};
use std::alloc::Global;

// A program of this name, which wants a task, without its tasks.
fn bare_command<'a>(
    alloc: Global,
    name: &'a str,
    version: &'a str,
    about: &'a str,
    more: &'a str,
) -> Result<Command<'a>, Error>
    ensures app { IfOk result (λ command. app_of command ≡ bare_app name.entry.now) }
    ensures memory { IfErr result (λ error. kind_of error ≡ ErrorKind.OutOfMemory) }
{
    Ok(
        Command::new(alloc, name)
            .bin_name(name)?
            .no_binary_name(true)
            .about(about)
            .version(version)
            .after_help(more)
            .subcommand_required(true),
    )
}

/// A program of this name, which wants one of these tasks. `version` is what `--version` prints after the name, `about` stands above
/// its help and `more` below it.
///
/// ```
/// let command = program_command(alloc, "chihome", "0.1.0", ABOUT, MORE, &[RUN, RACE, GENERATE])?;
/// ```
pub fn program_command<'a>(
    alloc: Global,
    name: &'a str,
    version: &'a str,
    about: &'a str,
    more: &'a str,
    tasks: &[NamedTask<'a>],
) -> Result<Command<'a>, Error>
    ensures app { IfOk result (λ command. app_of command ≡ app_with_tasks name.entry.now tasks.now) }
    ensures memory { IfErr result (λ error. kind_of error ≡ ErrorKind.OutOfMemory) }
{
    let mut command = bare_command(alloc, name, version, about, more)?;
    for task in tasks {
        command = command.subcommand(task_command(alloc, task)?)?;
    }
    Ok(command)
}
