//! The arguments after a program's name, and what is answered where they name no task.

ghost use Rattle.std.specs.Prelude.{◌≡◌, ◌⊎◌};
ghost use Rattle.clap.specs.Values.{kind_of};
ghost use Rattle.chi_program.specs.Answered.{IsStatusOfArguments, KeepsButForHelp};

use crate::fault::{ProgramFault, flushed_status, report_fault};
use clap::Error;
use clap::error::ErrorKind;
use std::env::{self, Env};
use std::io::{self, Write};

// The status where the command line is refused.
const REFUSED: u8 = 2;

/// The arguments after the program's name. No contract says which they are: that is what the machine tells.
///
/// ```
/// let arguments = arguments_after_name(&rt)?; // run --store lock
/// ```
pub fn arguments_after_name<T: AllocGlobal + Env>(rt: &T) -> io::Result<Vec<String>> {
    let mut arguments = Vec::new(rt.alloc());
    for argument in env::args(rt)?.skip(1) {
        arguments.push(argument)?;
    }
    Ok(arguments)
}

/// Reports why the arguments cannot be had: out of memory, or an argument that is not text. The answer is the status.
///
/// ```
/// let status = report_no_arguments::<EngineFault, _>("chihome", &fault, &mut errors);
/// ```
pub fn report_no_arguments<F: ProgramFault + Drop, E: Write>(
    program: &str,
    fault: &io::Error,
    errors: &mut E,
) -> u8
    ensures { (result ≡ 4) ⊎ (result ≡ 2) }
{
    match fault.kind() {
        io::ErrorKind::OutOfMemory => report_fault(program, &F::no_memory(), errors),
        _ => {
            let _written = writeln!(errors, "{program}: {fault}");
            REFUSED
        }
    }
}

/// Reports what `clap` answers to the arguments: help to `to`, and a refusal to `errors`. The answer is the status.
///
/// ```
/// let status = report_arguments::<EngineFault, _, _>("chihome", &error, &mut to, &mut errors);
/// ```
pub fn report_arguments<F: ProgramFault + Drop, W: Write, E: Write>(
    program: &str,
    error: &Error,
    to: &mut W,
    errors: &mut E,
) -> u8
    ensures status { IsStatusOfArguments (kind_of error.now) result }
    ensures kept { KeepsButForHelp (kind_of error.now) (W.contents to.old) (W.contents to.new) }
{
    if error.kind() == ErrorKind::OutOfMemory {
        return report_fault(program, &F::no_memory(), errors);
    }
    if error.use_stderr() {
        let _written = write!(errors, "{error}");
        return REFUSED;
    }
    match write!(to, "{error}") {
        Ok(()) => flushed_status::<F, _, _>(program, 0, to, errors),
        Err(_) => report_fault(program, &F::unwritten(), errors),
    }
}
