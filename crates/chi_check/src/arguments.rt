//! The program on the arguments of its command line.

ghost use Rattle.std.specs.Prelude.{◌≡◌, map, string_bytes, IfOk, IfSome};
ghost use Rattle.chi_check.specs.Check.{KeepsUnanswered};
ghost use Rattle.chi_check.specs.CheckStatus.{IsAnswerStatus, IsStatus, status_of};
ghost use Rattle.chi_search.specs.Looks.{IsCutShort};
ghost use Rattle.chi_check.specs.ProgramOutcome.{Ends, ProgramOutcome, TaskOutcome, given_to};

use crate::command::{PROGRAM, Task, task_of};
use crate::cover::cover;
use crate::fault::CheckFault;
use crate::meter::Meter;
use crate::named_input::{explain_input, watch_input};
use crate::pages::Pages;
use crate::sources::Sources;
use chi_program::{ProgramFault, flushed_status, report_arguments, report_fault};
use chi_watch_text::WatchProgress;
use std::alloc::Global;
use std::io::{Read, Write};

// Does a task with its input.
fn do_task<R: Read, W: Write, P: WatchProgress, G: Pages + Sources + Meter>(
    alloc: Global,
    task: &Task<'_>,
    from: &mut R,
    to: &mut W,
    progress: &mut P,
    machine: &mut G,
) -> Result<u8, CheckFault>
    ensures outcome { IfSome (given_to (G.given machine.old) task.now (R.remaining from.old)) (λ input. TaskOutcome (IsCutShort P.states P.looked progress.new) (G.holds machine.old) task.now input (W.contents to.old) (W.contents to.new) result) }
    ensures unanswered { KeepsUnanswered (W.contents to.old) (W.contents to.new) result }
    ensures status { IfOk result IsAnswerStatus }
{
    match task {
        Task::Explain(options, file) => {
            explain_input(alloc, *file, from, to, options, progress, machine)
        }
        Task::Watch(options, file) => {
            watch_input(alloc, *file, from, to, options, progress, machine)
        }
        Task::Cover(options) => cover(alloc, from, to, options, machine),
    }
}

// The file that is at fault, where it is one that the task names.
fn file_at_fault<'a>(task: &Task<'a>, fault: &CheckFault) -> Option<&'a str> {
    match (task, fault) {
        (Task::Explain(_, file), CheckFault::Input(_)) => *file,
        (Task::Watch(_, file), CheckFault::Input(_) | CheckFault::Unfinished(_)) => *file,
        (Task::Cover(options), CheckFault::Plan(_)) => options.plan,
        (Task::Cover(options), CheckFault::File { place, .. }) => options
            .files
            .get(*place)
            .copied(),
        _ => None,
    }
}

// Reports why a task has no answer, and of which file. The status is that of the fault.
fn report_task_fault<E: Write>(task: &Task<'_>, fault: &CheckFault, errors: &mut E) -> u8
    ensures { result ≡ status_of fault.now }
{
    if let Some(path) = file_at_fault(task, fault) {
        let _written = writeln!(errors, "{PROGRAM}: {path}: {fault}");
        return fault.status();
    }
    report_fault(PROGRAM, fault, errors)
}

// Does a task with its input, flushes what was written, and reports a fault of either.
fn end_task<R: Read, W: Write, E: Write, P: WatchProgress, G: Pages + Sources + Meter>(
    alloc: Global,
    task: &Task<'_>,
    from: &mut R,
    to: &mut W,
    errors: &mut E,
    progress: &mut P,
    machine: &mut G,
) -> u8
    ensures ends { Ends (IsCutShort P.states P.looked progress.new) (G.holds machine.old) task.now (given_to (G.given machine.old) task.now (R.remaining from.old)) (W.contents to.old) (W.contents to.new) result }
    ensures status { IsStatus result }
{
    match do_task(alloc, task, from, to, progress, machine) {
        Ok(status) => flushed_status::<CheckFault, _, _>(PROGRAM, status, to, errors),
        Err(fault) => report_task_fault(task, &fault, errors),
    }
}

/// The program: reads the arguments after its name, does the task that they name with what `from` gives, and writes the
/// answer to `to`. A fault is reported to `errors`, whose own faults are ignored. `progress` is told how far the search is, and
/// `machine` puts the page of a trace and tells how much was used. The answer is the status to end with.
///
/// ```
/// let status = run_arguments(alloc, &arguments, &mut input, &mut output, &mut errors, &mut progress, &mut machine);
/// ```
pub fn run_arguments<R: Read, W: Write, E: Write, P: WatchProgress, G: Pages + Sources + Meter>(
    alloc: Global,
    arguments: &[String],
    from: &mut R,
    to: &mut W,
    errors: &mut E,
    progress: &mut P,
    machine: &mut G,
) -> u8
    ensures outcome { ProgramOutcome (IsCutShort P.states P.looked progress.new) (G.holds machine.old) (G.given machine.old) (map string_bytes arguments.now) (R.remaining from.old) (W.contents to.old) (W.contents to.new) result }
    ensures status { IsStatus result }
{
    match task_of(alloc, arguments) {
        Ok(task) => end_task(alloc, &task, from, to, errors, progress, machine),
        Err(error) => report_arguments::<CheckFault, _, _>(PROGRAM, &error, to, errors),
    }
}
