//! The program on the arguments of its command line.

ghost use Rattle.std.specs.Prelude.{map, string_bytes, IfSome};
ghost use Rattle.chi_engine.specs.Engine.{KeepsUnexecuted, ReportsOpening};
ghost use Rattle.chi_home.specs.ProgramStatus.{IsStatus};
ghost use Rattle.chi_home.specs.Task.{Ends, EndsAsked, Makes, ProgramOutcome, TaskOutcome};

use crate::command::{Form, Job, PROGRAM, Task, job_of};
use crate::fault::HomeFault;
use crate::generation::{GenerateOptions, generate};
use chi_engine::{
    EngineFault, Options, engine_race, engine_race_json, engine_run, engine_run_json, engine_trace,
};
use chi_history::NoGate;
use chi_program::{flushed_status, report_arguments, report_fault};
use std::alloc::Global;
use std::io::{Read, Write};
use std::sync::Wait;
use std::thread::Threads;

// Does a task with a script.
#[tactic(auto, using(crate::proofs::Written::unexecuted))]
fn do_task<T: AllocGlobal + Threads + Wait + Sync, R: Read, W: Write>(
    rt: &T,
    task: Task,
    options: &Options,
    from: &mut R,
    to: &mut W,
) -> Result<(), EngineFault>
    ensures outcome { IfSome (R.remaining from.old) (λ input. TaskOutcome task options.now input (W.contents to.old) (W.contents to.new) result) }
    ensures opening { ReportsOpening options.now.store result }
    ensures unexecuted { KeepsUnexecuted (W.contents to.old) (W.contents to.new) result }
{
    match task {
        Task::Run(Form::Text) => engine_run(rt, from, to, options),
        Task::Run(Form::Json) => engine_run_json(rt, from, to, options),
        Task::Race(Form::Text) => engine_race(
            rt, from, to, options, NoGate, NoGate, NoGate, NoGate,
        ),
        Task::Race(Form::Json) => {
            let gates: Vec<NoGate> = Vec::new(rt.alloc());
            engine_race_json(rt, from, to, options, gates)
        }
        Task::Trace => engine_trace(rt, from, to, options),
    }
}

// Does a task with a script, flushes what was written, and reports a fault of either. The status is 0 where the task was done.
fn end_task<T: AllocGlobal + Threads + Wait + Sync, R: Read, W: Write, E: Write>(
    rt: &T,
    task: Task,
    options: &Options,
    from: &mut R,
    to: &mut W,
    errors: &mut E,
) -> u8
    ensures ends { Ends task options.now (R.remaining from.old) (W.contents to.old) (W.contents to.new) result }
    ensures status { IsStatus result }
{
    match do_task(rt, task, options, from, to) {
        Ok(()) => flushed_status::<HomeFault, _, _>(PROGRAM, 0, to, errors),
        Err(fault) => report_fault(PROGRAM, &HomeFault::Engine(fault), errors),
    }
}

// Makes a script, flushes it, and reports why that was not done. The status is 0 where it was.
fn end_generate<W: Write, E: Write>(
    alloc: Global,
    options: &GenerateOptions<'_>,
    to: &mut W,
    errors: &mut E,
) -> u8
    ensures makes { Makes options.now (W.contents to.old) (W.contents to.new) result }
    ensures status { IsStatus result }
{
    match generate(alloc, options, to) {
        Ok(()) => flushed_status::<HomeFault, _, _>(PROGRAM, 0, to, errors),
        Err(fault) => report_fault(PROGRAM, &HomeFault::Generate(fault), errors),
    }
}

// Does what is asked for, and reports its fault. The status is 0 where it was done.
fn end_asked<T: AllocGlobal + Threads + Wait + Sync, R: Read, W: Write, E: Write>(
    rt: &T,
    job: &Job<'_>,
    from: &mut R,
    to: &mut W,
    errors: &mut E,
) -> u8
    ensures ends { EndsAsked job.now (R.remaining from.old) (W.contents to.old) (W.contents to.new) result }
    ensures status { IsStatus result }
{
    match job {
        Job::Work(task, options) => end_task(rt, *task, options, from, to, errors),
        Job::Script(options) => end_generate(rt.alloc(), options, to, errors),
    }
}

/// The program: reads the arguments after its name, does the task that they name with a script from `from`, and
/// writes the transcript or the trace to `to`, or makes a script and writes that. A fault is reported to `errors`,
/// whose own faults are ignored. The answer is the status to end with.
///
/// ```
/// let status = run_words(&rt, &arguments, &mut input, &mut output, &mut errors);
/// ```
pub fn run_words<T: AllocGlobal + Threads + Wait + Sync, R: Read, W: Write, E: Write>(
    rt: &T,
    arguments: &[String],
    from: &mut R,
    to: &mut W,
    errors: &mut E,
) -> u8
    ensures outcome { ProgramOutcome (map string_bytes arguments.now) (R.remaining from.old) (W.contents to.old) (W.contents to.new) result }
    ensures status { IsStatus result }
{
    match job_of(rt.alloc(), arguments) {
        Ok(job) => end_asked(rt, &job, from, to, errors),
        Err(error) => report_arguments::<HomeFault, _, _>(PROGRAM, &error, to, errors),
    }
}
