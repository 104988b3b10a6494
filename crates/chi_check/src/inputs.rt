//! From traces or lines to what their operations covered, what each of them added, and how many requests were refused.

ghost use Rattle.std.specs.Prelude.{◌≡◌, ◌<◌, ◌≤◌, [], ◌∷◌, None, Some, IfErr, IfOk, IfSome, OnOk};
ghost use Rattle.chi_cover.specs.declared.bin.Bin.{Bin};
ghost use Rattle.chi_cover.specs.Counts.{count_in};
ghost use Rattle.chi_cover.specs.Plan.{goal_in};
ghost use Rattle.chi_cover.specs.Refusals.{refused_in};
ghost use Rattle.chi_trace.specs.Explains.{IsTrace};
ghost use Rattle.chi_fields.specs.declared.refusal.Refusal.{Refusal};
ghost use Rattle.chi_check.specs.Cover.{Adds, AddsFile, AddsTold, AreCounted, AreFilesFault, AreInputsFault, AreOfFiles, HasCounts, IsFileFault, IsInputFault, IsTraceFault, paths_of};

use crate::check::read_bytes;
use crate::fault::{CheckFault, SourceFault};
use crate::options::CoverOptions;
use crate::sources::Sources;
use chi_cover::{Covered, Plan, Refusals};
use chi_fields::Refusal;
use chi_json::InputFault;
use chi_reading::read_trace;
use chi_trace::Operation;
use chi_watch_text::{LineFormat, read_operations};
use std::alloc::{AllocError, Global};
use std::io::Read;

/// What was counted of inputs: what their operations covered, how many requests were refused for each reason, and how many bins
/// each input added to those that are covered.
#[derive(Drop)]
pub(crate) struct Counted {
    pub covered: Covered,
    pub refusals: Refusals,
    pub added: Vec<u64>,
}

impl Counted {
    // Of no input.
    fn none(alloc: Global) -> Result<Counted, AllocError>
        ensures covered { IfOk result (λ counted. (bin : Bin) → count_in counted.covered bin ≡ 0) }
        ensures refused { IfOk result (λ counted. (reason : Refusal) → refused_in counted.refusals reason ≡ 0) }
        ensures added { IfOk result (λ counted. counted.added.items ≡ []) }
    {
        Ok(Counted {
            covered: Covered::new(alloc)?,
            refusals: Refusals::none(),
            added: Vec::new(alloc),
        })
    }
}

// Adds operations and refusals, and how many bins are covered now that were not.
fn add_told(
    alloc: Global,
    counted: &mut Counted,
    ops: &[Operation],
    refusals: &[Refusal],
    plan: &Plan,
) -> Result<(), AllocError>
    requires { IsTrace ops.now }
    ensures { OnOk result (AddsTold (goal_in plan.now) ops.now refusals.now counted.old counted.new) }
{
    let before = counted.covered.covered(plan) as u64;
    counted.covered.add(alloc, ops)?;
    counted.refusals.add(refusals);
    let after = counted.covered.covered(plan) as u64;
    counted.added.push(after.saturating_sub(before))?;
    Ok(())
}

// Adds the operations and the refusals of a trace.
fn add_trace(
    alloc: Global,
    counted: &mut Counted,
    input: &[u8],
    plan: &Plan,
) -> Result<(), SourceFault>
    ensures added { OnOk result (Adds (goal_in plan.now) None input.now counted.old counted.new) }
    ensures fault { IfErr result (IsTraceFault None input.now) }
{
    let recorded = match read_trace(alloc, input) {
        Ok(recorded) => recorded,
        Err(fault) => return Err(SourceFault::Trace(fault)),
    };
    let ops = recorded.trace().operations();
    match add_told(alloc, counted, ops, recorded.refusals(), plan) {
        Ok(()) => Ok(()),
        Err(_) => Err(SourceFault::Memory),
    }
}

// Adds the operations and the refusals that lines tell.
fn add_lines(
    alloc: Global,
    counted: &mut Counted,
    input: &[u8],
    format: LineFormat,
    plan: &Plan,
) -> Result<(), SourceFault>
    ensures added { OnOk result (Adds (goal_in plan.now) (Some format) input.now counted.old counted.new) }
    ensures fault { IfErr result (IsTraceFault (Some format) input.now) }
{
    let mut lines = input;
    let told = match read_operations(alloc, &mut lines, format) {
        Ok(told) => told,
        Err(fault) => return Err(SourceFault::Events(fault)),
    };
    match add_told(alloc, counted, &told.operations, &told.refusals, plan) {
        Ok(()) => Ok(()),
        Err(_) => Err(SourceFault::Memory),
    }
}

// Adds what an input tells.
fn add_input(
    alloc: Global,
    counted: &mut Counted,
    input: &[u8],
    options: &CoverOptions<'_>,
    plan: &Plan,
) -> Result<(), SourceFault>
    ensures added { OnOk result (Adds (goal_in plan.now) options.now.lines input.now counted.old counted.new) }
    ensures fault { IfErr result (IsTraceFault options.now.lines input.now) }
{
    match options.lines {
        Some(format) => add_lines(alloc, counted, input, format, plan),
        None => add_trace(alloc, counted, input, plan),
    }
}

// Adds what the file at a path tells.
fn add_file<S: Sources>(
    alloc: Global,
    counted: &mut Counted,
    path: &str,
    options: &CoverOptions<'_>,
    plan: &Plan,
    sources: &S,
) -> Result<(), SourceFault>
    ensures added { OnOk result (AddsFile (S.holds sources.now) (goal_in plan.now) options.now.lines path.now counted.old counted.new) }
    ensures fault { IfErr result (IsFileFault (S.holds sources.now) options.now.lines path.now) }
{
    let input = match sources.read_file(alloc, path) {
        Ok(input) => input,
        Err(InputFault::Read) => return Err(SourceFault::Read),
        Err(InputFault::TooLong) => return Err(SourceFault::TooLong),
        Err(InputFault::Memory) => return Err(SourceFault::Memory),
    };
    add_input(alloc, counted, &input, options, plan)
}

// What these files tell, counted.
fn files_counted<S: Sources>(
    alloc: Global,
    options: &CoverOptions<'_>,
    plan: &Plan,
    sources: &S,
) -> Result<Counted, CheckFault>
    ensures counts { IfOk result (λ counted. AreOfFiles (S.holds sources.now) (goal_in plan.now) options.now.lines (paths_of options.now) counted) }
    ensures fault { IfErr result (AreFilesFault (S.holds sources.now) options.now.lines (paths_of options.now)) }
{
    let Ok(mut counted) = Counted::none(alloc) else {
        return Err(CheckFault::Input(SourceFault::Memory));
    };
    for (place, path) in options.files.iter().enumerate() {
        match add_file(alloc, &mut counted, path, options, plan, sources) {
            Ok(()) => {}
            Err(fault) => return Err(CheckFault::File { place, fault }),
        }
    }
    Ok(counted)
}

// What the standard input tells, counted.
fn input_counted<R: Read>(
    alloc: Global,
    from: &mut R,
    options: &CoverOptions<'_>,
    plan: &Plan,
) -> Result<Counted, CheckFault>
    ensures counts { IfOk result (λ counted. IfSome (R.remaining from.old) (λ input. AreCounted (goal_in plan.now) options.now.lines (input ∷ []) counted)) }
    ensures fault { IfErr result (λ fault. IfSome (R.remaining from.old) (λ input. IsInputFault options.now.lines input fault)) }
{
    let input = read_bytes(alloc, from)?;
    let Ok(mut counted) = Counted::none(alloc) else {
        return Err(CheckFault::Input(SourceFault::Memory));
    };
    match add_input(alloc, &mut counted, &input, options, plan) {
        Ok(()) => Ok(counted),
        Err(fault) => Err(CheckFault::Input(fault)),
    }
}

/// What the inputs tell, counted: the files that the options name, or the standard input where they name none.
pub(crate) fn inputs_counted<R: Read, S: Sources>(
    alloc: Global,
    from: &mut R,
    options: &CoverOptions<'_>,
    plan: &Plan,
    sources: &S,
) -> Result<Counted, CheckFault>
    ensures counts { IfOk result (λ counted. IfSome (R.remaining from.old) (λ input. HasCounts (S.holds sources.now) options.now (goal_in plan.now) input counted)) }
    ensures fault { IfErr result (λ fault. IfSome (R.remaining from.old) (λ input. AreInputsFault (S.holds sources.now) options.now.lines (paths_of options.now) input fault)) }
{
    if options.files.is_empty() {
        input_counted(alloc, from, options, plan)
    } else {
        files_counted(alloc, options, plan, sources)
    }
}
