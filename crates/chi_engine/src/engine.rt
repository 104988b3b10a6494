//! From a script's bytes to a transcript's bytes, as text or as JSON, or to a trace's.

ghost use Rattle.std.specs.Prelude.{IfSome};
ghost use Rattle.chi_engine.specs.Engine.{KeepsUnexecuted, ReportsOpening};
ghost use Rattle.chi_engine.specs.RaceTranscript.{RaceOutcome};
ghost use Rattle.chi_engine.specs.Run.{Outcome};
ghost use Rattle.chi_engine.specs.JsonWritten.{KeepsUnwritten};
ghost use Rattle.chi_engine.specs.Trace.{TraceOutcome};
ghost use Rattle.chi_engine.specs.TranscriptJson.{OutcomeAs, RaceJsonOutcome, RunJsonOutcome};

use crate::fault::EngineFault;
use crate::input::read_whole;
use crate::options::Options;
use crate::race::race_script;
use crate::race_json::race_script_json;
use crate::run::run_over;
use crate::run_form::RunForm;
use crate::run_json::run_json_over;
use crate::store::{on_store, room};
use chi_history::Gate;
use chi_requester::MixedGate;
use std::alloc::{AllocError, Global};
use std::io::{Read, Write};
use std::sync::Wait;
use std::thread::Threads;

/// The greatest requester number of a script whose requests are executed in order.
const MOST_SRC: u8 = 7;

/// Reads a script, executes its requests in order on the memory that it opens with, and writes the transcript.
///
/// Nothing is written unless the whole script was read and the store was opened. Where there is no memory for
/// the work, a prefix of the requests' lines is written, without memory lines. After a fault of the
/// writer a prefix of the transcript has been written.
///
/// ```
/// engine_run(rt, &mut script.as_bytes(), &mut transcript, &options)?;
/// ```
pub fn engine_run<T: AllocGlobal + Wait, R: Read, W: Write>(
    rt: &T,
    from: &mut R,
    to: &mut W,
    options: &Options,
) -> Result<(), EngineFault>
    ensures outcome { IfSome (R.remaining from.old) (λ input. Outcome options.now input (W.contents to.old) (W.contents to.new) result) }
    ensures opening { ReportsOpening options.now.store result }
    ensures unexecuted { KeepsUnexecuted (W.contents to.old) (W.contents to.new) result }
{
    let script = read_whole(rt.alloc(), from, MOST_SRC)?;
    let Ok(mut words) = room(rt.alloc(), script.region().granules()) else {
        return Err(EngineFault::Memory);
    };
    let words = words.as_mut_slice();
    let policy = options.policy;
    on_store!(
        rt.alloc(),
        &script,
        options,
        |home, seat| run_over(&home, rt, &mut seat, &script, policy, words, to)
    )
}

// Reads a script, executes its requests in order, and writes that in this form.
fn engine_json<T: AllocGlobal + Wait, R: Read, W: Write>(
    rt: &T,
    form: RunForm,
    from: &mut R,
    to: &mut W,
    options: &Options,
) -> Result<(), EngineFault>
    ensures outcome { IfSome (R.remaining from.old) (λ input. OutcomeAs form options.now input (W.contents to.old) (W.contents to.new) result) }
    ensures opening { ReportsOpening options.now.store result }
    ensures unwritten { KeepsUnwritten (W.contents to.old) (W.contents to.new) result }
{
    let script = &read_whole(rt.alloc(), from, MOST_SRC)?;
    let Ok(mut words) = room(rt.alloc(), script.region().granules()) else {
        return Err(EngineFault::Memory);
    };
    let words = words.as_mut_slice();
    let policy = options.policy;
    on_store!(
        rt.alloc(),
        script,
        options,
        |home, seat| run_json_over(&home, rt, &mut seat, form, script, policy, words, to)
    )
}

/// Reads a script, executes its requests in order as `engine_run` does, and writes a trace of that in place of the transcript: the
/// script with more members, in JSON. Each request has `start` and `end`, which both are its place among the requests, counted
/// from 0, and `reply`, or `refused` and the reason. `image` and `final` have the bytes of the region before and after.
///
/// It reads, opens and executes as `engine_run` does, with the same faults. Nothing is written unless the whole text was made:
/// where there is no memory for the work or the text, nothing is. After a fault of the writer a prefix of the text has been
/// written.
///
/// ```
/// engine_trace(rt, &mut script.as_bytes(), &mut trace, &options)?;
/// ```
pub fn engine_trace<T: AllocGlobal + Wait, R: Read, W: Write>(
    rt: &T,
    from: &mut R,
    to: &mut W,
    options: &Options,
) -> Result<(), EngineFault>
    ensures outcome { IfSome (R.remaining from.old) (λ input. TraceOutcome options.now input (W.contents to.old) (W.contents to.new) result) }
    ensures opening { ReportsOpening options.now.store result }
    ensures unwritten { KeepsUnwritten (W.contents to.old) (W.contents to.new) result }
{
    engine_json(rt, RunForm::Trace, from, to, options)
}

/// Reads a script, executes its requests in order as `engine_run` does, and writes the transcript as one JSON object. `requests` has
/// an object for each line: the members of its request in a script, `name`, and `reply` (`comp`, or the data packet), `refused` (the
/// reason), or `retry`. `final` has the bytes of the region after them.
///
/// Faults, and what is written then, are those of `engine_trace`.
///
/// ```
/// engine_run_json(rt, &mut script.as_bytes(), &mut transcript, &options)?;
/// ```
pub fn engine_run_json<T: AllocGlobal + Wait, R: Read, W: Write>(
    rt: &T,
    from: &mut R,
    to: &mut W,
    options: &Options,
) -> Result<(), EngineFault>
    ensures outcome { IfSome (R.remaining from.old) (λ input. RunJsonOutcome options.now input (W.contents to.old) (W.contents to.new) result) }
    ensures opening { ReportsOpening options.now.store result }
    ensures unwritten { KeepsUnwritten (W.contents to.old) (W.contents to.new) result }
{
    engine_json(rt, RunForm::Transcript, from, to, options)
}

// The four gates, of which each may be of a type of its own.
fn gates_of<G1: Drop, G2: Drop, G3: Drop, G4: Drop>(
    alloc: Global,
    gate1: G1,
    gate2: G2,
    gate3: G3,
    gate4: G4,
) -> Result<Vec<MixedGate<G1, G2, G3, G4>>, AllocError> {
    let mut gates = Vec::with_capacity(alloc, 4)?;
    gates.push_reserved(MixedGate::One(gate1));
    gates.push_reserved(MixedGate::Two(gate2));
    gates.push_reserved(MixedGate::Three(gate3));
    gates.push_reserved(MixedGate::Four(gate4));
    Ok(gates)
}

/// Reads a script, executes the requests of 1 and up, one requester for each worker of the options, at the same time,
/// and then those of 0, on the memory that the script opens with, and writes the transcript: the lines of 1 on, those
/// of 0, and the memory.
///
/// Each worker has a gate of its own, in the order of their numbers. Where there are fewer gates than workers, the
/// further workers have none; where there are more, the further gates are not used. Faults and what they leave
/// written are as in `engine_run`; the lines so far are in the same order.
///
/// ```
/// engine_race_gated(rt, &mut script.as_bytes(), &mut transcript, &options, vec![in rt.alloc(); NoGate; 7]?)?;
/// ```
pub fn engine_race_gated<
    T: AllocGlobal + Threads + Wait + Sync,
    R: Read,
    W: Write,
    G: Gate + Drop + Send,
>(rt: &T, from: &mut R, to: &mut W, options: &Options, gates: Vec<G>) -> Result<(), EngineFault>
    ensures outcome { IfSome (R.remaining from.old) (λ input. RaceOutcome options.now input (W.contents to.old) (W.contents to.new) result) }
    ensures opening { ReportsOpening options.now.store result }
    ensures unexecuted { KeepsUnexecuted (W.contents to.old) (W.contents to.new) result }
{
    let script = read_whole(rt.alloc(), from, options.workers.count())?;
    race_script(rt, &script, to, options, gates)
}

/// Races a script as `engine_race_gated` does, by four gates, of which each may be of a type of its own.
///
/// ```
/// engine_race(rt, &mut script.as_bytes(), &mut transcript, &options, NoGate, NoGate, NoGate, NoGate)?;
/// ```
pub fn engine_race<
    T: AllocGlobal + Threads + Wait + Sync,
    R: Read,
    W: Write,
    G1: Gate + Drop + Send,
    G2: Gate + Drop + Send,
    G3: Gate + Drop + Send,
    G4: Gate + Drop + Send,
>(
    rt: &T,
    from: &mut R,
    to: &mut W,
    options: &Options,
    gate1: G1,
    gate2: G2,
    gate3: G3,
    gate4: G4,
) -> Result<(), EngineFault>
    ensures outcome { IfSome (R.remaining from.old) (λ input. RaceOutcome options.now input (W.contents to.old) (W.contents to.new) result) }
    ensures opening { ReportsOpening options.now.store result }
    ensures unexecuted { KeepsUnexecuted (W.contents to.old) (W.contents to.new) result }
{
    let Ok(gates) = gates_of(rt.alloc(), gate1, gate2, gate3, gate4) else {
        return Err(EngineFault::Memory);
    };
    engine_race_gated(rt, from, to, options, gates)
}

/// Races a script as `engine_race_gated` does, and writes the transcript as one JSON object, as `engine_run_json` has it. Where there
/// is no memory for the work or the text, nothing is written.
///
/// ```
/// engine_race_json(rt, &mut script.as_bytes(), &mut transcript, &options, vec![in rt.alloc(); NoGate; 7]?)?;
/// ```
pub fn engine_race_json<
    T: AllocGlobal + Threads + Wait + Sync,
    R: Read,
    W: Write,
    G: Gate + Drop + Send,
>(rt: &T, from: &mut R, to: &mut W, options: &Options, gates: Vec<G>) -> Result<(), EngineFault>
    ensures outcome { IfSome (R.remaining from.old) (λ input. RaceJsonOutcome options.now input (W.contents to.old) (W.contents to.new) result) }
    ensures opening { ReportsOpening options.now.store result }
    ensures unwritten { KeepsUnwritten (W.contents to.old) (W.contents to.new) result }
{
    let script = &read_whole(rt.alloc(), from, options.workers.count())?;
    race_script_json(rt, script, to, options, gates)
}
