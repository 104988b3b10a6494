//! A script's requests executed one after another, and what is written of that as JSON.

ghost use Rattle.std.specs.Prelude.{◌≡◌, ◌+◌, ◌≤◌, IfOk, length};
ghost use Rattle.serde_json.specs.Data.{depth};
ghost use Rattle.serde_json.specs.View.{view};
ghost use Rattle.chi_history.specs.NumberSets.{AllFrom, below};
ghost use Rattle.chi_engine.specs.JsonWritten.{KeepsUnwritten, WritesValue};
ghost use Rattle.chi_engine.specs.Run.{most_src};
ghost use Rattle.chi_engine.specs.Store.{IsFresh};
ghost use Rattle.chi_engine.specs.Trace.{trace_data};
ghost use Rattle.chi_engine.specs.TranscriptJson.{transcript_json, value_in, value_of};

use crate::fault::EngineFault;
use crate::json_written::write_value;
use crate::run::work_all;
use crate::run_form::RunForm;
use crate::trace::trace_value;
use crate::transcript_json::transcript_value;
use chi_history::{Home, Line};
use chi_requester::Policy;
use chi_script::Script;
use serde_json::Value;
use std::alloc::{AllocError, Global};
use std::io::Write;
use std::sync::Wait;

// What a run is written as, by its lines and the words that it left.
fn value_of_run(
    alloc: Global,
    form: RunForm,
    script: &Script,
    words: &[u64],
    lines: &[Line],
) -> Result<Value, AllocError>
    ensures { IfOk result (λ value. view value ≡ value_in form script.now words.now lines.now) }
{
    match form {
        RunForm::Trace => trace_value(alloc, script, words, lines),
        RunForm::Transcript => transcript_value(alloc, &script.region(), words, lines),
    }
}

// Executes a script over a home that was just opened for it, and writes that in this form.
#[tactic(auto, using(crate::proofs::JsonLemmas::value_depth))]
pub(crate) fn run_json_over<H: Home, T: AllocGlobal + Wait, W: Write>(
    home: &H,
    rt: &T,
    seat: &mut H::Seat,
    form: RunForm,
    script: &Script,
    policy: Policy,
    words: &mut [u64],
    to: &mut W,
) -> Result<(), EngineFault>
    requires own { H.belongs home.now seat.old }
    requires fresh { IsFresh (H.opening home.now) script.now (H.held seat.old) (H.seen seat.old) }
    requires from { AllFrom (below (most_src + 1)) script.now.requests }
    requires room { length words.old ≡ script.now.region.granules }
    ensures written { WritesValue (value_of form script.now) (W.contents to.old) (W.contents to.new) result }
    ensures unwritten { KeepsUnwritten (W.contents to.old) (W.contents to.new) result }
{
    let mut lines = Vec::new(rt.alloc());
    if let Err(fault) = work_all(home, rt, seat, script, policy, &mut lines, words) {
        return Err(EngineFault::Work(fault));
    }
    let Ok(value) = value_of_run(rt.alloc(), form, script, words, lines.as_slice()) else {
        return Err(EngineFault::Memory);
    };
    write_value(rt.alloc(), &value, to)
}
