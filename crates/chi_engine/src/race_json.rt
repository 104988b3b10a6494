//! A script's requests raced, and the transcript of that as JSON.

ghost use Rattle.std.specs.Prelude.{◌≡◌, ◌+◌, ◌++◌, flat_map, length, IfOk};
ghost use Rattle.serde_json.specs.View.{view};
ghost use Rattle.chi_history.specs.NumberSets.{AllFrom, below};
ghost use Rattle.chi_requester.specs.Team.{lines_in};
ghost use Rattle.chi_engine.specs.Engine.{ReportsOpening};
ghost use Rattle.chi_engine.specs.JsonWritten.{KeepsUnwritten};
ghost use Rattle.chi_engine.specs.Store.{IsFresh, limit_of};
ghost use Rattle.chi_engine.specs.TranscriptJson.{RacesJson, RacesJsonBy};

use crate::fault::EngineFault;
use crate::json_written::write_value;
use crate::options::Options;
use crate::race::{race_all, racers_by};
use crate::store::{on_store, room};
use crate::transcript_json::transcript_value;
use chi_history::{Gate, Home, Line};
use chi_requester::Racer;
use chi_script::Script;
use std::alloc::{AllocError, Global};
use std::io::Write;
use std::sync::Wait;
use std::thread::Threads;

// The lines of the racers in their order, and then those of 0.
fn lines_of_race<S, G>(
    alloc: Global,
    racers: &[Racer<S, G, Global>],
    zero: &[Line],
) -> Result<Vec<Line>, AllocError>
    ensures { IfOk result (λ lines. lines.items ≡ flat_map lines_in racers.now ++ zero.now) }
{
    let mut lines = Vec::new(alloc);
    for racer in racers {
        lines.extend_from_slice(racer.lines.as_slice())?;
    }
    lines.extend_from_slice(zero)?;
    Ok(lines)
}

// Races a script over a home that was just opened for it, by the workers of the options, and writes the transcript.
#[tactic(auto, using(crate::proofs::JsonLemmas::transcript_depth))]
fn race_json_over<
    H: Home + Sync,
    T: AllocGlobal + Threads + Wait + Sync,
    W: Write,
    G: Gate + Drop + Send,
>(
    home: &H,
    rt: &T,
    seat: &mut H::Seat,
    script: &Script,
    options: &Options,
    gates: Vec<G>,
    words: &mut [u64],
    to: &mut W,
) -> Result<(), EngineFault>
    requires own { H.belongs home.now seat.old }
    requires fresh { IsFresh (H.opening home.now) script.now (H.held seat.old) (H.seen seat.old) }
    requires limit { H.limit home.now ≡ limit_of options.now.store }
    requires from { AllFrom (below (options.now.workers + 1)) script.now.requests }
    requires room { length words.old ≡ script.now.region.granules }
    ensures races { RacesJson options.now script.now (W.contents to.old) (W.contents to.new) result }
    ensures unwritten { KeepsUnwritten (W.contents to.old) (W.contents to.new) result }
{
    let Ok(mut racers) = racers_by(rt.alloc(), options.workers, gates) else {
        return Err(EngineFault::Memory);
    };
    let racers = racers.as_mut_slice();
    let mut zero = Vec::new(rt.alloc());
    if let Err(fault) = race_all(home, rt, seat, script, options, racers, &mut zero, words) {
        return Err(EngineFault::Work(fault));
    }
    let Ok(lines) = lines_of_race(rt.alloc(), racers, zero.as_slice()) else {
        return Err(EngineFault::Memory);
    };
    let Ok(value) = transcript_value(rt.alloc(), &script.region(), words, lines.as_slice()) else {
        return Err(EngineFault::Memory);
    };
    write_value(rt.alloc(), &value, to)
}

// Races a script over the store of the options, by its workers, and writes the transcript.
pub(crate) fn race_script_json<
    T: AllocGlobal + Threads + Wait + Sync,
    W: Write,
    G: Gate + Drop + Send,
>(rt: &T, script: &Script, to: &mut W, options: &Options, gates: Vec<G>) -> Result<(), EngineFault>
    requires from { AllFrom (below (options.now.workers + 1)) script.now.requests }
    ensures executed { RacesJsonBy options.now script.now (W.contents to.old) (W.contents to.new) result }
    ensures opening { ReportsOpening options.now.store result }
    ensures unwritten { KeepsUnwritten (W.contents to.old) (W.contents to.new) result }
{
    let Ok(mut words) = room(rt.alloc(), script.region().granules()) else {
        return Err(EngineFault::Memory);
    };
    let words = words.as_mut_slice();
    on_store!(
        rt.alloc(),
        script,
        options,
        |home, seat| race_json_over(&home, rt, &mut seat, script, options, gates, words, to)
    )
}
