//! A script's requests raced: those of 1 to 7 requesters at the same time, and then those of 0.

ghost use Rattle.std.specs.Prelude.{◌≡◌, ◌+◌, ◌≤◌, [], ◌++◌, length, All, IfErr, IfOk, OnOk};
ghost use Rattle.chi_history.specs.NumberSets.{AllFrom, below};
ghost use Rattle.chi_requester.specs.Race.{lines_of_all};
ghost use Rattle.chi_script.specs.Transcript.{granules_text, text};
ghost use Rattle.chi_script.specs.WriterBytes.{Puts};
ghost use Rattle.chi_engine.specs.Engine.{KeepsUnexecuted, ReportsOpening};
ghost use Rattle.chi_engine.specs.RaceTranscript.{IsRaceCut, IsRaced, RacesBy, RacesOver, racers_text, words_of};
ghost use Rattle.chi_engine.specs.Store.{IsFresh, limit_of, opening_of};
ghost use Rattle.chi_engine.specs.WorkerCount.{most_workers};

use crate::fault::EngineFault;
use crate::optional_gate::OptionalGate;
use crate::options::Options;
use crate::store::{on_store, room};
use crate::workers::Workers;
use chi_fields::Region;
use chi_history::{Gate, Home, Line};
use chi_requester::{Racer, WorkFault, race};
use chi_script::{Script, WriteFault, write_lines, write_transcript};
use std::alloc::{AllocError, Global};
use std::io::Write;
use std::sync::Wait;
use std::thread::Threads;

// So many racers, from 1 on, with no line yet, by these gates as far as they go.
pub(crate) fn racers_by<S: Drop, G: Drop>(
    alloc: Global,
    workers: Workers,
    gates: Vec<G>,
) -> Result<Vec<Racer<S, OptionalGate<G>, Global>>, AllocError>
    ensures count { IfOk result (λ v. length v.items ≡ workers) }
    ensures few { IfOk result (λ v. length v.items ≤ most_workers) }
    ensures none { IfOk result (λ v. All (λ racer. racer.lines.items ≡ []) v.items) }
{
    let mut racers = Vec::new(alloc);
    let mut gates = gates.into_iter();
    for _ in 0..workers.count() {
        let gate = OptionalGate { gate: gates.next() };
        racers.push(Racer::new(gate, Vec::new(alloc)))?;
    }
    Ok(racers)
}

// Writes the lines of the racers in their order.
fn write_racers<W: Write, S, G>(
    to: &mut W,
    racers: &[Racer<S, G, Global>],
) -> Result<(), WriteFault>
    ensures { Puts (W.contents to.old) (W.contents to.new) result (racers_text racers.now) }
{
    for racer in racers {
        write_lines(to, racer.lines.as_slice())?;
    }
    Ok(())
}

// Writes the lines of the racers, and then those of 0.
fn write_race_lines<W: Write, S, G>(
    to: &mut W,
    racers: &[Racer<S, G, Global>],
    zero: &[Line],
) -> Result<(), WriteFault>
    ensures { Puts (W.contents to.old) (W.contents to.new) result (racers_text racers.now ++ text zero.now) }
{
    write_racers(to, racers)?;
    write_lines(to, zero)
}

// Writes the lines of the racers and of 0, and then the memory lines.
fn write_race<W: Write, S, G>(
    to: &mut W,
    racers: &[Racer<S, G, Global>],
    zero: &[Line],
    region: &Region,
    words: &[u64],
) -> Result<(), WriteFault>
    requires { length words.now ≡ region.now.granules }
    ensures { Puts (W.contents to.old) (W.contents to.new) result
        ((racers_text racers.now ++ text zero.now) ++ granules_text region.now.base words.now) }
{
    write_racers(to, racers)?;
    write_transcript(to, zero, region, words)
}

// The words of the memory after a race.
fn words_after<H: Home, R: Wait>(
    home: &H,
    rt: &R,
    seat: &mut H::Seat,
    script: &Script,
    words: &mut [u64],
)
    requires own { H.belongs home.now seat.old }
    requires opening { H.opening home.now ≡ opening_of script.now }
    requires all { H.held seat.old ≡ below (opening_of script.now).requesters }
    requires room { length words.old ≡ script.now.region.granules }
    ensures seen { H.seen seat.new ≡ H.seen seat.old }
    ensures shown { words.new ≡ words_of script.now (H.seen seat.old) }
{
    home.snapshot(rt, seat, words);
}

// Races a script over a home that was just opened for it, by racers with no line yet: the lines of these and of 0, and the words of
// the memory after them.
pub(crate) fn race_all<H: Home + Sync, T: Threads + Wait + Sync, G: Gate + Drop + Send>(
    home: &H,
    rt: &T,
    seat: &mut H::Seat,
    script: &Script,
    options: &Options,
    racers: &mut [Racer<H::Seat, G, Global>],
    zero: &mut Vec<Line>,
    words: &mut [u64],
) -> Result<(), WorkFault>
    requires own { H.belongs home.now seat.old }
    requires fresh { IsFresh (H.opening home.now) script.now (H.held seat.old) (H.seen seat.old) }
    requires limit { H.limit home.now ≡ limit_of options.now.store }
    requires from { AllFrom (below (options.now.workers + 1)) script.now.requests }
    requires room { length words.old ≡ script.now.region.granules }
    requires count { length racers.old ≡ options.now.workers }
    requires few { length racers.old ≤ most_workers }
    requires none { All (λ racer. racer.lines.items ≡ []) racers.old }
    requires empty { zero.old.items ≡ [] }
    ensures count { length racers.new ≡ options.now.workers }
    ensures raced { OnOk result (IsRaced options.now script.now (H.seen seat.new) (lines_of_all zero.new.items racers.new)) }
    ensures shown { OnOk result (words.new ≡ words_of script.now (H.seen seat.new)) }
    ensures cut { IfErr result (λ fault. IsRaceCut fault options.now script.now (H.seen seat.new) (lines_of_all zero.new.items racers.new)) }
{
    let requests = script.requests();
    race(home, rt, seat, requests, options.policy, racers, zero)?;
    words_after(home, rt, seat, script, words);
    Ok(())
}

// Races a script over a home that was just opened for it, by the workers of the options, and writes the transcript.
fn race_over<
    H: Home + Sync,
    T: AllocGlobal + Threads + Wait + Sync,
    W: Write,
    G: Gate + Drop + Send,
>(
    home: &H,
    rt: &T,
    seat: &mut H::Seat,
    script: &Script,
    options: &Options,
    gates: Vec<G>,
    words: &mut [u64],
    to: &mut W,
) -> Result<(), EngineFault>
    requires own { H.belongs home.now seat.old }
    requires fresh { IsFresh (H.opening home.now) script.now (H.held seat.old) (H.seen seat.old) }
    requires limit { H.limit home.now ≡ limit_of options.now.store }
    requires from { AllFrom (below (options.now.workers + 1)) script.now.requests }
    requires room { length words.old ≡ script.now.region.granules }
    ensures { RacesOver options.now script.now (W.contents to.old) (W.contents to.new) result }
{
    let Ok(mut racers) = racers_by(rt.alloc(), options.workers, gates) else {
        return Err(EngineFault::Memory);
    };
    let racers = racers.as_mut_slice();
    let mut zero = Vec::new(rt.alloc());
    if let Err(fault) = race_all(home, rt, seat, script, options, racers, &mut zero, words) {
        // That the work stopped is answered also where this writing fails.
        let _written = write_race_lines(to, racers, zero.as_slice());
        return Err(EngineFault::Work(fault));
    }
    write_race(to, racers, zero.as_slice(), &script.region(), words).map_err(EngineFault::Write)
}

// Races a script over the store of the options, by its workers, and writes the transcript.
pub(crate) fn race_script<T: AllocGlobal + Threads + Wait + Sync, W: Write, G: Gate + Drop + Send>(
    rt: &T,
    script: &Script,
    to: &mut W,
    options: &Options,
    gates: Vec<G>,
) -> Result<(), EngineFault>
    requires from { AllFrom (below (options.now.workers + 1)) script.now.requests }
    ensures executed { RacesBy options.now script.now (W.contents to.old) (W.contents to.new) result }
    ensures opening { ReportsOpening options.now.store result }
    ensures unexecuted { KeepsUnexecuted (W.contents to.old) (W.contents to.new) result }
{
    let Ok(mut words) = room(rt.alloc(), script.region().granules()) else {
        return Err(EngineFault::Memory);
    };
    let words = words.as_mut_slice();
    on_store!(
        rt.alloc(),
        script,
        options,
        |home, seat| race_over(&home, rt, &mut seat, script, options, gates, words, to)
    )
}
