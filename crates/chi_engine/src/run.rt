//! A script's requests executed one after another.

ghost use Rattle.std.specs.Prelude.{◌≡◌, ◌+◌, [], length, IfErr, OnOk};
ghost use Rattle.chi_history.specs.NumberSets.{AllFrom, below};
ghost use Rattle.chi_history.specs.History.{end, opening_memory};
ghost use Rattle.chi_history.specs.Lines.{serial, serial_end};
ghost use Rattle.chi_engine.specs.Run.{IsCut, Runs, most_src};
ghost use Rattle.chi_engine.specs.Store.{IsFresh, opening_of};
ghost use Rattle.chi_script.specs.RunText.{granule_words};

use crate::fault::EngineFault;
use chi_history::{Home, Line};
use chi_requester::{Policy, WorkFault, run_serial};
use chi_script::{Script, write_lines, write_transcript};
use std::io::Write;
use std::sync::Wait;

// Executes the requests of a script in order: their lines.
fn execute_all<H: Home, R: Wait>(
    home: &H,
    rt: &R,
    seat: &mut H::Seat,
    script: &Script,
    policy: Policy,
    lines: &mut Vec<Line>,
) -> Result<(), WorkFault>
    requires own { H.belongs home.now seat.old }
    requires fresh { IsFresh (H.opening home.now) script.now (H.held seat.old) (H.seen seat.old) }
    requires from { AllFrom (below (most_src + 1)) script.now.requests }
    requires empty { lines.old.items ≡ [] }
    ensures own { H.belongs home.now seat.new }
    ensures held { H.held seat.new ≡ H.held seat.old }
    ensures told { OnOk result (lines.new.items ≡ serial script.now.region script.now.requests (opening_memory (opening_of script.now))) }
    ensures left { OnOk result (end (H.opening home.now) (H.seen seat.new) ≡ serial_end script.now.region script.now.requests (opening_memory (opening_of script.now))) }
    ensures cut { IfErr result (λ _. IsCut script.now lines.new.items) }
{
    run_serial(home, rt, seat, script.requests(), policy, lines)
}

// Executes the requests of a script in order: their lines, and the words of the memory after them.
pub(crate) fn work_all<H: Home, R: Wait>(
    home: &H,
    rt: &R,
    seat: &mut H::Seat,
    script: &Script,
    policy: Policy,
    lines: &mut Vec<Line>,
    words: &mut [u64],
) -> Result<(), WorkFault>
    requires own { H.belongs home.now seat.old }
    requires fresh { IsFresh (H.opening home.now) script.now (H.held seat.old) (H.seen seat.old) }
    requires from { AllFrom (below (most_src + 1)) script.now.requests }
    requires empty { lines.old.items ≡ [] }
    requires room { length words.old ≡ script.now.region.granules }
    ensures told { OnOk result (lines.new.items ≡ serial script.now.region script.now.requests (opening_memory (opening_of script.now))) }
    ensures shown { OnOk result (let last = serial_end script.now.region script.now.requests (opening_memory (opening_of script.now)) in
        words.new ≡ granule_words last script.now.region.base script.now.region.granules) }
    ensures cut { IfErr result (λ _. IsCut script.now lines.new.items) }
{
    execute_all(home, rt, seat, script, policy, lines)?;
    home.snapshot(rt, seat, words);
    Ok(())
}

// Executes a script over a home that was just opened for it, and writes the transcript.
pub(crate) fn run_over<H: Home, T: AllocGlobal + Wait, W: Write>(
    home: &H,
    rt: &T,
    seat: &mut H::Seat,
    script: &Script,
    policy: Policy,
    words: &mut [u64],
    to: &mut W,
) -> Result<(), EngineFault>
    requires own { H.belongs home.now seat.old }
    requires fresh { IsFresh (H.opening home.now) script.now (H.held seat.old) (H.seen seat.old) }
    requires from { AllFrom (below (most_src + 1)) script.now.requests }
    requires room { length words.old ≡ script.now.region.granules }
    ensures { Runs script.now (W.contents to.old) (W.contents to.new) result }
{
    let mut lines = Vec::new(rt.alloc());
    if let Err(fault) = work_all(home, rt, seat, script, policy, &mut lines, words) {
        // That the work stopped is answered also where this writing fails.
        let _written = write_lines(to, lines.as_slice());
        return Err(EngineFault::Work(fault));
    }
    write_transcript(to, lines.as_slice(), &script.region(), words).map_err(EngineFault::Write)
}
