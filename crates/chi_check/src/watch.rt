//! From lines that tell events to an answer's bytes.

ghost use Rattle.std.specs.Prelude.{◌≡◌, ◌≢◌, IfErr, IfOk, IfSome, flat_map, is_some};
ghost use Rattle.std.specs.Io.KnownBytes.{Appends};
ghost use Rattle.chi_script.specs.WriterBytes.{AppendsFront};
ghost use Rattle.chi_search.specs.Looks.{for_verdict};
ghost use Rattle.chi_watch_text.specs.Outcomes.{IsOutcome, WentBy};
ghost use Rattle.chi_watch_text.specs.Required.{is_nothing, missing_of};
ghost use Rattle.chi_watch_text.specs.Written.{found_text};
ghost use Rattle.chi_check.specs.Check.{KeepsUnanswered};
ghost use Rattle.chi_check.specs.CheckStatus.{IsAnswerStatus};
ghost use Rattle.chi_check.specs.Saving.{SavesFirst};
ghost use Rattle.chi_check.specs.Showing.{ShowsFirst};
ghost use Rattle.chi_check.specs.Watch.{WatchOutcome, WatchedFor, WritesClosing, found_before, stopped_by, verdict_status, watch_status, watching};

use crate::fault::{CheckFault, SourceFault};
use crate::meter::Meter;
use crate::options::WatchingOptions;
use crate::pages::Pages;
use crate::save::save_first;
use crate::show::show_first;
use chi_judge::Standing;
use chi_script::{WriteFault, write_bytes};
use chi_watch_text::{
    FoundGranule, LinesFault, Unfinished, WatchOptions, WatchProgress, Watched, closing_text,
    watch_lines,
};
use std::alloc::Global;
use std::io::{BufReader, Read, Write};

// How the lines are watched: they are kept where some are to be saved, or a page is to be made of them.
fn watching(options: &WatchingOptions<'_>) -> WatchOptions
    ensures { result ≡ watching options.now }
{
    WatchOptions {
        format: options.format,
        answer: options.answer,
        budget: options.budget,
        around: options.around as usize,
        keep_going: options.keep_going,
        keep_lines: options.save.is_some() || options.html.is_some(),
        required: options.required,
    }
}

// The status of a verdict, and of whether all is there that is required.
fn verdict_status(verdict: Standing, is_complete: bool) -> u8
    ensures { result ≡ verdict_status verdict is_complete }
{
    match verdict {
        Standing::Explained if is_complete => 0,
        Standing::Explained | Standing::Unexplained => 1,
        Standing::Undecided => 6,
    }
}

// The status of what is found.
fn watch_status(watched: &Watched, options: &WatchOptions) -> u8
    ensures { result ≡ watch_status options.now watched.now }
{
    let missing = options.required.missing(watched);
    verdict_status(watched.verdict(), missing.is_nothing())
}

// Why a watch has no answer, by whether granules were found before.
fn found_before(fault: LinesFault, found: &[FoundGranule]) -> CheckFault
    ensures { result ≡ found_before fault found.now }
{
    if found.is_empty() {
        CheckFault::Input(SourceFault::Events(fault))
    } else {
        CheckFault::Unfinished(fault)
    }
}

// The same, or that they could not be told.
pub(crate) fn stopped_by(fault: LinesFault, found: &[FoundGranule]) -> CheckFault
    ensures { result ≡ stopped_by fault found.now }
{
    match fault {
        LinesFault::Write => CheckFault::Write(WriteFault::Failed),
        fault => found_before(fault, found),
    }
}

// What is found of the lines that a reader gives. Each granule is told when it is found.
fn watched<R: Read, W: Write, P: WatchProgress>(
    alloc: Global,
    from: &mut R,
    to: &mut W,
    options: &WatchOptions,
    progress: &mut P,
) -> Result<Watched, Unfinished>
    ensures outcome { IfSome (R.remaining from.old) (λ input. IsOutcome options.now.format input options.now.keep_going options.now.around result) }
    ensures told { IfOk result (λ watched. Appends (W.contents to.old) (W.contents to.new) (flat_map (found_text options.now.answer) watched.found.items)) }
    ensures kept { IfErr result (λ unfinished. unfinished.fault ≢ LinesFault.Write → Appends (W.contents to.old) (W.contents to.new) (flat_map (found_text options.now.answer) unfinished.found.items)) }
    ensures begun { IfErr result (λ unfinished. AppendsFront (W.contents to.old) (W.contents to.new) (flat_map (found_text options.now.answer) unfinished.found.items)) }
    ensures undecided { IfOk result (WentBy (P.looked for_verdict) progress.old progress.new options.now.budget) }
    ensures keeps { IfOk result (λ watched. is_some watched.kept ≡ options.now.keep_lines) }
{
    let mut lines = match BufReader::new(alloc, from) {
        Ok(lines) => lines,
        Err(_) => {
            return Err(Unfinished {
                found: Vec::new(alloc),
                fault: LinesFault::Memory,
            });
        }
    };
    watch_lines(alloc, &mut lines, to, options, progress)
}

// Writes what is said once all is watched, and answers the status of what is found.
fn write_closing<W: Write>(
    alloc: Global,
    watched: &Watched,
    to: &mut W,
    options: &WatchOptions,
) -> Result<u8, CheckFault>
    ensures { WritesClosing options.now watched.now (W.contents to.old) (W.contents to.new) result }
{
    let Ok(text) = closing_text(alloc, watched, options) else {
        return Err(stopped_by(LinesFault::Memory, &watched.found));
    };
    match write_bytes(to, &text) {
        Ok(()) => Ok(watch_status(watched, options)),
        Err(fault) => Err(CheckFault::Write(fault)),
    }
}

/// Reads events or flits, a line of JSON each, as they come, and writes whether what they tell can be explained. The answer is a
/// status: 0 where it can, and all is there that is required; 1 where it cannot, or something is missing; 6 where it is
/// undecided within the budget.
///
/// It ends at the first line by which it is seen that no order explains the operations of a granule, unless it keeps going. Each such
/// granule is written as soon as it is found, and nothing else before the end, or a line that is refused. Where lines are to be saved,
/// those that were read and tell of the granule that is listed first, or all flits that were read, are put before what is said at the end is written, and then its
/// page is, where one is asked for. After a fault of the writer a prefix of the text has been written. `progress` is told how far it
/// is, and cleared before anything is written. `machine` puts the lines and the page.
///
/// ```
/// let status = watch(alloc, &mut events.as_bytes(), &mut answer, &options, &mut progress, &mut machine)?; // explained
/// ```
pub fn watch<R: Read, W: Write, P: WatchProgress, G: Pages + Meter>(
    alloc: Global,
    from: &mut R,
    to: &mut W,
    options: &WatchingOptions<'_>,
    progress: &mut P,
    machine: &mut G,
) -> Result<u8, CheckFault>
    ensures outcome { IfSome (R.remaining from.old) (λ input. WatchOutcome (watching options.now) input (W.contents to.old) (W.contents to.new) result) }
    ensures unanswered { KeepsUnanswered (W.contents to.old) (W.contents to.new) result }
    ensures status { IfOk result (λ status. IsAnswerStatus status) }
    ensures spent { IfOk result (λ status. status ≡ 6 → WatchedFor P.states P.looked progress.old progress.new options.now.budget) }
    ensures saved { IfOk result (λ status. IfSome (R.remaining from.old) (λ input. SavesFirst G.has_put options.now input (W.contents to.old) (W.contents to.new) status machine.old machine.new)) }
    ensures shown { IfOk result (λ status. IfSome (R.remaining from.old) (λ input. ShowsFirst G.has_put options.now input (W.contents to.old) (W.contents to.new) status machine.old machine.new)) }
{
    let how = watching(options);
    let found = watched(alloc, from, to, &how, progress);
    progress.clear();
    match found {
        Ok(watched) => {
            save_first(alloc, &watched, options, machine)?;
            show_first(alloc, &watched, options, progress, machine)?;
            write_closing(alloc, &watched, to, &how)
        }
        Err(unfinished) => Err(stopped_by(unfinished.fault, &unfinished.found)),
    }
}
