//! From a trace's bytes to an answer's bytes.

ghost use Rattle.std.specs.Prelude.{◌≡◌, ◌≤◌, false, is_some, length, IfErr, IfOk, IfSome, IsTrue};
ghost use Rattle.chi_answer.specs.Answers.{IfUndecided, IsAnswer};
ghost use Rattle.chi_check.specs.Check.{IsReadFault, KeepsUnanswered, LookedForStatus, Outcome, asked, happened, judged, most_bytes};
ghost use Rattle.chi_check.specs.Limits.{IsWithin};
ghost use Rattle.chi_search.specs.Looks.{IsCutShort};
ghost use Rattle.chi_check.specs.CheckStatus.{IsAnswerStatus, answer_status};
ghost use Rattle.chi_check.specs.Pages.{IsPut, IsReported};

use crate::fault::{CheckFault, SourceFault};
use crate::meter::Meter;
use crate::options::CheckOptions;
use crate::page::page_asked;
use crate::pages::Pages;
use crate::recorded::trace_told;
use crate::search::{Searched, search};
use crate::untold::untold;
use crate::written::written;
use chi_answer::Answer;
use chi_json::{InputFault, read_input};
use chi_reading::Recorded;
use chi_script::write_bytes;
use chi_watch_text::WatchProgress;
use std::alloc::{AllocError, Global};
use std::io::{Read, Write};

/// The greatest number of bytes of a trace.
pub const MOST_BYTES: usize = 536_870_912;

// The status of an answer.
fn answer_status(answer: &Answer) -> u8
    ensures { result ≡ answer_status answer.now }
{
    match answer {
        Answer::Explained { order: _ } => 0,
        Answer::Blamed {
            blame: _,
            further: _,
        } => 1,
        Answer::Unexplained {
            granule: _,
            words: _,
        } => 1,
        Answer::Undecided(_) => 6,
    }
}

/// Reads the whole input.
pub(crate) fn read_bytes<R: Read>(alloc: Global, from: &mut R) -> Result<Vec<u8>, CheckFault>
    ensures within { IfOk result (λ input. length input.items ≤ most_bytes) }
    ensures bytes { IfOk result (λ input. IfSome (R.remaining from.old) (λ bytes. input.items ≡ bytes)) }
    ensures fault { IfErr result (IsReadFault (R.remaining from.old)) }
{
    match read_input(alloc, from, MOST_BYTES) {
        Ok(input) => Ok(input),
        Err(InputFault::Read) => Err(CheckFault::Input(SourceFault::Read)),
        Err(InputFault::TooLong) => Err(CheckFault::Input(SourceFault::TooLong)),
        Err(InputFault::Memory) => Err(CheckFault::Input(SourceFault::Memory)),
    }
}

// Of a trace all granules, or the one at an address.
fn asked(alloc: Global, recorded: Recorded, addr: Option<u64>) -> Result<Recorded, AllocError>
    ensures { IfOk result (λ part. part ≡ asked addr recorded) }
{
    match addr {
        Some(addr) => recorded.alone(alloc, addr / 8),
        None => Ok(recorded),
    }
}

// All of it, or what had happened by a time.
fn happened(alloc: Global, recorded: Recorded, until: Option<u64>) -> Result<Recorded, AllocError>
    ensures { IfOk result (λ part. part ≡ happened until recorded) }
{
    match until {
        Some(time) => recorded.cut(alloc, time),
        None => Ok(recorded),
    }
}

// What is judged of a trace.
fn judged(
    alloc: Global,
    recorded: Recorded,
    options: &CheckOptions<'_>,
) -> Result<Recorded, AllocError>
    ensures { IfOk result (λ part. part ≡ judged options.now recorded) }
{
    let part = asked(alloc, recorded, options.granule)?;
    happened(alloc, part, options.until)
}

/// The status of an answer, what is written of it, and the page of the trace, where one is asked for.
#[derive(Drop)]
pub(crate) struct Report {
    pub status: u8,
    pub text: Vec<u8>,
    pub page: Vec<u8>,
}

// What is reported of an answer.
fn report_of(
    alloc: Global,
    recorded: &Recorded,
    searched: Searched,
    options: &CheckOptions<'_>,
) -> Result<Report, AllocError>
    requires right { IsAnswer recorded.now options.now.around searched.answer }
    requires undecided { IfUndecided searched.answer (λ doubt. IsWithin options.now doubt.states) }
    ensures reported { IfOk result (λ report. IsReported (λ cut. cut ≡ searched.cut_short) options.now recorded.now report.status report.text.items report.page.items) }
    ensures status { IfOk result (λ report. report.status ≡ answer_status searched.answer) }
{
    let answer = &searched.answer;
    let text = written(alloc, recorded, answer, options, searched.cut_short)?;
    let page = page_asked(alloc, recorded, answer, options, searched.budget)?;
    Ok(Report {
        status: answer_status(answer),
        text,
        page,
    })
}

// What is reported of a trace.
fn answered<P: WatchProgress, M: Meter>(
    alloc: Global,
    recorded: &Recorded,
    options: &CheckOptions<'_>,
    progress: &mut P,
    meter: &M,
) -> Result<Report, AllocError>
    ensures reported { IfOk result (λ report. IsReported (IsCutShort P.states P.looked progress.new) options.now recorded.now report.status report.text.items report.page.items) }
    ensures spent { IfOk result (λ report. LookedForStatus P.states P.looked progress.old progress.new options.now report.status) }
{
    let searched = search(alloc, recorded, options, progress, meter)?;
    report_of(alloc, recorded, searched, options)
}

/// What is reported of what is judged of a trace, once what is shown of the progress is taken back.
pub(crate) fn reported<P: WatchProgress, M: Meter>(
    alloc: Global,
    recorded: Recorded,
    options: &CheckOptions<'_>,
    progress: &mut P,
    meter: &M,
) -> Result<Report, AllocError>
    ensures reported { IfOk result (λ report. IsReported (IsCutShort P.states P.looked progress.new) options.now (judged options.now recorded) report.status report.text.items report.page.items) }
    ensures spent { IfOk result (λ report. LookedForStatus P.states P.looked progress.old progress.new options.now report.status) }
{
    let part = judged(alloc, recorded, options)?;
    let report = answered(alloc, &part, options, progress, meter);
    progress.clear();
    report
}

/// Puts a page where one is asked for, and answers whether it could.
pub(crate) fn put_page<G: Pages>(pages: &mut G, path: Option<&str>, page: &[u8]) -> bool
    ensures put { IsTrue result → IfSome path.entry (λ p. G.has_put pages.new p.now page.now) }
    ensures asked { result ≡ false → IsTrue (is_some path.entry) }
{
    match path {
        Some(path) => pages.put(path, page),
        None => true,
    }
}

/// Reads a trace, or lines with the option for them, and writes whether what was observed can be explained. The answer is a
/// status: 0 where it can, 1 where it cannot, 6 where that is undecided within the budget.
///
/// Nothing is written unless the whole trace was read and its answer found. A granule of which nothing is told has none. After a
/// fault of the writer a prefix of the answer has been written. Where a page of the trace is asked for, it is made whole and put
/// before the answer is written. `progress` is told how far the search is, and cleared before anything is written. `machine` puts
/// the page, and tells how much of its time and memory was used.
///
/// ```
/// let status = check(alloc, &mut trace.as_bytes(), &mut answer, &options, &mut progress, &mut machine)?; // explained
/// ```
pub fn check<R: Read, W: Write, P: WatchProgress, G: Pages + Meter>(
    alloc: Global,
    from: &mut R,
    to: &mut W,
    options: &CheckOptions<'_>,
    progress: &mut P,
    machine: &mut G,
) -> Result<u8, CheckFault>
    ensures outcome { IfSome (R.remaining from.old) (λ input. Outcome (IsCutShort P.states P.looked progress.new) options.now input (W.contents to.old) (W.contents to.new) result) }
    ensures unanswered { KeepsUnanswered (W.contents to.old) (W.contents to.new) result }
    ensures status { IfOk result (λ status. IsAnswerStatus status) }
    ensures spent { IfOk result (λ status. LookedForStatus P.states P.looked progress.old progress.new options.now status) }
    ensures page { IfOk result (λ status. IfSome (R.remaining from.old) (λ input. IsPut G.has_put (IsCutShort P.states P.looked progress.new) options.now input (W.contents to.old) (W.contents to.new) status machine.new)) }
{
    let input = read_bytes(alloc, from)?;
    let recorded = match trace_told(alloc, &input, options.lines) {
        Ok(recorded) => recorded,
        Err(fault) => return Err(CheckFault::Input(fault)),
    };
    if let Some(addr) = untold(&recorded, options.granule) {
        return Err(CheckFault::Untold { addr });
    }
    let Ok(report) = reported(alloc, recorded, options, progress, machine) else {
        return Err(CheckFault::Input(SourceFault::Memory));
    };
    if !put_page(machine, options.html, &report.page) {
        return Err(CheckFault::Page);
    }
    match write_bytes(to, &report.text) {
        Ok(()) => Ok(report.status),
        Err(fault) => Err(CheckFault::Write(fault)),
    }
}
