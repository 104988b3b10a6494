//! What is written of what the operations of traces or of events covered, of what each input added, and of how many requests were
//! refused.

ghost use Rattle.std.specs.Prelude.{◌≡◌, ◌<◌, ◌≤◌, IfOk, IfSome};
ghost use Rattle.chi_cover.specs.Counts.{count_in, percent_of};
ghost use Rattle.chi_cover.specs.Plan.{goal_in};
ghost use Rattle.chi_check.specs.Check.{KeepsUnanswered};
ghost use Rattle.chi_check.specs.CheckStatus.{IsAnswerStatus};
ghost use Rattle.chi_check.specs.Cover.{CoverOutcome, IsCoverPage, IsCoverPut, cover_text, json_of, written_of};

use crate::check::put_page;
use crate::fault::{CheckFault, SourceFault};
use crate::inputs::{Counted, inputs_counted};
use crate::options::CoverOptions;
use crate::pages::Pages;
use crate::plan::plan_asked;
use crate::sources::Sources;
use chi_answer::AnswerFormat;
use chi_cover::{Covered, Plan, add_added_lines, add_json, add_page, add_refusals, add_table};
use chi_script::write_bytes;
use std::alloc::{AllocError, Global};
use std::io::{Read, Write};

// The status of what is covered.
fn cover_status(covered: &Covered, options: &CoverOptions<'_>, plan: &Plan) -> u8
    ensures below { percent_of (goal_in plan.now) (count_in covered.now) < options.now.require → result ≡ 1 }
    ensures reached { options.now.require ≤ percent_of (goal_in plan.now) (count_in covered.now) → result ≡ 0 }
    ensures status { IsAnswerStatus result }
{
    let percent = covered.percent(plan) as u64;
    if percent < options.require { 1 } else { 0 }
}

// The table of what is covered, how many requests were refused, and what each of the files added.
fn counted_text(
    alloc: Global,
    counted: &Counted,
    options: &CoverOptions<'_>,
    plan: &Plan,
) -> Result<Vec<u8>, AllocError>
    ensures { IfOk result (λ text. text.items ≡ cover_text options.now plan.now counted.now) }
{
    let mut text = Vec::new(alloc);
    add_table(alloc, &mut text, &counted.covered, plan)?;
    add_refusals(&mut text, &counted.refusals)?;
    add_added_lines(&mut text, &options.files, &counted.added)?;
    Ok(text)
}

// The same as JSON.
fn counted_json(alloc: Global, counted: &Counted, plan: &Plan) -> Result<Vec<u8>, AllocError>
    ensures { IfOk result (λ text. text.items ≡ json_of plan.now counted.now) }
{
    let mut text = Vec::new(alloc);
    add_json(
        alloc,
        &mut text,
        &counted.covered,
        &counted.refusals,
        plan,
        &counted.added,
    )?;
    Ok(text)
}

// What is written of what was counted, in the form that is asked for.
fn counted_as(
    alloc: Global,
    counted: &Counted,
    options: &CoverOptions<'_>,
    plan: &Plan,
) -> Result<Vec<u8>, AllocError>
    ensures { IfOk result (λ text. text.items ≡ written_of options.now plan.now counted.now) }
{
    match options.format {
        AnswerFormat::Text => counted_text(alloc, counted, options, plan),
        AnswerFormat::Json => counted_json(alloc, counted, plan),
    }
}

// The page of what was counted, where one is asked for, and nothing where none is.
fn page_asked(
    alloc: Global,
    counted: &Counted,
    options: &CoverOptions<'_>,
    plan: &Plan,
) -> Result<Vec<u8>, AllocError>
    ensures { IfOk result (λ page. IfSome options.now.html (λ _. IsCoverPage plan.now counted.now page.items)) }
{
    let mut page = Vec::new(alloc);
    if options.html.is_some() {
        add_page(
            alloc,
            &mut page,
            &counted.covered,
            &counted.refusals,
            plan,
            &counted.added,
        )?;
    }
    Ok(page)
}

/// What is written of what was counted: the text or the JSON, and the page where one is asked for.
#[derive(Drop)]
struct CoverReport {
    text: Vec<u8>,
    page: Vec<u8>,
}

// What is written of what was counted, as the options ask for it.
fn report_of(
    alloc: Global,
    counted: &Counted,
    options: &CoverOptions<'_>,
    plan: &Plan,
) -> Result<CoverReport, AllocError>
    ensures text { IfOk result (λ report. report.text.items ≡ written_of options.now plan.now counted.now) }
    ensures page { IfOk result (λ report. IfSome options.now.html (λ _. IsCoverPage plan.now counted.now report.page.items)) }
{
    let text = counted_as(alloc, counted, options, plan)?;
    let page = page_asked(alloc, counted, options, plan)?;
    Ok(CoverReport { text, page })
}

/// Reads traces or events, counts what their operations covered and how many requests were refused, and writes the table and then
/// the refusals, or both as JSON: of the files that the options name, added up, or of the standard input where they name none. How
/// many bins each input added stands after the refusals where there are two files or more, and in the JSON always. The answer is a
/// status: 1 where fewer of a hundred bins are covered than the options want, and else 0. Which operations count as covered is by the
/// plan of the options, which is read first.
///
/// Nothing is written unless the plan and all inputs were read and counted. Where a page is asked for, it is made whole and put before the counts
/// are written. After a fault of the writer a prefix of them has been written. Whether the operations can be explained is not
/// looked at. `machine` reads the files and puts the page.
///
/// ```
/// let status = cover(alloc, &mut trace.as_bytes(), &mut table, &options, &mut machine)?; // as much as the options want
/// ```
pub fn cover<R: Read, W: Write, G: Pages + Sources>(
    alloc: Global,
    from: &mut R,
    to: &mut W,
    options: &CoverOptions<'_>,
    machine: &mut G,
) -> Result<u8, CheckFault>
    ensures outcome { IfSome (R.remaining from.old) (λ input. CoverOutcome (G.holds machine.old) options.now input (W.contents to.old) (W.contents to.new) result) }
    ensures unanswered { KeepsUnanswered (W.contents to.old) (W.contents to.new) result }
    ensures status { IfOk result (λ status. IsAnswerStatus status) }
    ensures page { IfOk result (λ status. IfSome (R.remaining from.old) (λ input. IsCoverPut (G.holds machine.old) G.has_put options.now input (W.contents to.old) (W.contents to.new) machine.new)) }
{
    let plan = match plan_asked(alloc, options, machine) {
        Ok(plan) => plan,
        Err(fault) => return Err(CheckFault::Plan(fault)),
    };
    let counted = inputs_counted(alloc, from, options, &plan, machine)?;
    let Ok(report) = report_of(alloc, &counted, options, &plan) else {
        return Err(CheckFault::Input(SourceFault::Memory));
    };
    if !put_page(machine, options.html, &report.page) {
        return Err(CheckFault::Page);
    }
    match write_bytes(to, &report.text) {
        Ok(()) => Ok(cover_status(&counted.covered, options, &plan)),
        Err(fault) => Err(CheckFault::Write(fault)),
    }
}
