//! The page of a trace.

ghost use Rattle.std.specs.Prelude.{IfOk, None, Some};
ghost use Rattle.chi_check.specs.Pages.{IsPage, IsPageAsked, blame_in};

use crate::options::CheckOptions;
use chi_answer::Answer;
use chi_granules::{all_granules, granules_around};
use chi_page::add_page;
use chi_reading::Recorded;
use chi_verdict::Blame;
use std::alloc::{AllocError, Global};

// The page of a trace that stops being explained.
fn blamed_page(
    alloc: Global,
    recorded: &Recorded,
    blame: &Blame,
    budget: u64,
) -> Result<Vec<u8>, AllocError>
    ensures { IfOk result (λ page. IsPage recorded.now (Some blame.now) page.items) }
{
    let granules = granules_around(alloc, recorded, blame, budget)?;
    let mut page = Vec::new(alloc);
    add_page(&mut page, recorded, &granules, Some(blame))?;
    Ok(page)
}

// The page of another trace.
fn usual_page(alloc: Global, recorded: &Recorded, budget: u64) -> Result<Vec<u8>, AllocError>
    ensures { IfOk result (λ page. IsPage recorded.now None page.items) }
{
    let granules = all_granules(alloc, recorded, budget)?;
    let mut page = Vec::new(alloc);
    add_page(&mut page, recorded, &granules, None)?;
    Ok(page)
}

// The page of an answer.
fn page_of_answer(
    alloc: Global,
    recorded: &Recorded,
    answer: &Answer,
    budget: u64,
) -> Result<Vec<u8>, AllocError>
    ensures { IfOk result (λ page. IsPage recorded.now (blame_in answer.now) page.items) }
{
    match answer {
        Answer::Blamed { blame, further: _ } => blamed_page(alloc, recorded, blame, budget),
        _ => usual_page(alloc, recorded, budget),
    }
}

/// The page of an answer, where one is asked for, and nothing where none is.
pub(crate) fn page_asked(
    alloc: Global,
    recorded: &Recorded,
    answer: &Answer,
    options: &CheckOptions<'_>,
    budget: u64,
) -> Result<Vec<u8>, AllocError>
    ensures { IfOk result (λ page. IsPageAsked options.now recorded.now answer.now page.items) }
{
    match options.html {
        Some(_) => page_of_answer(alloc, recorded, answer, budget),
        None => Ok(Vec::new(alloc)),
    }
}
