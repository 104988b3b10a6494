//! What is written of lines that are watched, in the form that is asked for.

ghost use Rattle.std.specs.Prelude.{◌≡◌, ◌++◌, IfOk, OnOk};
ghost use Rattle.chi_watch_text.specs.Written.{closing_text, found_text, last_text};

use crate::granules_told::{add_ending, add_found};
use crate::options::WatchOptions;
use crate::required::Required;
use crate::summary_json::add_summary_json;
use crate::summary_lines::add_summary_lines;
use crate::watched::{FoundGranule, Watched};
use chi_answer::AnswerFormat;
use std::alloc::{AllocError, Global};

/// What is told of a granule that was found.
pub(crate) fn found_text(
    alloc: Global,
    format: AnswerFormat,
    found: &FoundGranule,
) -> Result<Vec<u8>, AllocError>
    ensures { IfOk result (λ text. text.items ≡ found_text format found.now) }
{
    let mut text = Vec::new(alloc);
    add_found(alloc, &mut text, format, found)?;
    Ok(text)
}

/// Whether all is explained, how much was told, and what is required and does not hold.
fn add_summary(
    to: &mut Vec<u8>,
    format: AnswerFormat,
    watched: &Watched,
    missing: &Required,
) -> Result<(), AllocError>
    ensures { OnOk result (to.new.items ≡ to.old.items ++ last_text format watched.now missing.now) }
{
    match format {
        AnswerFormat::Text => add_summary_lines(to, watched, missing),
        AnswerFormat::Json => add_summary_json(to, watched, missing),
    }
}

/// What is said once all is watched, after the granules that were told when they were found: what is found at the end, whether all is
/// explained, how much was told, and what is required and does not hold. `options` are those by which it was watched.
///
/// ```
/// let watched = watch_lines(alloc, &mut reader, &mut out, &options, &mut NoProgress)?;
/// out.write_all(&closing_text(alloc, &watched, &options)?)?; // explained
/// ```
pub fn closing_text(
    alloc: Global,
    watched: &Watched,
    options: &WatchOptions,
) -> Result<Vec<u8>, AllocError>
    ensures { IfOk result (λ text. text.items ≡ closing_text options.now watched.now) }
{
    let missing = options.required.missing(watched);
    let mut text = Vec::new(alloc);
    add_ending(
        alloc,
        &mut text,
        options.answer,
        &watched.found,
        &watched.ending,
        options.budget,
    )?;
    add_summary(&mut text, options.answer, watched, &missing)?;
    Ok(text)
}
