//! The granules that are found or not decided, in the form that is asked for.

ghost use Rattle.std.specs.Prelude.{◌≡◌, ◌++◌, OnOk, flat_map};
ghost use Rattle.chi_watch_text.specs.Texts.{at_end_lines, found_lines, undecided_lines};
ghost use Rattle.chi_watch_text.specs.Written.{at_end_text, end_text, ending_text, found_text, undecided_text};

use crate::reach_lines::add_reach;
use crate::watched::{FoundGranule, is_found};
use chi_answer::{AnswerFormat, add_cut_short, add_found_time, add_granule, add_undecided};
use chi_page::{add_doubt_json, add_found_json};
use chi_text::{Part, add_parts};
use chi_watch::{Ending, FoundAtEnd, UndecidedAtEnd};
use std::alloc::{AllocError, Global};

/// The lines of a granule that was found.
fn add_found_lines(alloc: Global, to: &mut Vec<u8>, found: &FoundGranule) -> Result<(), AllocError>
    ensures { OnOk result (to.new.items ≡ to.old.items ++ found_lines found.now) }
{
    add_granule(to, found.granule)?;
    add_reach(alloc, to, None, &found.reach)?;
    add_cut_short(to, found.cut_short)?;
    add_parts(
        to,
        &[
            Part::Text("  at line "),
            Part::Number(found.line),
            Part::Text("\n"),
        ],
    )
}

/// A granule that was found.
pub(crate) fn add_found(
    alloc: Global,
    to: &mut Vec<u8>,
    format: AnswerFormat,
    found: &FoundGranule,
) -> Result<(), AllocError>
    ensures { OnOk result (to.new.items ≡ to.old.items ++ found_text format found.now) }
{
    match format {
        AnswerFormat::Text => add_found_lines(alloc, to, found),
        AnswerFormat::Json => add_found_json(
            to,
            found.granule,
            Some(found.line),
            None,
            &found.reach,
            found.cut_short,
        ),
    }
}

/// The lines of a granule that no order explains at the end.
fn add_at_end_lines(alloc: Global, to: &mut Vec<u8>, it: &FoundAtEnd) -> Result<(), AllocError>
    ensures { OnOk result (to.new.items ≡ to.old.items ++ at_end_lines it.now) }
{
    add_granule(to, it.granule)?;
    add_reach(alloc, to, it.final_word, &it.reach)?;
    add_cut_short(to, it.cut_short)?;
    add_parts(to, &[Part::Text("  at the end\n")])
}

/// A granule that no order explains at the end.
fn add_found_at_end(
    alloc: Global,
    to: &mut Vec<u8>,
    format: AnswerFormat,
    it: &FoundAtEnd,
) -> Result<(), AllocError>
    ensures { OnOk result (to.new.items ≡ to.old.items ++ at_end_text format it.now) }
{
    match format {
        AnswerFormat::Text => add_at_end_lines(alloc, to, it),
        AnswerFormat::Json => add_found_json(
            to,
            it.granule,
            None,
            it.final_word,
            &it.reach,
            it.cut_short,
        ),
    }
}

/// The same, where it was not found before.
#[tactic(auto, unfolding(crate::specs::Written::end_text))]
fn add_at_end(
    alloc: Global,
    to: &mut Vec<u8>,
    format: AnswerFormat,
    found: &[FoundGranule],
    it: &FoundAtEnd,
) -> Result<(), AllocError>
    ensures { OnOk result (to.new.items ≡ to.old.items ++ end_text format found.now it.now) }
{
    if is_found(found, it.granule) {
        return Ok(());
    }
    add_found_at_end(alloc, to, format, it)
}

/// Granules that no order explains at the end.
fn add_all_at_end(
    alloc: Global,
    to: &mut Vec<u8>,
    format: AnswerFormat,
    found: &[FoundGranule],
    unexplained: &[FoundAtEnd],
) -> Result<(), AllocError>
    ensures { OnOk result (to.new.items ≡ to.old.items ++ flat_map (end_text format found.now) unexplained.now) }
{
    for it in unexplained {
        add_at_end(alloc, to, format, found, it)?;
    }
    Ok(())
}

/// The lines of a granule that is not decided.
fn add_undecided_lines(to: &mut Vec<u8>, it: &UndecidedAtEnd, budget: u64) -> Result<(), AllocError>
    ensures { OnOk result (to.new.items ≡ to.old.items ++ undecided_lines budget it.now) }
{
    add_undecided(to, it.granule, budget)?;
    add_found_time(to, it.explained)
}

/// A granule that is not decided.
fn add_undecided_at_end(
    to: &mut Vec<u8>,
    format: AnswerFormat,
    it: &UndecidedAtEnd,
    budget: u64,
) -> Result<(), AllocError>
    ensures { OnOk result (to.new.items ≡ to.old.items ++ undecided_text format budget it.now) }
{
    match format {
        AnswerFormat::Text => add_undecided_lines(to, it, budget),
        AnswerFormat::Json => add_doubt_json(to, it.granule, budget, it.explained),
    }
}

/// Granules that are not decided.
fn add_all_undecided(
    to: &mut Vec<u8>,
    format: AnswerFormat,
    undecided: &[UndecidedAtEnd],
    budget: u64,
) -> Result<(), AllocError>
    ensures { OnOk result (to.new.items ≡ to.old.items ++ flat_map (undecided_text format budget) undecided.now) }
{
    for it in undecided {
        add_undecided_at_end(to, format, it, budget)?;
    }
    Ok(())
}

/// What is said of granules at the end.
pub(crate) fn add_ending(
    alloc: Global,
    to: &mut Vec<u8>,
    format: AnswerFormat,
    found: &[FoundGranule],
    ending: &Option<Ending>,
    budget: u64,
) -> Result<(), AllocError>
    ensures { OnOk result (to.new.items ≡ to.old.items ++ ending_text format budget found.now ending.now) }
{
    let Some(ending) = ending else {
        return Ok(());
    };
    add_all_at_end(alloc, to, format, found, &ending.unexplained)?;
    add_all_undecided(to, format, &ending.undecided, budget)
}
