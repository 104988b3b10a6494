//! The lines of what is required and does not hold.

ghost use Rattle.std.specs.Prelude.{◌≡◌, ◌++◌, OnOk};
ghost use Rattle.chi_watch_text.specs.Texts.{are_text, end_line, judged_line, missing_text, operations_line, operations_text, quiet_line};

use crate::required::Required;
use crate::watched::Watched;
use chi_text::{Part, add_parts};
use std::alloc::AllocError;

/// That so many are something.
#[tactic(auto, unfolding(crate::specs::Texts::are_text))]
fn are(count: u64) -> &'static str
    ensures { result.now ≡ are_text count }
{
    if count == 1 { " is" } else { " are" }
}

/// Of so many operations.
#[tactic(auto, unfolding(crate::specs::Texts::operations_text))]
fn operations(count: u64) -> &'static str
    ensures { result.now ≡ operations_text count }
{
    if count == 1 {
        " operation"
    } else {
        " operations"
    }
}

/// That the last line does not tell the end, where it has to.
#[tactic(auto, unfolding(crate::specs::Texts::end_line))]
fn add_end(to: &mut Vec<u8>, is_missing: bool) -> Result<(), AllocError>
    ensures { OnOk result (to.new.items ≡ to.old.items ++ end_line is_missing) }
{
    if !is_missing {
        return Ok(());
    }
    add_parts(to, &[Part::Text("required: the last line tells the end\n")])
}

/// That fewer operations ended than have to, where some have to.
fn add_operations(to: &mut Vec<u8>, required: u64, ended: u64) -> Result<(), AllocError>
    ensures { OnOk result (to.new.items ≡ to.old.items ++ operations_line required ended) }
{
    if required == 0 {
        return Ok(());
    }
    add_parts(
        to,
        &[
            Part::Text("required: at least "),
            Part::Number(required),
            Part::Text(operations(required)),
            Part::Text(" ended, and "),
            Part::Number(ended),
            Part::Text(" did\n"),
        ],
    )
}

/// That so many requests are outstanding, where none may be.
fn add_quiet(to: &mut Vec<u8>, is_missing: bool, outstanding: u64) -> Result<(), AllocError>
    ensures { OnOk result (to.new.items ≡ to.old.items ++ quiet_line is_missing outstanding) }
{
    if !is_missing {
        return Ok(());
    }
    add_parts(
        to,
        &[
            Part::Text("required: no request is outstanding, and "),
            Part::Number(outstanding),
            Part::Text(are(outstanding)),
            Part::Text("\n"),
        ],
    )
}

/// That so many granules are not judged, where each has to be.
fn add_judged(to: &mut Vec<u8>, is_missing: bool, unjudged: u64) -> Result<(), AllocError>
    ensures { OnOk result (to.new.items ≡ to.old.items ++ judged_line is_missing unjudged) }
{
    if !is_missing {
        return Ok(());
    }
    add_parts(
        to,
        &[
            Part::Text("required: each granule is judged, and "),
            Part::Number(unjudged),
            Part::Text(are(unjudged)),
            Part::Text(" not\n"),
        ],
    )
}

/// What is required and does not hold.
pub(crate) fn add_missing(
    to: &mut Vec<u8>,
    missing: &Required,
    watched: &Watched,
) -> Result<(), AllocError>
    ensures { OnOk result (to.new.items ≡ to.old.items ++ missing_text missing.now watched.now) }
{
    add_end(to, missing.end)?;
    add_operations(to, missing.operations, watched.counts.ended)?;
    add_quiet(to, missing.quiet, watched.counts.outstanding as u64)?;
    add_judged(to, missing.judged, watched.unjudged)
}
