//! The lines of a granule that was not decided.

ghost use Rattle.std.specs.Prelude.{◌≡◌, ◌++◌, OnOk};
ghost use Rattle.chi_answer.specs.DoubtLines.{doubt_text, explained_to_line, found_line, most_open_line};

use crate::lines::add_undecided;
use chi_text::Part::{Number, Text};
use chi_text::add_parts;
use chi_verdict::Doubt;
use std::alloc::AllocError;

/// The line of a time up to which the granule's operations are explained.
fn add_explained_to(to: &mut Vec<u8>, time: u64) -> Result<(), AllocError>
    ensures { OnOk result (to.new.items ≡ to.old.items ++ explained_to_line time) }
{
    add_parts(to, &[Text("  explained up to "), Number(time), Text("\n")])
}

/// Adds the line of a time up to which the granule's operations are explained, where one was found.
///
/// ```
/// add_found_time(&mut text, Some(30))?; //   explained up to 30
/// ```
pub fn add_found_time(to: &mut Vec<u8>, found: Option<u64>) -> Result<(), AllocError>
    ensures { OnOk result (to.new.items ≡ to.old.items ++ found_line found) }
{
    match found {
        Some(time) => add_explained_to(to, time),
        None => Ok(()),
    }
}

/// The line of how many of them were open at one time, at most.
fn add_most_open(to: &mut Vec<u8>, count: usize) -> Result<(), AllocError>
    ensures { OnOk result (to.new.items ≡ to.old.items ++ most_open_line count) }
{
    add_parts(
        to,
        &[
            Text("  operations open at most: "),
            Number(count as u64),
            Text("\n"),
        ],
    )
}

/// The lines of a granule that was not decided.
pub(crate) fn add_doubt(to: &mut Vec<u8>, doubt: &Doubt) -> Result<(), AllocError>
    ensures { OnOk result (to.new.items ≡ to.old.items ++ doubt_text doubt.now) }
{
    add_undecided(to, doubt.granule, doubt.states)?;
    add_found_time(to, doubt.explained)?;
    add_most_open(to, doubt.most_open)
}
