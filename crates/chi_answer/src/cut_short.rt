//! The line that says that what follows a verdict was not searched for to its end.

ghost use Rattle.std.specs.Prelude.{◌≡◌, ◌++◌, OnOk};
ghost use Rattle.chi_answer.specs.CutShort.{cut_short_line, within_line};

use chi_text::Part::{Number, Text};
use chi_text::add_parts;
use std::alloc::AllocError;

/// The line of a search that ended after so many states.
fn add_within(to: &mut Vec<u8>, states: u64) -> Result<(), AllocError>
    ensures { OnOk result (to.new.items ≡ to.old.items ++ within_line states) }
{
    add_parts(
        to,
        &[
            Text("  what is not shown was not found within "),
            Number(states),
            Text(" more states\n"),
        ],
    )
}

/// Adds the line of how many states were looked at after a verdict, where what follows it was not searched for to its end.
///
/// ```
/// add_cut_short(&mut text, Some(100_000))?; //   what is not shown was not found within 100000 more states
/// ```
pub fn add_cut_short(to: &mut Vec<u8>, states: Option<u64>) -> Result<(), AllocError>
    ensures { OnOk result (to.new.items ≡ to.old.items ++ cut_short_line states) }
{
    match states {
        Some(states) => add_within(to, states),
        None => Ok(()),
    }
}
