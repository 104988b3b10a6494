//! The lines of what else is found of a trace that stops being explained.

ghost use Rattle.std.specs.Prelude.{◌≡◌, ◌++◌, OnOk};
ghost use Rattle.chi_answer.specs.FurtherLines.{explained_line, further_lines, legal_words, to_the_end_line};

use crate::answer::Further;
use crate::beside_line::add_beside;
use chi_text::Part::{Number, Text};
use chi_text::add_parts;
use std::alloc::AllocError;

/// How it is told whether a legal response explains the granule to its end.
fn legal_words(is_explained: bool) -> &'static str
    ensures { result.now ≡ legal_words is_explained }
{
    if is_explained {
        "  a legal response of request "
    } else {
        "  no legal response of request "
    }
}

/// The line of a request of which that was found.
fn add_legal(to: &mut Vec<u8>, number: u64, is_explained: bool) -> Result<(), AllocError>
    ensures { OnOk result (to.new.items ≡ to.old.items ++ explained_line number is_explained) }
{
    add_parts(
        to,
        &[
            Text(legal_words(is_explained)),
            Number(number),
            Text(" explains the granule to its end\n"),
        ],
    )
}

/// The same, where that was found.
fn add_to_the_end(
    to: &mut Vec<u8>,
    number: u64,
    is_explained: Option<bool>,
) -> Result<(), AllocError>
    ensures { OnOk result (to.new.items ≡ to.old.items ++ to_the_end_line number is_explained) }
{
    match is_explained {
        Some(is_explained) => add_legal(to, number, is_explained),
        None => Ok(()),
    }
}

/// Adds the lines of what else is found: whether a legal response of the request with this number explains the granule to its end, and
/// which other granules of its line of 64 bytes no order explains.
///
/// ```
/// add_further(&mut text, 1, &further)?; //   a legal response of request 1 explains the granule to its end
/// ```
pub fn add_further(to: &mut Vec<u8>, number: u64, further: &Further) -> Result<(), AllocError>
    ensures { OnOk result (to.new.items ≡ to.old.items ++ further_lines number further.now) }
{
    add_to_the_end(to, number, further.to_the_end)?;
    add_beside(to, &further.beside)
}
