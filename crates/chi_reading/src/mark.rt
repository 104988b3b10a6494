//! Texts that begin with the mark that says that they are UTF-8.

ghost use Rattle.std.specs.Prelude.{◌≡◌, IfOk};
ghost use Rattle.std.specs.Option.{option_map};
ghost use Rattle.serde_json.specs.View.{view};
ghost use Rattle.chi_reading.specs.Mark.{line_value, text_value, without_mark};

use chi_json::json;
use serde_json::Value;
use std::alloc::{AllocError, Global};

/// What follows the mark, the bytes ef, bb and bf, where a text begins with it.
pub(crate) fn without_mark(text: &[u8]) -> &[u8]
    ensures { result.now ≡ without_mark text.now }
{
    if text.starts_with(&[0xef, 0xbb, 0xbf]) {
        &text[3..]
    } else {
        text
    }
}

/// The value of a text, or where it has none that of what follows its mark.
pub(crate) fn text_value(alloc: Global, text: &[u8]) -> Result<Option<Value>, AllocError>
    ensures { IfOk result (λ value. text_value text.now ≡ option_map (λ v. view v) value) }
{
    match json(alloc, text)? {
        Some(value) => Ok(Some(value)),
        None => json(alloc, without_mark(text)),
    }
}

/// The value of a line of JSON, by its number, which is counted from 1, or none where it is not JSON. Only the first line can begin
/// with the mark that says that a text is UTF-8.
///
/// ```
/// let value = line_value(alloc, 1, b"\xef\xbb\xbf{\"time\":70}")?; // an object
/// ```
pub fn line_value(
    alloc: Global,
    number_of_line: u64,
    line: &[u8],
) -> Result<Option<Value>, AllocError>
    ensures { IfOk result (λ value. line_value number_of_line line.now ≡ option_map (λ v. view v) value) }
{
    if number_of_line == 1 {
        text_value(alloc, line)
    } else {
        json(alloc, line)
    }
}
