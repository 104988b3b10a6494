//! Texts in columns.

ghost use Rattle.std.specs.Prelude.{◌≡◌, ◌≤◌, ◌++◌, OnOk, decimal, length};
ghost use Rattle.chi_excerpt.specs.Columns.{left_text, number_text, until_text};
ghost use Rattle.chi_excerpt.specs.Rows.{first_start, widths_of};

use crate::bar::add_repeated;
use chi_fields::op_name;
use chi_text::{Part, add_parts};
use chi_trace::Operation;
use itoa::Buffer;
use std::alloc::AllocError;

/// How wide the columns of an excerpt are, in letters.
#[derive(Clone, Copy, Debug)]
pub(crate) struct Widths {
    pub(crate) number: usize,
    pub(crate) start: usize,
    pub(crate) until: usize,
    pub(crate) name: usize,
}

/// How many digits a number has.
fn digits(number: u64) -> usize
    ensures length { result ≡ length (decimal number) }
    ensures few { result ≤ 20 }
{
    Buffer::new().format(number).len()
}

/// How many letters the text has of until when an operation lasted.
fn until_length(end: u64) -> usize
    ensures { result ≡ length (until_text end) }
{
    if end == u64::MAX { 2 } else { 3 + digits(end) }
}

/// How wide the columns of these rows are.
pub(crate) fn widths_of(rows: &[Operation]) -> Widths
    ensures { result ≡ widths_of rows.now }
{
    Widths {
        number: rows
            .iter()
            .fold(0, |most, row| most.max(digits(row.number))),
        start: rows.iter().fold(0, |most, row| most.max(digits(row.start))),
        until: rows
            .iter()
            .fold(0, |most, row| most.max(until_length(row.end))),
        name: rows
            .iter()
            .fold(0, |most, row| most.max(op_name(row.opcode()).len())),
    }
}

/// When the first of these rows started, if that is before a time.
pub(crate) fn first_start(time: u64, rows: &[Operation]) -> u64
    ensures { result ≡ first_start time rows.now }
{
    rows.iter().fold(time, |least, row| least.min(row.start))
}

/// A number in a column of this width, at its right.
pub(crate) fn add_number(to: &mut Vec<u8>, number: u64, width: usize) -> Result<(), AllocError>
    ensures { OnOk result (to.new.items ≡ to.old.items ++ number_text number width) }
{
    add_repeated(to, b' ', width.saturating_sub(digits(number)))?;
    add_parts(to, &[Part::Number(number)])
}

/// A text in a column of this width, at its left.
pub(crate) fn add_left(to: &mut Vec<u8>, text: &str, width: usize) -> Result<(), AllocError>
    ensures { OnOk result (to.new.items ≡ to.old.items ++ left_text text.now width) }
{
    to.extend_from_slice(text.as_bytes())?;
    add_repeated(to, b' ', width.saturating_sub(text.len()))
}

/// Until when an operation lasted.
fn add_end(to: &mut Vec<u8>, end: u64) -> Result<(), AllocError>
    ensures { OnOk result (to.new.items ≡ to.old.items ++ until_text end) }
{
    if end == u64::MAX {
        add_parts(to, &[Part::Text("on")])
    } else {
        add_parts(to, &[Part::Text("to "), Part::Number(end)])
    }
}

/// The same in a column of this width, at its left.
pub(crate) fn add_until(to: &mut Vec<u8>, end: u64, width: usize) -> Result<(), AllocError>
    ensures { OnOk result (to.new.items ≡ to.old.items ++ left_text (until_text end) width) }
{
    add_end(to, end)?;
    add_repeated(to, b' ', width.saturating_sub(until_length(end)))
}
