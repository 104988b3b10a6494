//! The line of a row.

ghost use Rattle.std.specs.Prelude.{◌≡◌, ◌++◌, OnOk};
ghost use Rattle.chi_excerpt.specs.Texts.{numbered_text, row_text, what_text, when_text, whose_text};

use crate::bar::add_bar;
use crate::columns::{Widths, add_left, add_number, add_until};
use crate::operand::{add_order, add_place, add_returned, add_sent};
use chi_fields::op_name;
use chi_text::{Part, add_parts};
use chi_trace::Operation;
use std::alloc::AllocError;

/// When an operation was under way, with a bar of this sign on a line from one time to another.
#[tactic(auto, unfolding(crate::specs::Texts::when_text))]
fn add_when(
    to: &mut Vec<u8>,
    sign: u8,
    line: (u64, u64),
    widths: Widths,
    row: &Operation,
) -> Result<(), AllocError>
    ensures { OnOk result (to.new.items ≡ to.old.items ++ when_text sign line.0 line.1 widths row.now) }
{
    add_bar(to, sign, line, row.start, row.end)?;
    add_parts(to, &[Part::Text("  ")])?;
    add_number(to, row.start, widths.start)?;
    add_parts(to, &[Part::Text(" ")])?;
    add_until(to, row.end, widths.until)
}

/// What it was: its name, its operand's place, what was sent, what came back, and the order of its bytes.
#[tactic(auto, unfolding(crate::specs::Texts::what_text))]
fn add_what(to: &mut Vec<u8>, widths: Widths, row: &Operation) -> Result<(), AllocError>
    ensures { OnOk result (to.new.items ≡ to.old.items ++ what_text widths row.now) }
{
    add_parts(to, &[Part::Text("  ")])?;
    add_left(to, op_name(row.opcode()), widths.name)?;
    add_place(to, &row.access)?;
    add_sent(to, &row.access)?;
    add_returned(to, &row.access, row.reply)?;
    add_order(to, &row.access)
}

/// Whose it was.
#[tactic(auto, unfolding(crate::specs::Texts::whose_text))]
fn add_whose(to: &mut Vec<u8>, row: &Operation) -> Result<(), AllocError>
    ensures { OnOk result (to.new.items ≡ to.old.items ++ whose_text row.now) }
{
    add_parts(
        to,
        &[
            Part::Text("  requester "),
            Part::Number(u64::from(row.src)),
            Part::Text(" txn "),
            Part::Number(u64::from(row.txn)),
            Part::Text("\n"),
        ],
    )
}

/// What a part of the input is called, and its number in a column of this width.
#[tactic(auto, unfolding(crate::specs::Texts::numbered_text))]
fn add_numbered(to: &mut Vec<u8>, label: &str, number: u64, width: usize) -> Result<(), AllocError>
    ensures { OnOk result (to.new.items ≡ to.old.items ++ numbered_text label.now number width) }
{
    to.extend_from_slice(label.as_bytes())?;
    add_parts(to, &[Part::Text(" ")])?;
    add_number(to, number, width)
}

/// The line of a row, on a line from one time to another. The one that is blamed has a mark and a sign of its own. `label` is
/// what the input's parts are called.
#[tactic(auto, unfolding(crate::specs::Texts::row_text))]
pub(crate) fn add_row(
    to: &mut Vec<u8>,
    label: &str,
    is_blamed: bool,
    line: (u64, u64),
    widths: Widths,
    row: &Operation,
) -> Result<(), AllocError>
    ensures { OnOk result (to.new.items ≡ to.old.items ++ row_text label.now is_blamed line.0 line.1 widths row.now) }
{
    let (mark, sign) = if is_blamed {
        ("  > ", b'#')
    } else {
        ("    ", b'=')
    };
    to.extend_from_slice(mark.as_bytes())?;
    add_numbered(to, label, row.number, widths.number)?;
    add_parts(to, &[Part::Text(" ")])?;
    add_when(to, sign, line, widths, row)?;
    add_what(to, widths, row)?;
    add_whose(to, row)
}
