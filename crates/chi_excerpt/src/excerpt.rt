//! The last operations of a granule where they stop being explained, as lines.

ghost use Rattle.std.specs.Prelude.{◌≡◌, ◌++◌, ◌∷◌, false, IfOk, OnOk, flat_map};
ghost use Rattle.chi_excerpt.specs.Excerpts.{all_rows, blamed_text, ended_after, excerpt_text, legal_line, line_of_time, number_text, order_line, suspects_line};
ghost use Rattle.chi_excerpt.specs.Texts.{row_text};

use crate::columns::{Widths, first_start, widths_of};
use crate::impossible::add_impossible;
use crate::line::add_row;
use crate::operand::add_returned;
use crate::wrong_bytes::{add_wrong, wrong_bytes};
use chi_judge::Stop;
use chi_lanes::Reply;
use chi_text::{Part, add_parts};
use chi_trace::Operation;
use std::alloc::{AllocError, Global};

/// Those that ended after a time.
fn ended_after(alloc: Global, ops: &[Operation], time: u64) -> Result<Vec<Operation>, AllocError>
    ensures { IfOk result (λ after. after.items ≡ ended_after time ops.now) }
{
    ops.iter()
        .copied()
        .filter(|op| time < op.end)
        .collect(alloc)
}

/// All rows: of those that ended before, of the one that is blamed, and of those that were still open.
fn all_rows(
    alloc: Global,
    stop: &Stop,
    still_open: &[Operation],
) -> Result<Vec<Operation>, AllocError>
    ensures { IfOk result (λ rows. rows.items ≡ all_rows stop.now still_open.now) }
{
    let mut rows = Vec::from_slice(alloc, &stop.before)?;
    rows.push(stop.op)?;
    rows.extend_from_slice(still_open)?;
    Ok(rows)
}

/// The lines of rows that are not blamed.
fn add_rows(
    to: &mut Vec<u8>,
    label: &str,
    line: (u64, u64),
    widths: Widths,
    rows: &[Operation],
) -> Result<(), AllocError>
    ensures { OnOk result (to.new.items ≡ to.old.items ++ flat_map (row_text label.now false line.0 line.1 widths) rows.now) }
{
    for row in rows {
        add_row(to, label, false, line, widths, row)?;
    }
    Ok(())
}

/// A reply that would have been legal.
#[tactic(auto, unfolding(crate::specs::Excerpts::legal_line))]
fn add_legal(to: &mut Vec<u8>, row: &Operation, reply: Reply) -> Result<(), AllocError>
    ensures { OnOk result (to.new.items ≡ to.old.items ++ legal_line row.now reply) }
{
    add_parts(to, &[Part::Text("    legal would be:")])?;
    add_returned(to, &row.access, Some(reply))?;
    add_parts(to, &[Part::Text("\n")])
}

/// The replies that would have been legal.
fn add_each_legal(to: &mut Vec<u8>, row: &Operation, legal: &[Reply]) -> Result<(), AllocError>
    ensures { OnOk result (to.new.items ≡ to.old.items ++ flat_map (legal_line row.now) legal.now) }
{
    for reply in legal {
        add_legal(to, row, *reply)?;
    }
    Ok(())
}

/// The lines of the operation that is blamed.
#[tactic(auto, unfolding(crate::specs::Excerpts::blamed_text))]
fn add_blamed(
    alloc: Global,
    to: &mut Vec<u8>,
    label: &str,
    line: (u64, u64),
    widths: Widths,
    stop: &Stop,
) -> Result<(), AllocError>
    ensures { OnOk result (to.new.items ≡ to.old.items ++ blamed_text label.now line.0 line.1 widths stop.now) }
{
    add_row(to, label, true, line, widths, &stop.op)?;
    add_impossible(to, &stop.op)?;
    add_each_legal(to, &stop.op, &stop.legal)?;
    add_wrong(to, &wrong_bytes(alloc, &stop.op, &stop.legal)?)
}

/// The line of time that the rows stand on.
#[tactic(auto, unfolding(crate::specs::Excerpts::line_of_time))]
fn add_line_of_time(to: &mut Vec<u8>, line: (u64, u64)) -> Result<(), AllocError>
    ensures { OnOk result (to.new.items ≡ to.old.items ++ line_of_time line.0 line.1) }
{
    add_parts(
        to,
        &[
            Part::Text("  the last operations of the granule, from time "),
            Part::Number(line.0),
            Part::Text(" to "),
            Part::Number(line.1),
            Part::Text(":\n"),
        ],
    )
}

/// The numbers of the operations' requests.
fn add_numbers(to: &mut Vec<u8>, ops: &[Operation]) -> Result<(), AllocError>
    ensures { OnOk result (to.new.items ≡ to.old.items ++ flat_map number_text ops.now) }
{
    for op in ops {
        add_parts(to, &[Part::Text(" "), Part::Number(op.number)])?;
    }
    Ok(())
}

/// The line of the operations that may be the ones whose answer is wrong, where there is more than one.
#[tactic(auto, unfolding(crate::specs::Excerpts::suspects_line))]
fn add_suspects(
    to: &mut Vec<u8>,
    label: &'static str,
    suspects: &[Operation],
) -> Result<(), AllocError>
    ensures { OnOk result (to.new.items ≡ to.old.items ++ suspects_line label.now suspects.now) }
{
    if suspects.len() <= 1 {
        return Ok(());
    }
    add_parts(
        to,
        &[
            Part::Text("  any one of these answers may be the wrong one: "),
            Part::Text(label),
            Part::Text("s"),
        ],
    )?;
    add_numbers(to, suspects)?;
    add_parts(to, &[Part::Text("\n")])
}

/// Adds the lines of the operations around where a granule's stop being explained. `label` is what the parts of the input are
/// called, which the rows are counted by.
///
/// ```
/// add_excerpt(alloc, &mut text, "request", &stop)?;
/// ```
#[tactic(auto, unfolding(crate::specs::Excerpts::excerpt_text))]
pub fn add_excerpt(
    alloc: Global,
    to: &mut Vec<u8>,
    label: &'static str,
    stop: &Stop,
) -> Result<(), AllocError>
    ensures { OnOk result (to.new.items ≡ to.old.items ++ excerpt_text label.now stop.now) }
{
    let still_open = ended_after(alloc, &stop.overlapping, stop.time)?;
    let rows = all_rows(alloc, stop, &still_open)?;
    let widths = widths_of(&rows);
    let line = (first_start(stop.time, &rows), stop.time);
    add_line_of_time(to, line)?;
    add_rows(to, label, line, widths, &stop.before)?;
    add_blamed(alloc, to, label, line, widths, stop)?;
    add_rows(to, label, line, widths, &still_open)?;
    add_suspects(to, label, &stop.suspects)
}

/// Adds the line of the last operations of an order that explains a granule's up to the time before this one, where there are some.
/// `words` stand before their numbers and say which of the order these are.
///
/// ```
/// add_order(&mut text, " in this order: requests", 40, &stop.order)?; //   up to 39 in this order: requests 1 3
/// ```
#[tactic(auto, unfolding(crate::specs::Excerpts::order_line))]
pub fn add_order(
    to: &mut Vec<u8>,
    words: &'static str,
    time: u64,
    ops: &[Operation],
) -> Result<(), AllocError>
    ensures { OnOk result (to.new.items ≡ to.old.items ++ order_line words.now time ops.now) }
{
    if ops.len() == 0 {
        return Ok(());
    }
    add_parts(
        to,
        &[
            Part::Text("  up to "),
            Part::Number(time.saturating_sub(1)),
            Part::Text(words),
        ],
    )?;
    add_numbers(to, ops)?;
    add_parts(to, &[Part::Text("\n")])
}
