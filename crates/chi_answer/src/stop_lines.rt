//! The lines of where a granule's operations stop being explained.

ghost use Rattle.std.specs.Prelude.{◌≡◌, ◌++◌, OnOk, flat_map};
ghost use Rattle.chi_answer.specs.Lines.{blamed_line, count_text, explained_line, open_line, until_text};
ghost use Rattle.chi_answer.specs.Stops.{found_words, stop_text};

use crate::lines::{add_told, add_words};
use chi_judge::Stop;
use chi_search::Words;
use chi_text::Part::{Number, Text};
use chi_text::add_parts;
use chi_trace::Operation;
use std::alloc::AllocError;

/// The line of an operation that was answered at a time up to which its granule's operations cannot be explained.
fn add_blamed(to: &mut Vec<u8>, time: u64, op: &Operation) -> Result<(), AllocError>
    ensures { OnOk result (to.new.items ≡ to.old.items ++ blamed_line time op.now) }
{
    add_parts(to, &[Text("at "), Number(time), Text(": ")])?;
    add_told(to, op)
}

/// The lines of words that a granule can hold, where they were found.
fn add_found(to: &mut Vec<u8>, words: &Words) -> Result<(), AllocError>
    ensures { OnOk result (to.new.items ≡ to.old.items ++ found_words words.now) }
{
    match words {
        Words::Each(words) => add_words(to, words),
        Words::Unknown => Ok(()),
    }
}

/// Until when an operation was open.
fn add_until(to: &mut Vec<u8>, end: u64) -> Result<(), AllocError>
    ensures { OnOk result (to.new.items ≡ to.old.items ++ until_text end) }
{
    if end == u64::MAX {
        return add_parts(to, &[Text(" on: ")]);
    }
    add_parts(to, &[Text(" to "), Number(end), Text(": ")])
}

/// The line of an operation that was open, with its times.
fn add_open(to: &mut Vec<u8>, op: &Operation) -> Result<(), AllocError>
    ensures { OnOk result (to.new.items ≡ to.old.items ++ open_line op.now) }
{
    add_parts(to, &[Text("  open from "), Number(op.start)])?;
    add_until(to, op.end)?;
    add_told(to, op)
}

/// The lines of the operations that were open.
fn add_overlapping(to: &mut Vec<u8>, overlapping: &[Operation]) -> Result<(), AllocError>
    ensures { OnOk result (to.new.items ≡ to.old.items ++ flat_map open_line overlapping.now) }
{
    for op in overlapping {
        add_open(to, op)?;
    }
    Ok(())
}

/// How many operations an order has, where it is told.
fn add_count(to: &mut Vec<u8>, count: Option<usize>) -> Result<(), AllocError>
    ensures { OnOk result (to.new.items ≡ to.old.items ++ count_text count) }
{
    match count {
        Some(count) => add_parts(
            to,
            &[Text(" (operations: "), Number(count as u64), Text(")")],
        ),
        None => Ok(()),
    }
}

/// The line of the time up to which they can, where there is one.
fn add_explained(to: &mut Vec<u8>, time: u64, count: Option<usize>) -> Result<(), AllocError>
    ensures { OnOk result (to.new.items ≡ to.old.items ++ explained_line time count) }
{
    if time == 0 {
        return Ok(());
    }
    add_parts(to, &[Text("  explained up to "), Number(time - 1)])?;
    add_count(to, count)?;
    add_parts(to, &[Text("\n")])
}

/// Adds what is said of where a granule's operations stop being explained: the operation that was answered then, the words that the
/// granule can hold, the operations that were open, and up to when it is explained, by an order of so many operations where that is
/// told.
///
/// ```
/// add_stop(&mut text, &stop, None)?; // at 40: 2 1 30 AtomicLoad.ADD 3 0000000000001008 answered
/// ```
pub fn add_stop(to: &mut Vec<u8>, stop: &Stop, count: Option<usize>) -> Result<(), AllocError>
    ensures { OnOk result (to.new.items ≡ to.old.items ++ stop_text count stop.now) }
{
    add_blamed(to, stop.time, &stop.op)?;
    add_found(to, &stop.words)?;
    add_overlapping(to, &stop.overlapping)?;
    add_explained(to, stop.time, count)
}
