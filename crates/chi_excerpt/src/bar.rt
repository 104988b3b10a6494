//! The bar of an operation on a line of time.

ghost use Rattle.std.specs.Prelude.{◌≡◌, ◌≤◌, ◌++◌, OnOk, replicate};
ghost use Rattle.chi_excerpt.specs.Bar.{bar_text, column};

use chi_text::{Part, add_parts};
use std::alloc::AllocError;

/// The last column of a line of time, counted from 0.
const LAST: usize = 39;

/// The column of a time on a line from one time to another. A time that is not on the line stands at its nearer end.
fn column(from: u64, to: u64, time: u64) -> usize
    ensures value { result ≡ column from to time }
    ensures on_line { result ≤ 39 }
{
    if to <= from {
        return 0;
    }
    let passed = time.max(from).min(to) - from;
    let column = u128::from(passed) * 39 / u128::from(to - from);
    column as usize
}

/// A sign so many times.
pub(crate) fn add_repeated(to: &mut Vec<u8>, sign: u8, count: usize) -> Result<(), AllocError>
    ensures { OnOk result (to.new.items ≡ to.old.items ++ replicate count sign) }
{
    for _ in 0..count {
        to.push(sign)?;
    }
    Ok(())
}

/// The bar of an operation, of this sign, on a line from one time to another.
#[tactic(auto, unfolding(crate::specs::Bar::bar_text))]
pub(crate) fn add_bar(
    to: &mut Vec<u8>,
    sign: u8,
    line: (u64, u64),
    start: u64,
    end: u64,
) -> Result<(), AllocError>
    ensures { OnOk result (to.new.items ≡ to.old.items ++ bar_text sign line.0 line.1 start end) }
{
    let first = column(line.0, line.1, start);
    let last = column(line.0, line.1, end);
    add_parts(to, &[Part::Text("|")])?;
    add_repeated(to, b' ', first)?;
    add_repeated(to, sign, (last + 1).saturating_sub(first))?;
    add_repeated(to, b' ', LAST - last)?;
    add_parts(to, &[Part::Text("|")])
}
