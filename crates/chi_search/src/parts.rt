//! The word of a granule in parts of one, two or four bytes, which are asked whether the search can go on.

ghost use Rattle.std.specs.Prelude.{◌-◌, ◌≤◌, All, IfOk, IsTrue, OnOk, length};
ghost use Rattle.chi_search.specs.Problems.{IsProblem};
ghost use Rattle.chi_search.specs.Looks.{LookedMore};
ghost use Rattle.chi_search.specs.Parts.{IsPartOf};
ghost use Rattle.chi_search.specs.Paths.{IsDead};
ghost use Rattle.chi_search.specs.Positions.{IsReady, position_of};

use crate::part::{WordPart, lacks_order, part_from};
use crate::problem::Problem;
use crate::progress::Progress;
use crate::state::State;
use chi_fields::Kind;
use chi_trace::Operation;
use std::alloc::{AllocError, Global};

// How many of the operations lie within so many bytes.
fn count_within(ops: &[Operation], len: usize) -> usize {
    let mut count: usize = 0;
    for op in ops {
        if op.access.len() <= len {
            count = count.saturating_add(1);
        }
    }
    count
}

/// Whether at least half of the operations are writes.
pub(crate) fn are_mostly_writes(ops: &[Operation]) -> bool {
    let mut count: usize = 0;
    for op in ops {
        if let Kind::Write = op.access.kind() {
            count = count.saturating_add(1);
        }
    }
    count >= ops.len() / 2
}

/// Adds the parts of so many bytes.
pub(crate) fn add_parts(
    alloc: Global,
    ops: &[Operation],
    final_word: Option<u64>,
    len: usize,
    parts: &mut Vec<WordPart>,
) -> Result<(), AllocError>
    requires some { 1 ≤ len }
    requires parts { All (IsPartOf ops.now final_word) parts.now.items }
    ensures { OnOk result (All (IsPartOf ops.now final_word) parts.new.items) }
{
    let mut byte: usize = 0;
    while byte < 8 && len <= 8 - byte {
        parts.push(part_from(alloc, byte, len))?;
        byte += len;
    }
    Ok(())
}

/// The parts of a word: of a byte where all but one in sixteen of the operations lie within one, else of two bytes where at least
/// a quarter lie within two, else none.
pub(crate) fn parts_of(
    alloc: Global,
    ops: &[Operation],
    final_word: Option<u64>,
) -> Result<Vec<WordPart>, AllocError>
    ensures { IfOk result (λ parts. All (IsPartOf ops.now final_word) parts.items) }
{
    let mut parts = Vec::new(alloc);
    if ops.len() - ops.len() / 16 <= count_within(ops, 1) {
        add_parts(alloc, ops, final_word, 1, &mut parts)?;
        return Ok(parts);
    }
    if count_within(ops, 2) >= ops.len() / 4 {
        add_parts(alloc, ops, final_word, 2, &mut parts)?;
    }
    Ok(parts)
}

/// Whether in one of the parts no order of what is left goes on, as far as that is seen. So many states may be looked at.
pub(crate) fn has_dead_part<P: Progress>(
    alloc: Global,
    problem: &Problem,
    parts: &mut [WordPart],
    state: &State,
    budget: &mut u64,
    progress: &mut P,
) -> Result<bool, AllocError>
    requires problem { IsProblem problem.now }
    requires each { length problem.now.ops.now ≤ length problem.now.effects.now }
    requires ready { IsReady (length problem.now.ops.now) (position_of state.now) }
    requires parts { All (IsPartOf problem.now.ops.now problem.now.final_word) parts.now }
    ensures dead { IfOk result (λ is. IsTrue is → IsDead problem.now.ops.now problem.now.final_word (position_of state.now)) }
    ensures parts { OnOk result (All (IsPartOf problem.now.ops.now problem.now.final_word) parts.new) }
    ensures spends { IfOk result (λ is. (budget.new ≤ budget.old) × LookedMore P.looked progress.old progress.new (budget.old - budget.new)) }
{
    // That the word is one of 64 bits is known here once it is read.
    let _word = state.word;
    for place in 0..parts.len() {
        if lacks_order(alloc, problem, &mut parts[place], state, budget, progress)? {
            return Ok(true);
        }
    }
    Ok(false)
}
