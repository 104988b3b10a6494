//! What is seen at once of states, before any search from them: that they are dead, or that none is left.

ghost use Rattle.std.specs.Prelude.{◌≡◌, ◌≤◌, [], IfOk, IfSome, IsTrue, OnOk, length};
ghost use Rattle.chi_trace.specs.Granules.{Finishes};
ghost use Rattle.chi_search.specs.Problems.{IsProblem};
ghost use Rattle.chi_search.specs.Paths.{AllDead, AreEarliest, IsDead};
ghost use Rattle.chi_search.specs.Positions.{Position, is_left, position_of};
ghost use Rattle.chi_search.specs.StateSets.{Has};

use crate::earliest::EarliestStarts;
use crate::effect::effects_of;
use crate::makers::lacks_maker;
use crate::problem::Problem;
use crate::state::{State, first_state};
use crate::states::{States, add, count, has, read};
use chi_trace::Operation;
use std::alloc::{AllocError, Global};

/// Where no more operations than these lie between the first and the last that can come next, the plain search is the first.
const FEW_NEXT: usize = 28;

/// How many operations are looked at for makers before the search.
const LOOKED_AT: usize = 1000;

// How many operations have ended. Those that were still open stand after them.
fn ended_count(ops: &[Operation]) -> usize
    ensures { result ≤ length ops.now }
{
    let mut count = ops.len();
    while count > 0 && ops[count - 1].end == u64::MAX {
        count -= 1;
    }
    count
}

// How many operations at most lie between the first that is left and the last that can come next, it among them. Each that was
// still open counts as one more.
fn most_next(ops: &[Operation], earliest: &EarliestStarts) -> usize
    requires earliest { AreEarliest ops.now earliest.now }
{
    let ended = ended_count(ops);
    let mut most: usize = 0;
    let mut past: usize = 0;
    for place in 0..ended {
        let mut last = earliest.next(ops, past, ops[place].end);
        while last < ended {
            past = last + 1;
            last = earliest.next(ops, past, ops[place].end);
        }
        most = most.max(past.saturating_sub(place));
    }
    most.saturating_add(ops.len() - ended)
}

/// Whether many operations can come next at once.
pub(crate) fn are_hot(ops: &[Operation], earliest: &EarliestStarts) -> bool
    requires earliest { AreEarliest ops.now earliest.now }
{
    most_next(ops, earliest) > FEW_NEXT
}

// Whether all operations are settled at the state, and its word is the last one, where that was observed.
fn is_ended(ops: &[Operation], final_word: Option<u64>, state: &State) -> bool
    ensures none { IsTrue result → length ops.now ≤ state.now.first }
    ensures word { IsTrue result → IfSome final_word (λ seen. state.now.word ≡ seen) }
{
    match final_word {
        Some(seen) => state.first >= ops.len() && state.word == seen,
        None => state.first >= ops.len(),
    }
}

/// Whether all operations are settled at one of the states, and its word is the last one, where that was observed. Then nothing
/// is left to search.
pub(crate) fn has_ended(
    alloc: Global,
    ops: &[Operation],
    final_word: Option<u64>,
    from: &States,
) -> Result<bool, AllocError>
    ensures { IfOk result (λ is. IsTrue is → (p : Position) × Has from.now p × Finishes ops.now (is_left (length ops.now) p) p.word final_word []) }
{
    let mut state = first_state(alloc, 0);
    for place in 0..count(from) {
        read(from, place, &mut state)?;
        if is_ended(ops, final_word, &state) {
            return Ok(true);
        }
    }
    Ok(false)
}

// Whether the state is seen at once to be dead, where a run is followed back over `depth` operations beyond the last one.
fn is_hopeless(problem: &Problem, state: &State, depth: usize) -> bool
    requires { IsProblem problem.now }
    ensures { IsTrue result → IsDead problem.now.ops.now problem.now.final_word (position_of state.now) }
{
    // That the word is one of 64 bits is known here once it is read.
    let _word = state.word;
    lacks_maker(
        problem,
        state,
        u64::MAX,
        u64::MAX,
        u64::MAX,
        LOOKED_AT,
        depth,
    )
}

/// Whether each state of the set is dead, as far as that is seen at once: an operation finds what no other can leave, or the end
/// has it. A run is followed back over `depth` operations beyond the last one. Those that are seen to be dead are added to the dead
/// ones.
pub(crate) fn are_hopeless(
    alloc: Global,
    problem: &Problem,
    from: &States,
    depth: usize,
    dead: &mut States,
) -> Result<bool, AllocError>
    requires problem { IsProblem problem.now }
    requires dead { AllDead problem.now.ops.now problem.now.final_word dead.now }
    ensures all { IfOk result (λ are. IsTrue are → AllDead problem.now.ops.now problem.now.final_word from.now) }
    ensures dead { OnOk result (AllDead problem.now.ops.now problem.now.final_word dead.new) }
{
    let effects = effects_of(alloc, problem.ops)?;
    let problem = Problem {
        effects: &effects,
        ..*problem
    };
    let mut state = first_state(alloc, 0);
    let mut are = true;
    for place in 0..count(from) {
        read(from, place, &mut state)?;
        if has(dead, &state) {
            continue;
        }
        if is_hopeless(&problem, &state, depth) {
            add(alloc, dead, &state)?;
        } else {
            are = false;
        }
    }
    Ok(are)
}
