//! Operations that keep the bits of a mask, and find those that are there: they are settled before all others.

ghost use Rattle.std.specs.Prelude.{◌≡◌, ◌<◌, ◌≤◌, IfSome, IsTrue, OnOk, length, true};
ghost use Rattle.chi_trace.specs.declared.operation.Operation.{Operation};
ghost use Rattle.chi_trace.specs.Explains.{at};
ghost use Rattle.chi_search.specs.Effects.{AreEffects, HasEffect};
ghost use Rattle.chi_search.specs.Problems.{IsProblem};
ghost use Rattle.chi_search.specs.Moves.{IsIdle};
ghost use Rattle.chi_search.specs.Positions;
ghost use Rattle.chi_search.specs.Positions.{IsReady, position_of};
ghost use Rattle.chi_search.specs.Within.{GoesOnWithin, KeepsWithin};

use crate::effect::Effect;
use crate::problem::Problem;
use crate::state::{State, is_left, settle};
use chi_trace::Operation;
use std::alloc::AllocError;
use std::mem;

// Whether the operation keeps the bits of the mask, and finds those of the word there.
fn is_kept(effect: &Effect, mask: u64, word: u64) -> bool
    ensures { IsTrue result → (op : Operation) → HasEffect op effect.now → KeepsWithin mask op }
{
    effect.changed_mask & mask == 0 && (effect.found ^ word) & (effect.found_mask & mask) == 0
}

/// Whether the operation at a place is known to change nothing, and finds the word as it is. `effects` has what is known of each
/// operation, or is empty.
pub(crate) fn keeps_word(ops: &[Operation], effects: &[Effect], place: usize, word: u64) -> bool
    requires effects { AreEffects ops.now effects.now }
    requires place { place < length ops.now }
    ensures { IsTrue result → IsIdle (at ops.now place) }
{
    // What is true of each access is known here once it is read.
    let _addr = ops[place].access.addr();
    place < effects.len() && is_kept(&effects[place], u64::MAX, word)
}

// The place of an operation that keeps the bits of the mask and can come next, if there is one.
fn kept_next(problem: &Problem, mask: u64, state: &State) -> Option<usize>
    requires problem { IsProblem problem.now }
    requires each { length problem.now.ops.now ≤ length problem.now.effects.now }
    ensures left { IfSome result (λ place. Positions.is_left (length problem.now.ops.now) (position_of state.now) place ≡ true) }
    ensures keeps { IfSome result (λ place. KeepsWithin mask (at problem.now.ops.now place)) }
{
    let ops = problem.ops;
    if state.first >= ops.len() {
        return None;
    }
    let end = ops[state.first].end;
    let mut place = problem.earliest.next(ops, state.first, end);
    while place < ops.len() {
        if is_kept(&problem.effects[place], mask, state.word) && is_left(state, ops.len(), place) {
            return Some(place);
        }
        place = problem.earliest.next(ops, place + 1, end);
    }
    None
}

/// Settles all such operations that can come, one after the other. `spare` is written over.
pub(crate) fn absorb(
    problem: &Problem,
    mask: u64,
    state: &mut State,
    spare: &mut State,
) -> Result<(), AllocError>
    requires problem { IsProblem problem.now }
    requires each { length problem.now.ops.now ≤ length problem.now.effects.now }
    requires ready { IsReady (length problem.now.ops.now) (position_of state.now) }
    ensures ready { OnOk result (IsReady (length problem.now.ops.now) (position_of state.new)) }
    ensures goes_on { OnOk result (GoesOnWithin mask problem.now.ops.now (position_of state.old) (position_of state.new)) }
{
    for _ in 0..problem.ops.len() {
        match kept_next(problem, mask, state) {
            Some(place) => {
                settle(state, problem.ops.len(), place, state.word, spare)?;
                mem::swap(state, spare);
            }
            None => return Ok(()),
        }
    }
    Ok(())
}
