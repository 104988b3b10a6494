//! The states that follow a state by one move.

ghost use Rattle.std.specs.Prelude.{◌≡◌, ℕ, ◌+◌, ◌<◌, ◌≤◌, ◌⊎◌, ◌↔◌, IfSome, IsTrue, List, None, ◌++◌, OnOk, Some, false, length};
ghost use Rattle.chi_trace.specs.declared.operation.Operation.{Operation};
ghost use Rattle.chi_trace.specs.Explains.{at};
ghost use Rattle.chi_search.specs.declared.states.States.{States};
ghost use Rattle.chi_search.specs.Layers.{AreReady, AreWaiting, ComeAfter, EitherEnds, MayFollow, SomeEnds, Waits};
ghost use Rattle.chi_search.specs.Moves.{Ends};
ghost use Rattle.chi_search.specs.Paths.{AreBothReached, AreReached, IsDead, IsReached};
ghost use Rattle.chi_search.specs.Positions.{IsReady, position_of};
ghost use Rattle.chi_search.specs.Problems.{IsProblem};
ghost use Rattle.chi_search.specs.StateSets.{positions};

use crate::choice::{LOOKED_AT, idle_next, leave_out, take};
use crate::equal::has_equal_before;
use crate::makers::{FOLLOWED, lacks_maker};
use crate::problem::Problem;
use crate::state::State;
use crate::states::{States, add_new};
use chi_trace::Operation;
use std::alloc::{AllocError, Global};

/// Adds each state that follows a state by one move. Where an operation that changes nothing can come next, the state after it
/// stands for all. Of equal operations only the first is taken, where something is known of the operations.
fn add_moves(
    alloc: Global,
    problem: &Problem,
    state: &State,
    next: &mut State,
    states: &mut States,
) -> Result<(), AllocError>
    requires problem { IsProblem problem.now }
    requires first { state.now.first < length problem.now.ops.now }
    requires ready { IsReady (length problem.now.ops.now) (position_of state.now) }
    ensures ends { OnOk result ((more : List Operation) → ComeAfter problem.now.ops.now (at problem.now.ops.now state.now.first).end more → (v : ℕ) → SomeEnds (problem.now.ops.now ++ more) states.new v ↔ (SomeEnds (problem.now.ops.now ++ more) states.old v ⊎ Ends (problem.now.ops.now ++ more) (Some v) (position_of state.now))) }
    ensures ready { OnOk result (AreReady problem.now.ops.now states.old → AreReady problem.now.ops.now states.new) }
    ensures reached { OnOk result ((from : States) → IsReached problem.now.ops.now from (position_of state.now) → AreReached problem.now.ops.now from states.old → AreReached problem.now.ops.now from states.new) }
{
    let (ops, earliest) = (problem.ops, problem.earliest);
    if let Some(place) = idle_next(ops, &[], earliest, state) {
        if take(ops, state, place, next)? {
            return add_new(alloc, states, next);
        }
    }
    let end = ops[state.first].end;
    let mut place = earliest.next(ops, state.first, end);
    while place < ops.len() {
        if take(ops, state, place, next)? && !has_equal_before(ops, problem.effects, state, place) {
            add_new(alloc, states, next)?;
        }
        place = earliest.next(ops, place + 1, end);
    }
    if leave_out(ops, state, next)? {
        add_new(alloc, states, next)?;
    }
    Ok(())
}

/// Whether a search waits that came to this first operation: none is left, or one that comes later might come next.
fn waits(ops: &[Operation], horizon: Option<u64>, first: usize) -> bool
    ensures waits { IsTrue result → Waits ops.now horizon first }
    ensures first { result ≡ false → first < length ops.now }
    ensures passed { result ≡ false → IfSome horizon (λ time. (at ops.now first).end < time) }
{
    if first >= ops.len() {
        return true;
    }
    match horizon {
        Some(time) => time <= ops[first].end,
        None => false,
    }
}

// Whether the state is seen to be dead: an operation must find, or the end must have, what nothing that is left can leave.
fn is_seen_dead(problem: &Problem, state: &State) -> bool
    requires problem { IsProblem problem.now }
    requires first { state.now.first < length problem.now.ops.now }
    ensures { IsTrue result → IsDead problem.now.ops.now problem.now.final_word (position_of state.now) }
{
    // That the word is one of 64 bits is known here once it is read.
    let _word = state.word;
    let end = problem.ops[state.first].end;
    lacks_maker(problem, state, u64::MAX, end, end, LOOKED_AT, FOLLOWED)
}

/// Puts a state that waits into the one set, and the states that follow another one by one move into the other set. A state that
/// is seen to be dead adds none, where no operation comes later.
pub(crate) fn put_next(
    alloc: Global,
    problem: &Problem,
    horizon: Option<u64>,
    state: &State,
    next: &mut State,
    states: &mut States,
    waiting: &mut States,
) -> Result<(), AllocError>
    requires problem { IsProblem problem.now }
    requires unseen { problem.now.final_word ≡ None }
    requires ready { IsReady (length problem.now.ops.now) (position_of state.now) }
    ensures ends { OnOk result ((more : List Operation) → MayFollow problem.now.ops.now horizon more → (v : ℕ) → EitherEnds (problem.now.ops.now ++ more) states.new waiting.new v ↔ (EitherEnds (problem.now.ops.now ++ more) states.old waiting.old v ⊎ Ends (problem.now.ops.now ++ more) (Some v) (position_of state.now))) }
    ensures ready { OnOk result (AreReady problem.now.ops.now states.old → AreReady problem.now.ops.now states.new) }
    ensures waiting { OnOk result (AreWaiting problem.now.ops.now horizon waiting.old → AreWaiting problem.now.ops.now horizon waiting.new) }
    ensures reached { OnOk result ((from : States) → IsReached problem.now.ops.now from (position_of state.now) → AreBothReached problem.now.ops.now from states.old waiting.old → AreBothReached problem.now.ops.now from states.new waiting.new) }
    ensures count { OnOk result (length (positions waiting.new) ≤ length (positions waiting.old) + 1) }
{
    if waits(problem.ops, horizon, state.first) {
        return add_new(alloc, waiting, state);
    }
    if horizon.is_none() && is_seen_dead(problem, state) {
        return Ok(());
    }
    add_moves(alloc, problem, state, next, states)
}
