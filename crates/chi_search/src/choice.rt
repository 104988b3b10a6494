//! What comes next at a state of the search.

ghost use Rattle.std.specs.Prelude.{◌≡◌, ℕ, ◌^◌, ◌<◌, ◌≤◌, IsTrue, Option, None, IfSome, IfOk, length, true, false};
ghost use Rattle.chi_trace.specs.Explains.{at};
ghost use Rattle.chi_trace.specs.Granules.{Fits};
ghost use Rattle.chi_search.specs.Choices.{IfDead, IfEnded, IfStep, IfTried};
ghost use Rattle.chi_search.specs.Effects.{AreEffects};
ghost use Rattle.chi_search.specs.Problems.{IsProblem};
ghost use Rattle.chi_search.specs.Moves.{CanCome, Drops, IsIdle, Takes};
ghost use Rattle.chi_search.specs.Paths.{AllDead, AreEarliest, AreTried, IsDead, Moves};
ghost use Rattle.chi_search.specs.Positions.{IsReady, position_of};
ghost use Rattle.chi_search.specs.Searchable.{AreWithin};

use crate::absorbing::keeps_word;
use crate::at_word::{stays, step};
use crate::commuting::commuting_next;
use crate::earliest::EarliestStarts;
use crate::effect::Effect;
use crate::equal::has_equal_before;
use crate::makers::{FOLLOWED, lacks_maker};
use crate::narrowest::narrowest_next;
use crate::problem::Problem;
use crate::state::{State, is_left, settle};
use crate::states::{States, has};
use chi_trace::Operation;
use std::alloc::AllocError;

/// How many operations are looked at for makers at a state.
pub(crate) const LOOKED_AT: usize = 64;

/// What can be done at a state: nothing, since none is left and the word is the observed one; a step, by an operation that
/// is taken, or without one where the first is left out, with the place before which all operations were tried, and whether no other
/// need be tried; or nothing, since no order goes on from here.
#[derive(Clone, Copy)]
pub(crate) enum Choice {
    Ended,
    Step {
        op: Option<usize>,
        tried: usize,
        is_only: bool,
    },
    Dead,
}

/// Makes `next` the state after an operation, where it can be taken.
pub(crate) fn take(
    ops: &[Operation],
    state: &State,
    place: usize,
    next: &mut State,
) -> Result<bool, AllocError>
    requires within { AreWithin ops.now }
    requires place { place < length ops.now }
    requires first { state.now.first < length ops.now }
    requires ready { IsReady (length ops.now) (position_of state.now) }
    ensures comes { IfOk result (λ is. IsTrue is → CanCome ops.now (position_of state.now) place) }
    ensures takes { IfOk result (λ is. IsTrue is → Takes ops.now (position_of state.now) place (position_of next.new)) }
    ensures ready { IfOk result (λ is. IsTrue is → IsReady (length ops.now) (position_of next.new)) }
    ensures finds { IfOk result (λ is. IsTrue is → state.now.word < 2 ^ 64) }
    ensures leaves { IfOk result (λ is. IsTrue is → next.new.word < 2 ^ 64) }
    ensures refused { IfOk result (λ is. is ≡ false → CanCome ops.now (position_of state.now) place → Fits (at ops.now place) state.now.word → ⊥) }
{
    let op = &ops[place];
    if !is_left(state, ops.len(), place) || op.start > ops[state.first].end {
        return Ok(false);
    }
    match step(op, state.word) {
        Some(after) => {
            settle(state, ops.len(), place, after, next)?;
            Ok(true)
        }
        None => Ok(false),
    }
}

/// The place of an operation that can come next and is seen to change nothing, if there is one. `effects` has what is known of
/// each operation, or is empty.
pub(crate) fn idle_next(
    ops: &[Operation],
    effects: &[Effect],
    earliest: &EarliestStarts,
    state: &State,
) -> Option<usize>
    requires within { AreWithin ops.now }
    requires effects { AreEffects ops.now effects.now }
    requires earliest { AreEarliest ops.now earliest.now }
    requires first { state.now.first < length ops.now }
    ensures place { IfSome result (λ place. place < length ops.now) }
    ensures idle { IfSome result (λ place. IsIdle (at ops.now place)) }
{
    let end = ops[state.first].end;
    let mut place = earliest.next(ops, state.first, end);
    while place < ops.len() {
        if is_left(state, ops.len(), place)
            && (stays(&ops[place], state.word) || keeps_word(ops, effects, place, state.word))
        {
            return Some(place);
        }
        place = earliest.next(ops, place + 1, end);
    }
    None
}

/// Makes `next` the state without the first operation, where its reply was not seen.
pub(crate) fn leave_out(
    ops: &[Operation],
    state: &State,
    next: &mut State,
) -> Result<bool, AllocError>
    requires first { state.now.first < length ops.now }
    requires ready { IsReady (length ops.now) (position_of state.now) }
    ensures drops { IfOk result (λ is. IsTrue is → Drops ops.now (position_of state.now) (position_of next.new)) }
    ensures ready { IfOk result (λ is. IsTrue is → IsReady (length ops.now) (position_of next.new)) }
    ensures answered { IfOk result (λ is. is ≡ false → (at ops.now state.now.first).reply ≡ None → ⊥) }
{
    match ops[state.first].reply {
        Some(_) => Ok(false),
        None => {
            settle(state, ops.len(), state.first, state.word, next)?;
            Ok(true)
        }
    }
}

/// What can be done at a state, from which `next` is the next one, where the operations before the place `tried` were tried.
/// `dead` is a set of states from which no order goes on. Where nothing is known of the operations only the rule is used that takes
/// what changes nothing. `by_width` says whether what changes fewer bits is tried first.
pub(crate) fn choose(
    problem: &Problem,
    dead: &States,
    state: &State,
    tried: usize,
    by_width: bool,
    next: &mut State,
) -> Result<Choice, AllocError>
    requires problem { IsProblem problem.now }
    requires ready { IsReady (length problem.now.ops.now) (position_of state.now) }
    requires tried { AreTried problem.now.ops.now problem.now.final_word (position_of state.now) tried }
    ensures ended { IfOk result (λ choice. IfEnded choice ((length problem.now.ops.now ≤ state.now.first) × IfSome problem.now.final_word (λ seen. state.now.word ≡ seen))) }
    ensures moves { IfOk result (λ choice. IfStep choice (λ op. Moves problem.now.ops.now (position_of state.now) op (position_of next.new))) }
    ensures ready { IfOk result (λ choice. IfStep choice (λ op. IsReady (length problem.now.ops.now) (position_of next.new))) }
    ensures tried { IfOk result (λ choice. IfTried choice (λ place. AllDead problem.now.ops.now problem.now.final_word dead.now → AreTried problem.now.ops.now problem.now.final_word (position_of state.now) place)) }
    ensures dead { IfOk result (λ choice. IfDead choice (AllDead problem.now.ops.now problem.now.final_word dead.now → IsDead problem.now.ops.now problem.now.final_word (position_of state.now))) }
{
    let ops = problem.ops;
    let earliest = problem.earliest;
    if state.first >= ops.len() {
        return match problem.final_word {
            Some(seen) if seen != state.word => Ok(Choice::Dead),
            _ => Ok(Choice::Ended),
        };
    }
    let with_rules = !problem.effects.is_empty();
    // That the word is one of 64 bits is known here once it is read.
    let _word = state.word;
    let end = ops[state.first].end;
    if tried <= state.first {
        if let Some(place) = idle_next(ops, problem.effects, earliest, state) {
            if take(ops, state, place, next)? {
                if has(dead, next) {
                    return Ok(Choice::Dead);
                }
                return Ok(Choice::Step {
                    op: Some(place),
                    tried,
                    is_only: true,
                });
            }
        }
        if lacks_maker(problem, state, u64::MAX, end, end, LOOKED_AT, FOLLOWED) {
            return Ok(Choice::Dead);
        }
        // Where some order goes on, one goes on by this operation.
        if let Some(place) = commuting_next(ops, earliest, state, with_rules) {
            if take(ops, state, place, next)? && !has(dead, next) {
                return Ok(Choice::Step {
                    op: Some(place),
                    tried,
                    is_only: true,
                });
            }
            return Ok(Choice::Dead);
        }
    }
    if let Some(place) = narrowest_next(problem, dead, state, by_width, next)? {
        return Ok(Choice::Step {
            op: Some(place),
            tried,
            is_only: false,
        });
    }
    let mut place = earliest.next(ops, tried, end);
    while place < ops.len() {
        if take(ops, state, place, next)?
            && !has(dead, next)
            && !has_equal_before(ops, problem.effects, state, place)
        {
            return Ok(Choice::Step {
                op: Some(place),
                tried: place,
                is_only: false,
            });
        }
        place = earliest.next(ops, place + 1, end);
    }
    if leave_out(ops, state, next)? && !has(dead, next) {
        return Ok(Choice::Step {
            op: None,
            tried: place,
            is_only: false,
        });
    }
    Ok(Choice::Dead)
}
