//! The search in a run of bytes of a granule: whether the operations that are left have an order there.

ghost use Rattle.std.specs.Prelude.{◌≡◌, ℕ, ◌+◌, ◌-◌, ◌<◌, ◌≤◌, IfOk, IsTrue, List, None, OnOk, Option, false, length};
ghost use Rattle.chi_trace.specs.Explains.{at};
ghost use Rattle.chi_search.specs.Choices.{IfDead, IfStep, IfTried};
ghost use Rattle.chi_search.specs.Problems.{IsProblem};
ghost use Rattle.chi_search.specs.Looks.{LookedMore};
ghost use Rattle.chi_search.specs.Outcomes.{HasBits};
ghost use Rattle.chi_search.specs.Parts.{IsPartOf};
ghost use Rattle.chi_search.specs.Positions;
ghost use Rattle.chi_search.specs.Positions.{IsReady, position_of};
ghost use Rattle.chi_trace.specs.declared.operation.Operation.{Operation};
ghost use Rattle.chi_search.specs.Within.{AllDeadWithin, AreTriedWithin, ByDroppingWithin, GoesOnBy, IsDeadWithin, IsRun};

use crate::absorbing::absorb;
use crate::choice::Choice;
use crate::makers::{FOLLOWED, lacks_maker};
use crate::outcomes::{Outcomes, outcomes_of};
use crate::path::Step;
use crate::problem::Problem;
use crate::progress::Progress;
use crate::state::{State, first_state, is_left, settle};
use crate::states::{States, add, has, no_states};
use crate::wide::copy_of;
use chi_lanes::lane_mask;
use std::alloc::{AllocError, Global};

/// How many operations are looked at for makers at a state.
const LOOKED_AT: usize = 64;

/// A run of bytes of the word, by its mask, and states of the search there: those from which no order goes on, and those from
/// which one does.
#[derive(Drop)]
pub(crate) struct WordPart {
    pub mask: u64,
    pub dead: States,
    pub alive: States,
}

/// So many bytes from this one on, of which no state is known.
pub(crate) fn part_from(alloc: Global, byte: usize, len: usize) -> WordPart
    requires some { 1 ≤ len }
    requires room { byte + len ≤ 8 }
    ensures { (ops : List Operation) → (final_word : Option ℕ) → IsPartOf ops final_word result }
{
    WordPart {
        mask: lane_mask(byte, len),
        dead: no_states(alloc),
        alive: no_states(alloc),
    }
}

// Makes `next` the state after an operation was settled and left this word, where there is one, and after those that are settled
// before all others; and says whether it is not known that no order goes on from there.
fn leads_by(
    problem: &Problem,
    part: &WordPart,
    state: &State,
    place: usize,
    word: Option<u64>,
    next: &mut State,
    spare: &mut State,
) -> Result<bool, AllocError>
    requires problem { IsProblem problem.now }
    requires each { length problem.now.ops.now ≤ length problem.now.effects.now }
    requires ready { IsReady (length problem.now.ops.now) (position_of state.now) }
    requires left { IsTrue (Positions.is_left (length problem.now.ops.now) (position_of state.now) place) }
    ensures ready { IfOk result (λ is. IsTrue is → IsReady (length problem.now.ops.now) (position_of next.new)) }
    ensures dead { IfOk result (λ is. is ≡ false → (final_word : Option ℕ) → AllDeadWithin part.now.mask problem.now.ops.now final_word part.now.dead → (u : ℕ) → HasBits part.now.mask u word → GoesOnBy part.now.mask problem.now.ops.now final_word (position_of state.now) place u → ⊥) }
{
    let Some(word) = word else {
        return Ok(false);
    };
    settle(state, problem.ops.len(), place, word & part.mask, next)?;
    absorb(problem, part.mask, next, spare)?;
    Ok(!has(&part.dead, next))
}

// Makes `next` the state without the first operation, where its reply was not seen and it is not known to be dead.
fn leave_out_within(
    problem: &Problem,
    part: &WordPart,
    state: &State,
    next: &mut State,
    spare: &mut State,
) -> Result<bool, AllocError>
    requires problem { IsProblem problem.now }
    requires each { length problem.now.ops.now ≤ length problem.now.effects.now }
    requires ready { IsReady (length problem.now.ops.now) (position_of state.now) }
    requires first { state.now.first < length problem.now.ops.now }
    ensures ready { IfOk result (λ is. IsTrue is → IsReady (length problem.now.ops.now) (position_of next.new)) }
    ensures dead { IfOk result (λ is. is ≡ false → (final_word : Option ℕ) → AllDeadWithin part.now.mask problem.now.ops.now final_word part.now.dead → ByDroppingWithin part.now.mask problem.now.ops.now final_word (position_of state.now) → ⊥) }
{
    match problem.ops[state.first].reply {
        Some(_) => Ok(false),
        None => leads_by(
            problem,
            part,
            state,
            state.first,
            Some(state.word),
            next,
            spare,
        ),
    }
}

// What can be done at a state, as `choose` says it; it has ended too where it is known that an order goes on, or nothing can be
// known of what comes next.
fn choose_within(
    problem: &Problem,
    part: &WordPart,
    state: &State,
    tried: usize,
    next: &mut State,
    spare: &mut State,
) -> Result<Choice, AllocError>
    requires problem { IsProblem problem.now }
    requires each { length problem.now.ops.now ≤ length problem.now.effects.now }
    requires run { IsRun part.now.mask }
    requires ready { IsReady (length problem.now.ops.now) (position_of state.now) }
    requires tried { AreTriedWithin part.now.mask problem.now.ops.now problem.now.final_word (position_of state.now) tried }
    ensures ready { IfOk result (λ choice. IfStep choice (λ op. IsReady (length problem.now.ops.now) (position_of next.new))) }
    ensures tried { IfOk result (λ choice. IfTried choice (λ place. AllDeadWithin part.now.mask problem.now.ops.now problem.now.final_word part.now.dead → AreTriedWithin part.now.mask problem.now.ops.now problem.now.final_word (position_of state.now) place)) }
    ensures dead { IfOk result (λ choice. IfDead choice (AllDeadWithin part.now.mask problem.now.ops.now problem.now.final_word part.now.dead → IsDeadWithin part.now.mask problem.now.ops.now problem.now.final_word (position_of state.now))) }
{
    let ops = problem.ops;
    if has(&part.alive, state) {
        return Ok(Choice::Ended);
    }
    if state.first >= ops.len() {
        return match problem.final_word {
            Some(seen) if (seen ^ state.word) & part.mask != 0 => Ok(Choice::Dead),
            _ => Ok(Choice::Ended),
        };
    }
    let end = ops[state.first].end;
    if tried <= state.first
        && lacks_maker(
            problem,
            state,
            part.mask,
            end,
            u64::MAX,
            LOOKED_AT,
            FOLLOWED,
        )
    {
        return Ok(Choice::Dead);
    }
    let mut place = problem.earliest.next(ops, tried, end);
    while place < ops.len() {
        if is_left(state, ops.len(), place) {
            let outcomes = outcomes_of(&ops[place], &problem.effects[place], part.mask, state.word);
            let Outcomes::Problem { one, other } = outcomes else {
                return Ok(Choice::Ended);
            };
            if leads_by(problem, part, state, place, one, next, spare)?
                || leads_by(problem, part, state, place, other, next, spare)?
            {
                return Ok(Choice::Step {
                    op: Some(place),
                    tried: place,
                    is_only: false,
                });
            }
        }
        place = problem.earliest.next(ops, place + 1, end);
    }
    if leave_out_within(problem, part, state, next, spare)? {
        return Ok(Choice::Step {
            op: None,
            tried: place,
            is_only: false,
        });
    }
    Ok(Choice::Dead)
}

// Keeps a state as one from which an order goes on, where that is not known.
fn keep_alive(alloc: Global, alive: &mut States, state: &State) -> Result<(), AllocError> {
    if has(alive, state) {
        return Ok(());
    }
    add(alloc, alive, state)
}

/// Whether no order of the operations that are left goes on from a state in the bits of the part, as far as that is seen. So many
/// states may be looked at.
pub(crate) fn lacks_order<P: Progress>(
    alloc: Global,
    problem: &Problem,
    part: &mut WordPart,
    from: &State,
    budget: &mut u64,
    progress: &mut P,
) -> Result<bool, AllocError>
    requires problem { IsProblem problem.now }
    requires each { length problem.now.ops.now ≤ length problem.now.effects.now }
    requires ready { IsReady (length problem.now.ops.now) (position_of from.now) }
    requires part { IsPartOf problem.now.ops.now problem.now.final_word part.now }
    ensures dead { IfOk result (λ is. IsTrue is → IsDeadWithin part.old.mask problem.now.ops.now problem.now.final_word (position_of from.now)) }
    ensures part { OnOk result (IsPartOf problem.now.ops.now problem.now.final_word part.new) }
    ensures spends { IfOk result (λ is. (budget.new ≤ budget.old) × LookedMore P.looked progress.old progress.new (budget.old - budget.new)) }
{
    let mut state = copy_of(alloc, from)?;
    state.word &= part.mask;
    let mut next = first_state(alloc, 0);
    let mut spare = first_state(alloc, 0);
    absorb(problem, part.mask, &mut state, &mut spare)?;
    let start = copy_of(alloc, &state)?;
    if has(&part.dead, &start) {
        return Ok(true);
    }
    let mut path: Vec<Step> = Vec::new(alloc);
    let mut tried = state.first;
    while *budget > 0 {
        match choose_within(problem, part, &state, tried, &mut next, &mut spare)? {
            Choice::Ended => {
                for step in &path {
                    keep_alive(alloc, &mut part.alive, &step.from)?;
                }
                return Ok(false);
            }
            Choice::Step {
                op,
                tried: place,
                ..
            } => {
                *budget -= progress.look(*budget);
                path.push(Step {
                    from: state,
                    op,
                    tried: place,
                })?;
                state = next;
                tried = state.first;
                next = first_state(alloc, 0);
            }
            Choice::Dead => {
                add(alloc, &mut part.dead, &state)?;
                match path.pop() {
                    Some(step) => {
                        state = step.from;
                        tried = step.tried;
                    }
                    None => return Ok(has(&part.dead, &start)),
                }
            }
        }
    }
    Ok(false)
}
