//! The search over states, depth first, with the states that it found dead.

ghost use Rattle.std.specs.Prelude.{◌≡◌, ◌-◌, ◌≤◌, All, IfOk, IfSome, OnOk, length};
ghost use Rattle.chi_trace.specs.Granules.{Finishes};
ghost use Rattle.chi_search.specs.Found.{IfNothing, IfOrder, IfUndecided};
ghost use Rattle.chi_search.specs.Problems.{IsProblem};
ghost use Rattle.chi_search.specs.Looks.{LookedMore};
ghost use Rattle.chi_search.specs.Choices.{IfDead, IfEnded, IfStep, IfTried};
ghost use Rattle.chi_search.specs.Parts.{IsPartOf};
ghost use Rattle.chi_search.specs.Paths.{AllDead, AreTried, IsDead, Moves};
ghost use Rattle.chi_search.specs.Positions.{IsReady, is_left, position_of};

use crate::choice::{Choice, choose};
use crate::order::Found;
use crate::part::WordPart;
use crate::parts::has_dead_part;
use crate::path::{Step, taken};
use crate::problem::Problem;
use crate::progress::Progress;
use crate::state::{State, first_state};
use crate::states::{States, add};
use crate::wide::copy_of;
use std::alloc::{AllocError, Global};

// What can be done at a state, as `choose` says it. A state that is new is asked of the parts of its word first, where there are
// some.
fn decide<P: Progress>(
    alloc: Global,
    problem: &Problem,
    dead: &States,
    parts: &mut [WordPart],
    state: &State,
    tried: usize,
    is_new: bool,
    by_width: bool,
    next: &mut State,
    budget: &mut u64,
    progress: &mut P,
) -> Result<Choice, AllocError>
    requires problem { IsProblem problem.now }
    requires ready { IsReady (length problem.now.ops.now) (position_of state.now) }
    requires tried { AreTried problem.now.ops.now problem.now.final_word (position_of state.now) tried }
    requires parts { All (IsPartOf problem.now.ops.now problem.now.final_word) parts.now }
    ensures ended { IfOk result (λ choice. IfEnded choice ((length problem.now.ops.now ≤ state.now.first) × IfSome problem.now.final_word (λ seen. state.now.word ≡ seen))) }
    ensures moves { IfOk result (λ choice. IfStep choice (λ op. Moves problem.now.ops.now (position_of state.now) op (position_of next.new))) }
    ensures ready { IfOk result (λ choice. IfStep choice (λ op. IsReady (length problem.now.ops.now) (position_of next.new))) }
    ensures tried { IfOk result (λ choice. IfTried choice (λ place. AllDead problem.now.ops.now problem.now.final_word dead.now → AreTried problem.now.ops.now problem.now.final_word (position_of state.now) place)) }
    ensures dead { IfOk result (λ choice. IfDead choice (AllDead problem.now.ops.now problem.now.final_word dead.now → IsDead problem.now.ops.now problem.now.final_word (position_of state.now))) }
    ensures parts { OnOk result (All (IsPartOf problem.now.ops.now problem.now.final_word) parts.new) }
    ensures spends { IfOk result (λ choice. (budget.new ≤ budget.old) × LookedMore P.looked progress.old progress.new (budget.old - budget.new)) }
{
    if is_new
        && problem.effects.len() >= problem.ops.len()
        && has_dead_part(alloc, problem, parts, state, budget, progress)?
    {
        return Ok(Choice::Dead);
    }
    choose(problem, dead, state, tried, by_width, next)
}

/// Searches as `order_of` does, from a state on. Where nothing is known of the operations it goes without the rules that take time
/// at each state. `parts` are those of the word that are asked, or none. `dead` has states that are dead, and those that are found
/// so are added. After each `span` states it begins again, and tries what changes fewer bits first every other time.
pub(crate) fn search<P: Progress>(
    alloc: Global,
    problem: &Problem,
    parts: &mut [WordPart],
    from: &State,
    dead: &mut States,
    span: u64,
    budget: &mut u64,
    progress: &mut P,
) -> Result<Found, AllocError>
    requires problem { IsProblem problem.now }
    requires ready { IsReady (length problem.now.ops.now) (position_of from.now) }
    requires parts { All (IsPartOf problem.now.ops.now problem.now.final_word) parts.now }
    requires dead { AllDead problem.now.ops.now problem.now.final_word dead.now }
    ensures order { IfOk result (λ found. IfOrder found (λ order. Finishes problem.now.ops.now (is_left (length problem.now.ops.now) (position_of from.now)) from.now.word problem.now.final_word order)) }
    ensures nothing { IfOk result (λ found. IfNothing found (IsDead problem.now.ops.now problem.now.final_word (position_of from.now))) }
    ensures parts { OnOk result (All (IsPartOf problem.now.ops.now problem.now.final_word) parts.new) }
    ensures dead { OnOk result (AllDead problem.now.ops.now problem.now.final_word dead.new) }
    ensures undecided { IfOk result (λ found. IfUndecided found (budget.new ≡ 0)) }
    ensures spends { IfOk result (λ found. (budget.new ≤ budget.old) × LookedMore P.looked progress.old progress.new (budget.old - budget.new)) }
{
    let mut path: Vec<Step> = Vec::new(alloc);
    let mut state = copy_of(alloc, from)?;
    let mut next = first_state(alloc, from.word);
    let mut tried = state.first;
    let mut is_new = true;
    let mut by_width = false;
    let mut due = budget.saturating_sub(span);
    while *budget > 0 {
        match decide(
            alloc, problem, dead, parts, &state, tried, is_new, by_width, &mut next, budget,
            progress,
        )? {
            Choice::Ended => {
                let order = taken(alloc, &path)?;
                return Ok(Found::Order(order));
            }
            Choice::Step {
                op,
                tried: place,
                is_only,
            } => {
                if *budget == 0 {
                    return Ok(Found::Undecided);
                }
                *budget -= progress.look(*budget);
                if *budget <= due {
                    path = Vec::new(alloc);
                    state = copy_of(alloc, from)?;
                    tried = state.first;
                    is_new = true;
                    by_width = !by_width;
                    due = budget.saturating_sub(span);
                    continue;
                }
                path.push(Step {
                    from: state,
                    op,
                    tried: place,
                })?;
                state = next;
                tried = state.first;
                is_new = !is_only;
                next = first_state(alloc, from.word);
            }
            Choice::Dead => {
                add(alloc, dead, &state)?;
                is_new = false;
                match path.pop() {
                    Some(step) => {
                        state = step.from;
                        tried = step.tried;
                    }
                    None => return Ok(Found::Nothing),
                }
            }
        }
    }
    Ok(Found::Undecided)
}
