//! The search from several states in turn, in rounds with a share of the budget each.

ghost use Rattle.std.specs.Prelude.{◌≡◌, ◌-◌, ◌<◌, ◌≤◌, All, IfOk, OnOk, length};
ghost use Rattle.chi_trace.specs.Granules.{Finishes};
ghost use Rattle.chi_search.specs.Found.{IfNothing, IfOrder, IfUndecided};
ghost use Rattle.chi_search.specs.Problems.{IsProblem};
ghost use Rattle.chi_search.specs.Layers.{AreReady};
ghost use Rattle.chi_search.specs.Looks.{LookedMore};
ghost use Rattle.chi_search.specs.Parts.{IsPartOf};
ghost use Rattle.chi_search.specs.Paths.{AllDead};
ghost use Rattle.chi_search.specs.Positions.{Position, is_left};
ghost use Rattle.chi_search.specs.StateSets.{Has};

use crate::order::Found;
use crate::part::WordPart;
use crate::problem::Problem;
use crate::progress::Progress;
use crate::searching::search;
use crate::state::first_state;
use crate::states::{States, count, has, read};
use std::alloc::{AllocError, Global};

/// How many states for each operation a search from one of several states may look at in the first round.
const FIRST_SHARE: u64 = 2;

/// How many times as many in the next round.
const MORE: u64 = 4;

// Searches from each state of a set in turn, where it is not known to be dead, within so many states each.
fn search_each<P: Progress>(
    alloc: Global,
    problem: &Problem,
    parts: &mut [WordPart],
    from: &States,
    dead: &mut States,
    span: u64,
    share: u64,
    budget: &mut u64,
    progress: &mut P,
) -> Result<Found, AllocError>
    requires problem { IsProblem problem.now }
    requires ready { AreReady problem.now.ops.now from.now }
    requires parts { All (IsPartOf problem.now.ops.now problem.now.final_word) parts.now }
    requires dead { AllDead problem.now.ops.now problem.now.final_word dead.now }
    requires share { 0 < share }
    ensures order { IfOk result (λ found. IfOrder found (λ order. (p : Position) × Has from.now p × Finishes problem.now.ops.now (is_left (length problem.now.ops.now) p) p.word problem.now.final_word order)) }
    ensures nothing { IfOk result (λ found. IfNothing found (AllDead problem.now.ops.now problem.now.final_word from.now)) }
    ensures parts { OnOk result (All (IsPartOf problem.now.ops.now problem.now.final_word) parts.new) }
    ensures dead { OnOk result (AllDead problem.now.ops.now problem.now.final_word dead.new) }
    ensures undecided { IfOk result (λ found. IfUndecided found (0 < budget.old → budget.new < budget.old)) }
    ensures spends { IfOk result (λ found. (budget.new ≤ budget.old) × LookedMore P.looked progress.old progress.new (budget.old - budget.new)) }
{
    let mut state = first_state(alloc, 0);
    let mut are_dead = true;
    for place in 0..count(from) {
        read(from, place, &mut state)?;
        if has(dead, &state) {
            continue;
        }
        let short = share.min(*budget);
        let mut left = short;
        let found = search(
            alloc, problem, parts, &state, dead, span, &mut left, progress,
        )?;
        *budget -= short - left;
        match found {
            Found::Order(order) => return Ok(Found::Order(order)),
            Found::Nothing => {}
            Found::Undecided => are_dead = false,
        }
    }
    if are_dead {
        Ok(Found::Nothing)
    } else {
        Ok(Found::Undecided)
    }
}

/// Searches as `search` does, from each state of a set, so that none takes the whole budget where there are more: in each round
/// the search from each state may look at four times as many states as in the one before.
pub(crate) fn search_in_rounds<P: Progress>(
    alloc: Global,
    problem: &Problem,
    parts: &mut [WordPart],
    from: &States,
    dead: &mut States,
    span: u64,
    budget: &mut u64,
    progress: &mut P,
) -> Result<Found, AllocError>
    requires problem { IsProblem problem.now }
    requires ready { AreReady problem.now.ops.now from.now }
    requires parts { All (IsPartOf problem.now.ops.now problem.now.final_word) parts.now }
    requires dead { AllDead problem.now.ops.now problem.now.final_word dead.now }
    ensures order { IfOk result (λ found. IfOrder found (λ order. (p : Position) × Has from.now p × Finishes problem.now.ops.now (is_left (length problem.now.ops.now) p) p.word problem.now.final_word order)) }
    ensures nothing { IfOk result (λ found. IfNothing found (AllDead problem.now.ops.now problem.now.final_word from.now)) }
    ensures dead { OnOk result (AllDead problem.now.ops.now problem.now.final_word dead.new) }
    ensures undecided { IfOk result (λ found. IfUndecided found (budget.new ≡ 0)) }
    ensures spends { IfOk result (λ found. (budget.new ≤ budget.old) × LookedMore P.looked progress.old progress.new (budget.old - budget.new)) }
{
    let mut share = u64::MAX;
    if count(from) > 1 {
        share = (problem.ops.len() as u64)
            .saturating_mul(FIRST_SHARE)
            .max(1);
    }
    while *budget > 0 {
        let found = search_each(
            alloc, problem, parts, from, dead, span, share, budget, progress,
        )?;
        if let Found::Order(_) | Found::Nothing = found {
            return Ok(found);
        }
        share = share.saturating_mul(MORE);
    }
    Ok(Found::Undecided)
}
