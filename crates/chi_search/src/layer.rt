//! Sets of states, each one move after those of the one before.

ghost use Rattle.std.specs.Prelude.{◌≡◌, ◌≢◌, ℕ, ◌+◌, ◌-◌, ◌<◌, ◌≤◌, ◌⊎◌, ◌↔◌, IfOk, IfSome, List, None, ◌++◌, length};
ghost use Rattle.std.specs.List.{AllPairs, Contains};
ghost use Rattle.chi_trace.specs.declared.operation.Operation.{Operation};
ghost use Rattle.chi_search.specs.declared.states.States.{States};
ghost use Rattle.chi_search.specs.Layers.{AreReady, AreWaiting, EitherEnds, MayFollow, SomeEnds, Waits};
ghost use Rattle.chi_search.specs.Looks.{LookedMore};
ghost use Rattle.chi_search.specs.Paths.{AreBothReached, AreReached};
ghost use Rattle.chi_search.specs.Positions.{Position, start};
ghost use Rattle.chi_search.specs.Problems.{IsProblem};
ghost use Rattle.chi_search.specs.Searchable.{AreSorted, AreWithin};
ghost use Rattle.chi_search.specs.StateSets.{Has, positions};

use crate::earliest::earliest_starts;
use crate::effect::effects_of;
use crate::moving::put_next;
use crate::problem::Problem;
use crate::progress::Progress;
use crate::state::{State, first_state};
use crate::states::{States, add_new, count, no_states, read};
use chi_trace::Operation;
use std::alloc::{AllocError, Global};

/// How many operations are settled at the state.
fn settled_count(state: &State) -> usize {
    let mut count = state
        .first
        .saturating_add(state.settled.near.count_ones() as usize);
    for word in &state.settled.beyond {
        count = count.saturating_add(word.count_ones() as usize);
    }
    count
}

/// The place of a state of the set at which the fewest operations are settled, and how many these are.
fn fewest_settled(layer: &States, state: &mut State) -> Result<(usize, usize), AllocError>
    ensures { IfOk result (λ fewest. 0 < length (positions layer.now) → fewest.0 < length (positions layer.now)) }
{
    let mut least = 0;
    let mut fewest = usize::MAX;
    for place in 0..count(layer) {
        read(layer, place, state)?;
        let settled = settled_count(state);
        if settled < fewest {
            least = place;
            fewest = settled;
        }
    }
    Ok((least, fewest))
}

// Counts as many states as may still be looked at.
fn spend<P: Progress>(budget: &mut u64, progress: &mut P)
    ensures spent { budget.new ≡ 0 }
    ensures looked { LookedMore P.looked progress.old progress.new budget.old }
{
    while *budget > 0 {
        let count = progress.look(*budget);
        *budget -= count;
    }
}

/// The states that follow by one move those of the set at which the fewest operations are settled, and the others of the set.
/// The states that wait are put into a set of their own. Nothing, where the budget was spent or more than `most` wait.
fn next_layer<P: Progress>(
    alloc: Global,
    problem: &Problem,
    horizon: Option<u64>,
    layer: &States,
    waiting: &mut States,
    most: usize,
    budget: &mut u64,
    progress: &mut P,
) -> Result<Option<States>, AllocError>
    requires problem { IsProblem problem.now }
    requires unseen { problem.now.final_word ≡ None }
    requires ready { AreReady problem.now.ops.now layer.now }
    requires waiting { AreWaiting problem.now.ops.now horizon waiting.now }
    requires most { length (positions waiting.now) ≤ most }
    ensures ends { IfOk result (λ next. IfSome next (λ states. (more : List Operation) → MayFollow problem.now.ops.now horizon more → (v : ℕ) → EitherEnds (problem.now.ops.now ++ more) states waiting.new v ↔ EitherEnds (problem.now.ops.now ++ more) layer.now waiting.old v)) }
    ensures ready { IfOk result (λ next. IfSome next (λ states. AreReady problem.now.ops.now states)) }
    ensures waiting { IfOk result (λ next. IfSome next (λ states. AreWaiting problem.now.ops.now horizon waiting.new)) }
    ensures reached { IfOk result (λ next. IfSome next (λ states. (from : States) → AreBothReached problem.now.ops.now from layer.now waiting.old → AreBothReached problem.now.ops.now from states waiting.new)) }
    ensures most { IfOk result (λ next. IfSome next (λ states. length (positions waiting.new) ≤ most)) }
    ensures fewer { IfOk result (λ next. IfSome next (λ states. 0 < length (positions layer.now) → budget.new < budget.old)) }
    ensures count { IfOk result (λ next. length (positions waiting.new) + budget.new ≤ length (positions waiting.old) + budget.old) }
    ensures spent { IfOk result (λ next. next ≡ None → (budget.new ≡ 0) ⊎ (most < length (positions waiting.new))) }
    ensures spends { IfOk result (λ next. (budget.new ≤ budget.old) × LookedMore P.looked progress.old progress.new (budget.old - budget.new)) }
{
    let mut states = no_states(alloc);
    let mut state = first_state(alloc, 0);
    let mut next = first_state(alloc, 0);
    let (least, fewest) = fewest_settled(layer, &mut state)?;
    for place in 0..count(layer) {
        read(layer, place, &mut state)?;
        if place != least && settled_count(&state) > fewest {
            add_new(alloc, &mut states, &state)?;
            continue;
        }
        if *budget == 0 {
            return Ok(None);
        }
        *budget -= progress.look(*budget);
        put_next(
            alloc,
            problem,
            horizon,
            &state,
            &mut next,
            &mut states,
            waiting,
        )?;
        if count(waiting) > most {
            return Ok(None);
        }
        // More were found than may still be looked at.
        if count(&states) as u64 > *budget {
            spend(budget, progress);
            return Ok(None);
        }
    }
    Ok(Some(states))
}

/// The states in which none is settled, one for each word.
pub(crate) fn first_layer(alloc: Global, words: &[u64]) -> Result<States, AllocError>
    ensures { IfOk result (λ layer. (p : Position) → Has layer p ↔ ((w : ℕ) × Contains words.now w × (p ≡ start w))) }
{
    let mut layer = no_states(alloc);
    for word in words {
        add_new(alloc, &mut layer, &first_state(alloc, *word))?;
    }
    Ok(layer)
}

/// The states to which the states of a set lead by moves, and at which the search waits; or nothing, where the budget was spent
/// or more than `most` of them were found. What they lead to is the same, whatever operations come later. By rules it tries of
/// equal operations only the first, and drops states that are seen to be dead, where no operation comes later.
pub(crate) fn advance<P: Progress>(
    alloc: Global,
    ops: &[Operation],
    horizon: Option<u64>,
    by_rules: bool,
    most: usize,
    from: States,
    budget: &mut u64,
    progress: &mut P,
) -> Result<Option<States>, AllocError>
    requires sorted { AreSorted ops.now }
    requires within { AreWithin ops.now }
    requires ready { AreReady ops.now from }
    ensures ends { IfOk result (λ last. IfSome last (λ states. (more : List Operation) → MayFollow ops.now horizon more → (v : ℕ) → SomeEnds (ops.now ++ more) states v ↔ SomeEnds (ops.now ++ more) from v)) }
    ensures ready { IfOk result (λ last. IfSome last (λ states. AreReady ops.now states)) }
    ensures waiting { IfOk result (λ last. IfSome last (λ states. (p : Position) → Has states p → Waits ops.now horizon p.first)) }
    ensures reached { IfOk result (λ last. IfSome last (λ states. AreReached ops.now from states)) }
    ensures most { IfOk result (λ last. IfSome last (λ states. length (positions states) ≤ most)) }
    ensures spent { IfOk result (λ last. last ≡ None → (budget.new ≡ 0) ⊎ (most < budget.old - budget.new)) }
    ensures spends { IfOk result (λ last. (budget.new ≤ budget.old) × LookedMore P.looked progress.old progress.new (budget.old - budget.new)) }
{
    let earliest = earliest_starts(alloc, ops)?;
    let effects = if by_rules {
        effects_of(alloc, ops)?
    } else {
        Vec::new(alloc)
    };
    let problem = Problem {
        ops,
        final_word: None,
        effects: &effects,
        earliest: &earliest,
    };
    let mut waiting = no_states(alloc);
    let mut layer = from;
    while count(&layer) > 0 {
        match next_layer(
            alloc,
            &problem,
            horizon,
            &layer,
            &mut waiting,
            most,
            budget,
            progress,
        )? {
            Some(next) => layer = next,
            None => return Ok(None),
        }
    }
    Ok(Some(waiting))
}

/// The words of the states of a set, each once.
pub(crate) fn words_in(alloc: Global, layer: &States) -> Result<Vec<u64>, AllocError>
    ensures words { IfOk result (λ words. (w : ℕ) → Contains words.items w ↔ ((p : Position) × Has layer.now p × (p.word ≡ w))) }
    ensures once { IfOk result (λ words. AllPairs (λ v w. v ≢ w) words.items) }
{
    let mut words: Vec<u64> = Vec::new(alloc);
    let mut state = first_state(alloc, 0);
    for place in 0..count(layer) {
        read(layer, place, &mut state)?;
        if !words.contains(&state.word) {
            words.push(state.word)?;
        }
    }
    Ok(words)
}
