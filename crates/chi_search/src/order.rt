//! An order of the operations of one granule.

ghost use Rattle.std.specs.Prelude.{◌≡◌, ℕ, ◌-◌, ◌≤◌, List, IfOk, length};
ghost use Rattle.chi_trace.specs.Explains.{is_place};
ghost use Rattle.chi_trace.specs.Granules.{Finishes};
ghost use Rattle.chi_search.specs.Found.{IfNothing, IfOrder, IfUndecided};
ghost use Rattle.chi_search.specs.Problems.{IsProblem};
ghost use Rattle.chi_search.specs.Layers.{AreReady};
ghost use Rattle.chi_search.specs.Looks.{LookedMore};
ghost use Rattle.chi_search.specs.Paths.{AllDead};
ghost use Rattle.chi_search.specs.Positions.{Position, is_left};
ghost use Rattle.chi_search.specs.Searchable.{AreSorted, AreWithin};
ghost use Rattle.chi_search.specs.StateSets.{Has};

use crate::at_once::{are_hopeless, are_hot, has_ended};
use crate::earliest::earliest_starts;
use crate::effect::effects_of;
use crate::layer::first_layer;
use crate::makers::FOLLOWED;
use crate::parts::{add_parts, are_mostly_writes, parts_of};
use crate::problem::Problem;
use crate::progress::Progress;
use crate::rounds::search_in_rounds;
use crate::states::{States, no_states};
use chi_trace::Operation;
use std::alloc::{AllocError, Global};

/// What is found: an order of the places of the operations, counted from 0; that there is none; or neither, since the budget
/// was spent.
#[derive(Debug, Drop)]
pub enum Found {
    Order(Vec<usize>),
    Nothing,
    Undecided,
}

/// How many states for each operation are looked at without the rules that take time at each.
pub(crate) const PLAIN_STATES: u64 = 8;

/// After how many states for each operation the search of a granule that is mostly written begins again.
const SPAN_STATES: u64 = 64;

// Searches from states on as `order_of` does with all rules. Where most are writes and that takes long, the parts of four bytes are
// asked too, and the search begins again from time to time.
fn search_by_rules<P: Progress>(
    alloc: Global,
    problem: &Problem,
    from: &States,
    dead: &mut States,
    budget: &mut u64,
    progress: &mut P,
) -> Result<Found, AllocError>
    requires problem { IsProblem problem.now }
    requires ready { AreReady problem.now.ops.now from.now }
    requires dead { AllDead problem.now.ops.now problem.now.final_word dead.now }
    ensures order { IfOk result (λ found. IfOrder found (λ order. (p : Position) × Has from.now p × Finishes problem.now.ops.now (is_left (length problem.now.ops.now) p) p.word problem.now.final_word order)) }
    ensures nothing { IfOk result (λ found. IfNothing found (AllDead problem.now.ops.now problem.now.final_word from.now)) }
    ensures undecided { IfOk result (λ found. IfUndecided found (budget.new ≡ 0)) }
    ensures spends { IfOk result (λ found. (budget.new ≤ budget.old) × LookedMore P.looked progress.old progress.new (budget.old - budget.new)) }
{
    let (ops, final_word) = (problem.ops, problem.final_word);
    let effects = effects_of(alloc, ops)?;
    let problem = Problem {
        effects: &effects,
        ..*problem
    };
    let mut parts = parts_of(alloc, ops, final_word)?;
    if !are_mostly_writes(ops) {
        return search_in_rounds(
            alloc,
            &problem,
            &mut parts,
            from,
            dead,
            u64::MAX,
            budget,
            progress,
        );
    }
    let span = (ops.len() as u64).saturating_mul(SPAN_STATES);
    let short = span.min(*budget);
    let mut left = short;
    let found = search_in_rounds(
        alloc,
        &problem,
        &mut parts,
        from,
        dead,
        u64::MAX,
        &mut left,
        progress,
    )?;
    *budget -= short - left;
    if let Found::Order(_) | Found::Nothing = found {
        return Ok(found);
    }
    let mut more_parts = parts_of(alloc, ops, final_word)?;
    add_parts(alloc, ops, final_word, 4, &mut more_parts)?;
    search_in_rounds(
        alloc,
        &problem,
        &mut more_parts,
        from,
        dead,
        span,
        budget,
        progress,
    )
}

/// Searches as `order_of` does, from each state of a set.
pub(crate) fn order_from<P: Progress>(
    alloc: Global,
    ops: &[Operation],
    final_word: Option<u64>,
    from: &States,
    budget: &mut u64,
    progress: &mut P,
) -> Result<Found, AllocError>
    requires sorted { AreSorted ops.now }
    requires within { AreWithin ops.now }
    requires ready { AreReady ops.now from.now }
    ensures order { IfOk result (λ found. IfOrder found (λ order. (p : Position) × Has from.now p × Finishes ops.now (is_left (length ops.now) p) p.word final_word order)) }
    ensures nothing { IfOk result (λ found. IfNothing found (AllDead ops.now final_word from.now)) }
    ensures undecided { IfOk result (λ found. IfUndecided found (budget.new ≡ 0)) }
    ensures spends { IfOk result (λ found. (budget.new ≤ budget.old) × LookedMore P.looked progress.old progress.new (budget.old - budget.new)) }
{
    if has_ended(alloc, ops, final_word, from)? {
        return Ok(Found::Order(Vec::new(alloc)));
    }
    let earliest = earliest_starts(alloc, ops)?;
    let problem = Problem {
        ops,
        final_word,
        effects: &[],
        earliest: &earliest,
    };
    let mut dead = no_states(alloc);
    let are_hot = are_hot(ops, &earliest);
    if are_hot && are_hopeless(alloc, &problem, from, 0, &mut dead)? {
        return Ok(Found::Nothing);
    }
    // Most operations have an order that a plain search finds at once.
    let plain = (ops.len() as u64).saturating_mul(PLAIN_STATES).min(*budget);
    let mut left = plain;
    let found = search_in_rounds(
        alloc,
        &problem,
        &mut [],
        from,
        &mut dead,
        u64::MAX,
        &mut left,
        progress,
    )?;
    *budget -= plain - left;
    if let Found::Order(_) | Found::Nothing = found {
        return Ok(found);
    }
    if are_hopeless(alloc, &problem, from, FOLLOWED, &mut dead)? {
        return Ok(Found::Nothing);
    }
    search_by_rules(alloc, &problem, from, &mut dead, budget, progress)
}

/// Searches for an order of the operations of one granule, from its word at the opening on, which leaves `last` where that was
/// observed. The operations stand in the order of their ends (`are_searchable`). `budget` is how many states may be looked
/// at beside the first, and is left with how many more might have been. Where an operation is seen at once to find what no other
/// can leave none of it is spent, or no more than eight for each operation where few can come next.
///
/// ```
/// let mut budget = 1_000_000;
/// match order_of(alloc, &ops, 0, None, &mut budget, &mut NoProgress)? {
///     Found::Order(order) => explain(&order),
///     Found::Nothing => blame(),
///     Found::Undecided => take_more_time(),
/// }
/// ```
pub fn order_of<P: Progress>(
    alloc: Global,
    ops: &[Operation],
    word: u64,
    final_word: Option<u64>,
    budget: &mut u64,
    progress: &mut P,
) -> Result<Found, AllocError>
    requires sorted { AreSorted ops.now }
    requires within { AreWithin ops.now }
    ensures order { IfOk result (λ found. IfOrder found (λ order. Finishes ops.now (is_place ops.now) word final_word order)) }
    ensures nothing { IfOk result (λ found. IfNothing found ((order : List ℕ) → Finishes ops.now (is_place ops.now) word final_word order → ⊥)) }
    ensures undecided { IfOk result (λ found. IfUndecided found (budget.new ≡ 0)) }
    ensures spends { IfOk result (λ found. (budget.new ≤ budget.old) × LookedMore P.looked progress.old progress.new (budget.old - budget.new)) }
{
    let from = first_layer(alloc, &[word])?;
    order_from(alloc, ops, final_word, &from, budget, progress)
}
