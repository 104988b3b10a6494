//! A search that goes on after some of its operations.

ghost use Rattle.std.specs.Prelude.{◌≡◌, ℕ, ◌++◌, List, None, Some, IfOk, IfSome, length};
ghost use Rattle.std.specs.List.{Contains};
ghost use Rattle.chi_trace.specs.declared.operation.Operation.{Operation};
ghost use Rattle.chi_search.specs.Frontiers.{GoesAlong, GoesOnFrom};
ghost use Rattle.chi_search.specs.Moves.{Comes, Ends};
ghost use Rattle.chi_search.specs.Positions.{IsReady, Position, position_of};
ghost use Rattle.chi_search.specs.Searchable.{AreSorted, AreWithin};

use crate::choice::take;
use crate::frontier::Frontier;
use crate::passing::{moved_back, passed};
use crate::state::{State, first_state};
use crate::states::{States, add, count, no_states, read};
use crate::wide::copy_of;
use chi_trace::Operation;
use std::alloc::{AllocError, Global};

// The state after some operations, which come next in turn, from a state on. There is none where they cannot come so.
fn state_after(
    alloc: Global,
    ops: &[Operation],
    from: &State,
    order: &[usize],
) -> Result<Option<State>, AllocError>
    requires within { AreWithin ops.now }
    requires ready { IsReady (length ops.now) (position_of from.now) }
    ensures ready { IfOk result (λ found. IfSome found (λ s. IsReady (length ops.now) (position_of s))) }
    ensures comes { IfOk result (λ found. IfSome found (λ s. Comes ops.now (position_of from.now) order.now (position_of s))) }
    ensures ends { IfOk result (λ found. IfSome found (λ s. (more : List Operation) → AreSorted (ops.now ++ more) → (v : ℕ) → Ends (ops.now ++ more) (Some v) (position_of s) → Ends (ops.now ++ more) (Some v) (position_of from.now))) }
    ensures refused { IfOk result (λ found. found ≡ None → (q : Position) → Comes ops.now (position_of from.now) order.now q → ⊥) }
{
    let mut state = copy_of(alloc, from)?;
    for place in order {
        if *place >= ops.len() || state.first >= ops.len() {
            return Ok(None);
        }
        let mut next = first_state(alloc, 0);
        if !take(ops, &state, *place, &mut next)? {
            return Ok(None);
        }
        state = next;
    }
    Ok(Some(state))
}

impl Frontier {
    // The search from one state on.
    fn from_state(&self, alloc: Global, state: &State) -> Result<Frontier, AllocError>
        requires ready { IsReady (length self.now.operations) (position_of state.now) }
        ensures from { IfOk result (λ f. GoesOnFrom self.now f (position_of state.now)) }
        ensures told { IfOk result (λ f. (f.horizon ≡ self.now.horizon) × (f.latest ≡ self.now.latest)) }
    {
        let mut last = no_states(alloc);
        add(alloc, &mut last, state)?;
        let by = passed(&last, self.operations.len());
        let states = moved_back(alloc, &last, by)?;
        let operations = Vec::from_slice(alloc, &self.operations[by..])?;
        Ok(Frontier {
            states,
            operations,
            horizon: self.horizon,
            latest: self.latest,
        })
    }

    /// The search after some of its operations, which come next in turn, from one of its positions. There is none where they cannot
    /// come so from any.
    ///
    /// ```
    /// if let Some(next) = frontier.after(alloc, &order)? {
    ///     go_on(next);
    /// }
    /// ```
    pub fn after(&self, alloc: Global, order: &[usize]) -> Result<Option<Frontier>, AllocError>
        ensures from { IfOk result (λ next. IfSome next (λ f. (p : Position) × (q : Position) × Contains self.now.positions p × Comes self.now.operations p order.now q × GoesOnFrom self.now f q)) }
        ensures told { IfOk result (λ next. IfSome next (λ f. (f.horizon ≡ self.now.horizon) × (f.latest ≡ self.now.latest))) }
        ensures refused { IfOk result (λ next. next ≡ None → (p q : Position) → Contains self.now.positions p → Comes self.now.operations p order.now q → ⊥) }
        ensures along { IfOk result (λ next. IfSome next (λ f. (words : List ℕ) (told : List Operation) → GoesAlong words told self.now → GoesAlong words told f)) }
    {
        let mut state = first_state(alloc, 0);
        for place in 0..count(&self.states) {
            read(&self.states, place, &mut state)?;
            if let Some(last) = state_after(alloc, &self.operations, &state, order)? {
                let next = self.from_state(alloc, &last)?;
                return Ok(Some(next));
            }
        }
        Ok(None)
    }
}
