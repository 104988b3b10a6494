//! States told without the operations that all of them have passed.

ghost use Rattle.std.specs.Prelude.{◌≡◌, ◌-◌, ◌≤◌, ◌↔◌, IfOk, length};
ghost use Rattle.chi_search.specs.Positions.{Position, back_by};
ghost use Rattle.chi_search.specs.StateSets.{Has, positions};

use crate::state::first_state;
use crate::states::{States, add_new, count, no_states, read};
use std::alloc::{AllocError, Global};

/// How many of so many operations each state of the set has passed.
pub(crate) fn passed(states: &States, operations: usize) -> usize
    ensures within { result ≤ operations }
    ensures passed { (p : Position) → Has states.now p → result ≤ p.first }
{
    let mut least = operations;
    for state in &states.narrow.states {
        least = least.min(state.first);
    }
    for state in &states.wide.states {
        least = least.min(state.first);
    }
    least
}

/// The states of the set, each told without so many first operations, which it has passed.
pub(crate) fn moved_back(alloc: Global, states: &States, by: usize) -> Result<States, AllocError>
    requires { (p : Position) → Has states.now p → by ≤ p.first }
    ensures has { IfOk result (λ back. (p : Position) → Has back p ↔ ((q : Position) × Has states.now q × (p ≡ back_by by q))) }
    ensures count { IfOk result (λ back. length (positions back) ≤ length (positions states.now)) }
{
    let mut back = no_states(alloc);
    let mut state = first_state(alloc, 0);
    for place in 0..count(states) {
        read(states, place, &mut state)?;
        state.first -= by;
        add_new(alloc, &mut back, &state)?;
    }
    Ok(back)
}
