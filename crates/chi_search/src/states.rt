//! A set of states of a search. Most take 24 bytes, and those whose settled operations reach further more.

ghost use Rattle.std.specs.Prelude.{◌≡◌, ℕ, ◌+◌, ◌<◌, ◌≤◌, ◌⊎◌, ◌↔◌, [], IsTrue, OnOk, Some, length, slice_get};
ghost use Rattle.chi_search.specs.Positions.{Position, position_of};
ghost use Rattle.chi_search.specs.StateSets.{Has, position_of_narrow, positions};

use crate::chains::none_chained;
use crate::narrow::{Narrow, NarrowState, add_narrow, has_narrow};
use crate::state::State;
use crate::wide::{Wide, add_wide, has_wide};
use std::alloc::{AllocError, Global};

/// A set of states.
#[derive(Drop)]
pub(crate) struct States {
    pub narrow: Narrow,
    pub wide: Wide,
}

/// The empty set.
pub(crate) fn no_states(alloc: Global) -> States
    ensures { positions result ≡ [] }
{
    States {
        narrow: none_chained(alloc),
        wide: none_chained(alloc),
    }
}

// The state in 24 bytes, where it has so few.
fn narrow_of(state: &State) -> NarrowState
    ensures { state.now.settled.beyond.items ≡ [] → position_of_narrow result ≡ position_of state.now }
{
    NarrowState {
        first: state.first,
        settled: state.settled.near,
        word: state.word,
    }
}

/// Whether the state is in the set.
pub(crate) fn has(states: &States, state: &State) -> bool
    ensures { IsTrue result → Has states.now (position_of state.now) }
{
    if state.settled.beyond.is_empty() {
        has_narrow(&states.narrow, narrow_of(state))
    } else {
        has_wide(&states.wide, state)
    }
}

/// Adds a state to the set.
pub(crate) fn add(alloc: Global, states: &mut States, state: &State) -> Result<(), AllocError>
    ensures has { OnOk result ((p : Position) → Has states.new p ↔ (Has states.old p ⊎ (p ≡ position_of state.now))) }
    ensures count { OnOk result (length (positions states.new) ≡ length (positions states.old) + 1) }
{
    if state.settled.beyond.is_empty() {
        add_narrow(alloc, &mut states.narrow, narrow_of(state))
    } else {
        add_wide(alloc, &mut states.wide, state)
    }
}

/// Adds a state to the set, where it is not there.
pub(crate) fn add_new(alloc: Global, states: &mut States, state: &State) -> Result<(), AllocError>
    ensures has { OnOk result ((p : Position) → Has states.new p ↔ (Has states.old p ⊎ (p ≡ position_of state.now))) }
    ensures count { OnOk result (length (positions states.new) ≤ length (positions states.old) + 1) }
{
    if has(states, state) {
        return Ok(());
    }
    add(alloc, states, state)
}

/// How many states are in the set.
pub(crate) fn count(states: &States) -> usize
    ensures { result ≡ length (positions states.now) }
{
    states
        .narrow
        .states
        .len()
        .saturating_add(states.wide.states.len())
}

/// Makes the state the one at a place of the set.
pub(crate) fn read(states: &States, place: usize, to: &mut State) -> Result<(), AllocError>
    requires { place < length (positions states.now) }
    ensures { OnOk result (slice_get (positions states.now) place ≡ Some (position_of to.new)) }
{
    to.settled.beyond.clear();
    if place < states.narrow.states.len() {
        let state = states.narrow.states[place];
        to.first = state.first;
        to.settled.near = state.settled;
        to.word = state.word;
        return Ok(());
    }
    let state = &states.wide.states[place - states.narrow.states.len()];
    to.first = state.first;
    to.settled.near = state.settled.near;
    to.word = state.word;
    for word in &state.settled.beyond {
        to.settled.beyond.push(*word)?;
    }
    Ok(())
}
