//! A set of states whose settled operations may be any.

ghost use Rattle.std.specs.Prelude.{◌≡◌, ◌∷◌, [], ◌++◌, IfOk, IsTrue, OnOk, map};
ghost use Rattle.std.specs.List.{Contains};
ghost use Rattle.chi_search.specs.Positions.{position_of};

use crate::chains::{Chained, is_full, link, newest, older, wider};
use crate::settled::Settled;
use crate::state::State;
use std::alloc::{AllocError, Global};

/// A set of states.
pub(crate) type Wide = Chained<State>;

/// A state like this one.
pub(crate) fn copy_of(alloc: Global, state: &State) -> Result<State, AllocError>
    ensures { IfOk result (λ copy. position_of copy ≡ position_of state.now) }
{
    Ok(State {
        first: state.first,
        settled: Settled {
            near: state.settled.near,
            beyond: Vec::from_slice(alloc, &state.settled.beyond)?,
        },
        word: state.word,
    })
}

// A number that differs for most states.
fn hash(state: &State) -> u64 {
    let mut hash = state.word ^ (state.first as u64).wrapping_mul(0x9e37_79b9_7f4a_7c15);
    hash = (hash ^ (hash >> 29)).wrapping_mul(0xbf58_476d_1ce4_e5b9) ^ state.settled.near;
    for word in &state.settled.beyond {
        hash = (hash ^ (hash >> 29)).wrapping_mul(0xbf58_476d_1ce4_e5b9) ^ *word;
    }
    hash = hash.wrapping_mul(0x94d0_49bb_1331_11eb);
    hash ^ (hash >> 31)
}

// Whether two states are the same.
fn is_same(state: &State, other: &State) -> bool
    ensures { IsTrue result → position_of state.now ≡ position_of other.now }
{
    state.word == other.word
        && state.first == other.first
        && state.settled.near == other.settled.near
        && state.settled.beyond[..] == other.settled.beyond[..]
}

/// Whether the state is in the set.
pub(crate) fn has_wide(wide: &Wide, state: &State) -> bool
    ensures { IsTrue result → Contains (map position_of wide.now.states.items) (position_of state.now) }
{
    let mut place = newest(&wide.chains, hash(state));
    for _ in 0..wide.states.len() {
        let found = match place {
            Some(found) if found < wide.states.len() => found,
            _ => return false,
        };
        if is_same(&wide.states[found], state) {
            return true;
        }
        place = older(&wide.chains, found);
    }
    false
}

/// Adds a state to the set.
pub(crate) fn add_wide(alloc: Global, wide: &mut Wide, state: &State) -> Result<(), AllocError>
    ensures { OnOk result (map position_of wide.new.states.items ≡ map position_of wide.old.states.items ++ position_of state.now ∷ []) }
{
    if is_full(&wide.chains) {
        let mut chains = wider(alloc, &wide.chains)?;
        for kept in &wide.states {
            link(&mut chains, hash(kept))?;
        }
        wide.chains = chains;
    }
    link(&mut wide.chains, hash(state))?;
    let copy = copy_of(alloc, state)?;
    wide.states.push(copy)?;
    Ok(())
}
