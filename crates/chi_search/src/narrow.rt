//! A set of states whose settled operations are within 64 of the first that is left.

ghost use Rattle.std.specs.Prelude.{◌≡◌, ◌∷◌, [], ◌++◌, IsTrue, OnOk};
ghost use Rattle.std.specs.List.{Contains};

use crate::chains::{Chained, is_full, link, newest, older, wider};
use std::alloc::{AllocError, Global};

/// How many states are looked through one by one, with no chains.
const FEW: usize = 8;

/// A state of the search, with the settled operations in one word.
#[derive(Clone, Copy, PartialEq, Eq)]
pub(crate) struct NarrowState {
    pub first: usize,
    pub settled: u64,
    pub word: u64,
}

/// A set of such states.
pub(crate) type Narrow = Chained<NarrowState>;

// A number that differs for most states.
fn hash(state: NarrowState) -> u64 {
    let mut hash = state.word ^ (state.first as u64).wrapping_mul(0x9e37_79b9_7f4a_7c15);
    hash = (hash ^ (hash >> 29)).wrapping_mul(0xbf58_476d_1ce4_e5b9) ^ state.settled;
    hash = hash.wrapping_mul(0x94d0_49bb_1331_11eb);
    hash ^ (hash >> 31)
}

/// Whether the state is in the set.
pub(crate) fn has_narrow(narrow: &Narrow, state: NarrowState) -> bool
    ensures { IsTrue result → Contains narrow.now.states.items state }
{
    if narrow.states.len() <= FEW {
        return narrow.states.contains(&state);
    }
    let mut place = newest(&narrow.chains, hash(state));
    for _ in 0..narrow.states.len() {
        let found = match place {
            Some(found) if found < narrow.states.len() => found,
            _ => return false,
        };
        if narrow.states[found] == state {
            return true;
        }
        place = older(&narrow.chains, found);
    }
    false
}

/// Adds a state to the set.
pub(crate) fn add_narrow(
    alloc: Global,
    narrow: &mut Narrow,
    state: NarrowState,
) -> Result<(), AllocError>
    ensures { OnOk result (narrow.new.states.items ≡ narrow.old.states.items ++ state ∷ []) }
{
    if narrow.states.len() >= FEW {
        if is_full(&narrow.chains) {
            let mut chains = wider(alloc, &narrow.chains)?;
            for kept in &narrow.states {
                link(&mut chains, hash(*kept))?;
            }
            narrow.chains = chains;
        }
        link(&mut narrow.chains, hash(state))?;
    }
    narrow.states.push(state)?;
    Ok(())
}
