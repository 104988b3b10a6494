//! A state of the search.

ghost use Rattle.std.specs.Prelude.{◌≡◌, ℕ, ◌+◌, ◌<◌, ◌≤◌, ◌==◌, ◌||◌, true, false, IsTrue, OnOk};
ghost use Rattle.chi_search.specs.Positions;
ghost use Rattle.chi_search.specs.Positions.{IsReady, Settles, has_bit, position_of, start, words_of};

use crate::settled::{Settled, has, put, shift, trim};
use std::alloc::{AllocError, Global};

/// Which operations are settled, and the word that those of them that were taken left. The operations before `first` are
/// settled, and operation `first + k` where `settled` has k.
#[derive(Drop)]
pub(crate) struct State {
    pub first: usize,
    pub settled: Settled,
    pub word: u64,
}

/// The state in which none is settled.
pub(crate) fn first_state(alloc: Global, word: u64) -> State
    ensures { position_of result ≡ start word }
{
    State {
        first: 0,
        settled: Settled {
            near: 0,
            beyond: Vec::new(alloc),
        },
        word,
    }
}

/// Whether the operation is one of so many, and not settled.
pub(crate) fn is_left(state: &State, count: usize, place: usize) -> bool
    ensures { result ≡ Positions.is_left count (position_of state.now) place }
{
    place < count && state.first <= place && !has(&state.settled, place - state.first)
}

// How many operations from the first on are settled, once this one is.
fn settled_with(state: &State, count: usize, place: usize) -> usize
    requires left { IsTrue (Positions.is_left count (position_of state.now) place) }
    ensures within { state.now.first + result ≤ count }
    ensures settled { (k : ℕ) → k < result → (has_bit (words_of state.now.settled) k || (state.now.first + k == place)) ≡ true }
    ensures next { state.now.first + result < count → (has_bit (words_of state.now.settled) result || (state.now.first + result == place)) ≡ false }
{
    let mut by = 0;
    while state.first + by < count && (has(&state.settled, by) || state.first + by == place) {
        by += 1;
    }
    by
}

/// Makes the second state the one after this operation was settled, which left this word.
pub(crate) fn settle(
    state: &State,
    count: usize,
    place: usize,
    word: u64,
    to: &mut State,
) -> Result<(), AllocError>
    requires left { IsTrue (Positions.is_left count (position_of state.now) place) }
    requires ready { IsReady count (position_of state.now) }
    ensures word { OnOk result ((position_of to.new).word ≡ word) }
    ensures left { OnOk result (Settles (position_of state.now) place (position_of to.new)) }
    ensures ready { OnOk result (IsReady count (position_of to.new)) }
{
    let by = settled_with(state, count, place);
    shift(&state.settled, by, &mut to.settled)?;
    if place - state.first >= by {
        put(&mut to.settled, place - state.first - by)?;
    }
    trim(&mut to.settled);
    to.first = state.first + by;
    to.word = word;
    Ok(())
}
