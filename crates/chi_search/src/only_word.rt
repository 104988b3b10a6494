//! A search that is at one word, with no operation left.

ghost use Rattle.std.specs.Prelude.{◌≡◌, ◌↔◌, [], ◌∷◌, None, IfOk, IfSome, IsTrue};
ghost use Rattle.chi_search.specs.Frontiers.{only_at};
ghost use Rattle.chi_search.specs.Positions.{Position, position_of, start};
ghost use Rattle.chi_search.specs.StateSets.{positions};

use crate::chains::none_chained;
use crate::frontier::Frontier;
use crate::narrow::{NarrowState, add_narrow};
use crate::state::{State, first_state};
use crate::states::{States, count, read};
use std::alloc::{AllocError, Global};

/// The set of the state in which none is settled.
fn only_state(alloc: Global, word: u64) -> Result<States, AllocError>
    ensures { IfOk result (λ states. positions states ≡ start word ∷ []) }
{
    let mut narrow = none_chained(alloc);
    let state = NarrowState {
        first: 0,
        settled: 0,
        word,
    };
    add_narrow(alloc, &mut narrow, state)?;
    Ok(States {
        narrow,
        wide: none_chained(alloc),
    })
}

/// The only state of a set, where it has no other.
fn single(alloc: Global, states: &States) -> Result<Option<State>, AllocError>
    ensures single { IfOk result (λ found. IfSome found (λ state. positions states.now ≡ position_of state ∷ [])) }
    ensures others { IfOk result (λ found. found ≡ None → (p : Position) → positions states.now ≡ p ∷ [] → ⊥) }
{
    if count(states) != 1 {
        return Ok(None);
    }
    let mut state = first_state(alloc, 0);
    read(states, 0, &mut state)?;
    Ok(Some(state))
}

/// Whether it is the state in which none is settled, with this word.
fn is_first(state: &State, word: u64) -> bool
    ensures { IsTrue result ↔ (position_of state.now ≡ start word) }
{
    state.word == word
        && state.first == 0
        && state.settled.near == 0
        && state.settled.beyond.is_empty()
}

impl Frontier {
    /// Whether the search is at this word alone, with no operation left, this horizon and this latest end. Then no more need be kept of
    /// it: `at_word` is the same search.
    ///
    /// ```
    /// if frontier.is_at_word(alloc, word, horizon, latest)? {
    ///     settled.insert(granule, word)?;
    /// }
    /// ```
    pub fn is_at_word(
        &self,
        alloc: Global,
        word: u64,
        horizon: u64,
        latest: u64,
    ) -> Result<bool, AllocError>
        ensures { IfOk result (λ is. IsTrue is ↔ (self.now ≡ only_at word horizon latest)) }
    {
        if !self.operations.is_empty() || self.horizon != horizon || self.latest != latest {
            return Ok(false);
        }
        match single(alloc, &self.states)? {
            Some(state) => Ok(is_first(&state, word)),
            None => Ok(false),
        }
    }

    /// The search that is at this word, with no operation left. No operation is told next that starts before the horizon, or ends
    /// before the latest end, in the unit of the operations' times.
    ///
    /// ```
    /// let frontier = Frontier::at_word(alloc, word, horizon, latest)?;
    /// ```
    pub fn at_word(
        alloc: Global,
        word: u64,
        horizon: u64,
        latest: u64,
    ) -> Result<Frontier, AllocError>
        ensures { IfOk result (λ frontier. frontier ≡ only_at word horizon latest) }
    {
        Ok(Frontier {
            states: only_state(alloc, word)?,
            operations: Vec::new(alloc),
            horizon,
            latest,
        })
    }
}
