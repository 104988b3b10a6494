//! A word to which all that was told leads, where one is known.

ghost use Rattle.std.specs.Prelude.{◌≡◌, ◌+◌, ◌^◌, ◌<◌, ◌≤◌, ◌↔◌, ◌⊎◌, ℕ, IfOk, IfSome, IsTrue, None, Some};
ghost use Rattle.chi_trace.specs.Granules.{Fits};
ghost use Rattle.chi_search.specs.Looks.{LookedSome};
ghost use Rattle.chi_judge.specs.Judges.{LeadsTo, Leaves};

use crate::judge::Judge;
use chi_search::{Frontier, Progress, Words, step};
use chi_trace::Operation;
use std::alloc::{AllocError, Global};

/// The word that an operation leaves after the others, where the word that they left is known and it fits that.
pub(crate) fn word_after(word: Option<u64>, op: &Operation) -> Option<u64>
    requires { op.now.access.addr + op.now.access.len ≤ 2 ^ 52 }
    ensures leaves { IfSome result (Leaves word op.now) }
    ensures unfit { result ≡ None → IfSome word (λ v. Fits op.now v → ⊥) }
{
    step(op, word?)
}

/// A word to which a search leads, where one is found within the budget.
fn some_word<P: Progress>(
    alloc: Global,
    search: &Frontier,
    budget: &mut u64,
    progress: &mut P,
) -> Result<Option<u64>, AllocError>
    ensures word { IfOk result (λ found. IfSome found (LeadsTo search.now)) }
    ensures looked { IfOk result (λ _. LookedSome P.looked progress.old progress.new) }
{
    match search.words(alloc, budget, progress)? {
        Words::Each(words) => Ok(words.first().copied()),
        Words::Unknown => Ok(None),
    }
}

/// The word that is known once operations are left to a search: the one that was, or where there was none and they are all that was
/// told, one to which the search leads.
pub(crate) fn word_once_left<P: Progress>(
    alloc: Global,
    word: Option<u64>,
    search: &Frontier,
    are_all: bool,
    budget: &mut u64,
    progress: &mut P,
) -> Result<Option<u64>, AllocError>
    ensures known { IfOk result (λ known. IfSome known (λ v. (word ≡ Some v) ⊎ (IsTrue are_all × LeadsTo search.now v))) }
    ensures still { IfOk result (λ known. IfSome word (λ v. known ≡ Some v)) }
    ensures looked { IfOk result (λ _. LookedSome P.looked progress.old progress.new) }
{
    match (word, are_all) {
        (None, true) => some_word(alloc, search, budget, progress),
        _ => Ok(word),
    }
}

impl Judge {
    /// Whether all that was told is known to lead to a word, which is the final word where one was told.
    pub(crate) fn leads_to(&self, final_word: Option<u64>) -> bool
        ensures { IsTrue result ↔ ((v : ℕ) × (self.now.word ≡ Some v) × IfSome final_word (λ seen. v ≡ seen)) }
    {
        match (self.word, final_word) {
            (Some(word), Some(seen)) => word == seen,
            (Some(_), None) => true,
            (None, _) => false,
        }
    }

    /// Whether a word is known, and all that is kept ended before the horizon.
    pub(crate) fn is_known_before(&self, horizon: u64) -> bool
        ensures { IsTrue result → (v : ℕ) × (self.now.word ≡ Some v) × (self.now.latest < horizon) }
    {
        match self.word {
            Some(_) => self.latest < horizon,
            None => false,
        }
    }
}
