//! The granules of a trace in their order: those of its operations, and those with a word at the end.

ghost use Rattle.std.specs.Prelude.{◌≡◌, ℕ, ◌-◌, ◌<◌, ◌≤◌, All, length, take, drop, None, IfSome};
ghost use Rattle.std.specs.List.Sorted.{IsNonDecreasingBy};
ghost use Rattle.chi_verdict.specs.PastGranules.{IsPast};
ghost use Rattle.chi_trace.specs.Words.{AreInOrder};

use crate::grouping::Placed;
use chi_trace::GranuleWord;

/// The first granule that has an operation from a place on, or a word at the end.
pub(crate) fn next_granule(
    places: &[Placed],
    from: usize,
    final_words: &[GranuleWord],
    told: usize,
) -> Option<u64>
    requires places { IsNonDecreasingBy (λ (p : Placed). p.granule) places.now }
    requires final_words { AreInOrder final_words.now }
    ensures least { IfSome result (λ g. (h : ℕ) → h < g → IsPast places.now from final_words.now told h) }
    ensures there { IfSome result (λ g. IsPast places.now from final_words.now told g → ⊥) }
    ensures none { result ≡ None → (h : ℕ) → IsPast places.now from final_words.now told h }
{
    match (places.get(from), final_words.get(told)) {
        (Some(placed), Some(last)) => Some(placed.granule.min(last.granule)),
        (Some(placed), None) => Some(placed.granule),
        (None, Some(last)) => Some(last.granule),
        (None, None) => None,
    }
}

/// The place after the operations of a granule, which begin here if there are any.
pub(crate) fn past_granule(places: &[Placed], from: usize, granule: u64) -> usize
    requires places { IsNonDecreasingBy (λ (p : Placed). p.granule) places.now }
    requires from { from ≤ length places.now }
    requires least { All (λ p. granule ≤ p.granule) (drop from places.now) }
    ensures from { from ≤ result }
    ensures within { result ≤ length places.now }
    ensures own { All (λ p. p.granule ≡ granule) (take (result - from) (drop from places.now)) }
    ensures later { All (λ p. granule < p.granule) (drop result places.now) }
{
    let mut to = from;
    while to < places.len() && places[to].granule == granule {
        to += 1;
    }
    to
}

/// The place after the word of a granule, where that is the one that stands here.
pub(crate) fn past_word(final_words: &[GranuleWord], told: usize, granule: u64) -> usize
    requires final_words { AreInOrder final_words.now }
    requires told { told ≤ length final_words.now }
    requires least { All (λ w. granule ≤ w.granule) (drop told final_words.now) }
    ensures from { told ≤ result }
    ensures within { result ≤ length final_words.now }
    ensures own { All (λ w. w.granule ≡ granule) (take (result - told) (drop told final_words.now)) }
    ensures later { All (λ w. granule < w.granule) (drop result final_words.now) }
{
    match final_words.get(told) {
        Some(last) => {
            if last.granule == granule {
                told + 1
            } else {
                told
            }
        }
        None => told,
    }
}
