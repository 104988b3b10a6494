//! The operations of a trace, those of each granule together.

ghost use Rattle.std.specs.Prelude.{◌≡◌, ℕ, ◌-◌, ◌≤◌, List, IfOk};
ghost use Rattle.chi_search.specs.Found.{IfNothing, IfOrder, IfUndecided};
ghost use Rattle.chi_search.specs.Looks.{LookedMore};
ghost use Rattle.chi_trace.specs.Traces.{IsExplainedIn};

use crate::granule::{Group, search_granule};
use crate::grouping::{Placed, by_granule};
use crate::next_granule::past_granule;
use chi_search::{Found, Progress};
use chi_trace::{GranuleWords, Trace};
use std::alloc::{AllocError, Global};
use std::marker::Model;

/// The operations of a trace, those of each granule together. To explain one granule after another by it takes no walk over all
/// operations for each.
#[derive(Drop)]
pub struct Grouped<'a> {
    trace: &'a Trace,
    places: Vec<Placed>,
}

impl<'a> Model for Grouped<'a> {
    ghost use Rattle.chi_trace.specs.Explains.{is_place};
    ghost use Rattle.chi_trace.specs.Traces.{TraceValue};
    ghost use Rattle.chi_verdict.specs.Groups.{IsGrouped};

    ghost Value = { TraceValue };

    ghost view = { λ g. g.trace.now };

    ghost invariant = { λ g. IsGrouped g.trace.now.operations (is_place g.trace.now.operations) g.places.items };
}

impl<'a> Grouped<'a> {
    /// The operations of a trace, grouped.
    ///
    /// ```
    /// let grouped = Grouped::of(alloc, &trace)?;
    /// ```
    pub fn of(alloc: Global, trace: &'a Trace) -> Result<Grouped<'a>, AllocError>
        ensures { IfOk result (λ grouped. grouped ≡ trace.now) }
    {
        let places = by_granule(alloc, trace.operations())?;
        Ok(Grouped { trace, places })
    }

    /// Whether the operations of one granule can be explained by themselves: an order of them, by their places in the trace, from
    /// the granule's word at the opening to the one at the end, where that is told. `granule` is its number, counted from address
    /// 0. `budget` is how many states may be looked at, and is left with how many more might have been.
    ///
    /// ```
    /// match grouped.explain(alloc, &final_words, 0x1000 / 8, &mut budget, &mut NoProgress)? {
    ///     Found::Order(order) => show(&order),
    ///     Found::Nothing => blame(),
    ///     Found::Undecided => take_more_time(),
    /// }
    /// ```
    pub fn explain<P: Progress>(
        &self,
        alloc: Global,
        final_words: &GranuleWords,
        granule: u64,
        budget: &mut u64,
        progress: &mut P,
    ) -> Result<Found, AllocError>
        ensures order { IfOk result (λ found. IfOrder found (IsExplainedIn self.now final_words.now granule)) }
        ensures nothing { IfOk result (λ found. IfNothing found ((order : List ℕ) → IsExplainedIn self.now final_words.now granule order → ⊥)) }
        ensures undecided { IfOk result (λ found. IfUndecided found (budget.new ≡ 0)) }
        ensures spends { IfOk result (λ found. (budget.new ≤ budget.old) × LookedMore P.looked progress.old progress.new (budget.old - budget.new)) }
    {
        let ops = self.trace.operations();
        let word = self.trace.opening().word(granule);
        let final_word = final_words.get(granule);
        let places = self.places.as_slice();
        let from = places.partition_point(|placed| placed.granule < granule);
        let to = past_granule(places, from, granule);
        let group = Group {
            granule,
            run: &places[from..to],
        };
        search_granule(alloc, ops, &group, word, final_word, budget, progress)
    }
}
