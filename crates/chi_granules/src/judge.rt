//! What is found of one granule.

ghost use Rattle.std.specs.Prelude.{◌≡◌, ◌≤◌, ◌-◌, [], IfOk};
ghost use Rattle.chi_search.specs.Looks.{LookedMore};
ghost use Rattle.chi_granules.specs.Judged.{IfUndecided, IsJudged};

use chi_judge::Standing;
use chi_page::Drawn;
use chi_reading::Recorded;
use chi_search::{Found, Progress};
use chi_verdict::Grouped;
use std::alloc::{AllocError, Global};

/// A granule of which no order was found.
fn unordered(alloc: Global, granule: u64, finding: Standing) -> Drawn
    ensures granule { result.granule ≡ granule }
    ensures finding { result.finding ≡ finding }
    ensures order { result.order.items ≡ [] }
{
    Drawn {
        granule,
        finding,
        order: Vec::new(alloc),
    }
}

/// What is found of a granule of a trace whose operations are grouped.
pub(crate) fn judged_in<P: Progress>(
    alloc: Global,
    recorded: &Recorded,
    grouped: &Grouped<'_>,
    granule: u64,
    budget: &mut u64,
    progress: &mut P,
) -> Result<Drawn, AllocError>
    requires { grouped.now ≡ recorded.now.trace }
    ensures granule { IfOk result (λ drawn. drawn.granule ≡ granule) }
    ensures judged { IfOk result (IsJudged recorded.now) }
    ensures undecided { IfOk result (λ drawn. IfUndecided drawn (budget.new ≡ 0)) }
    ensures spends { IfOk result (λ _. (budget.new ≤ budget.old) × LookedMore P.looked progress.old progress.new (budget.old - budget.new)) }
{
    let final_words = recorded.final_words();
    match grouped.explain(alloc, final_words, granule, budget, progress)? {
        Found::Order(order) => Ok(Drawn {
            granule,
            finding: Standing::Explained,
            order,
        }),
        Found::Nothing => Ok(unordered(alloc, granule, Standing::Unexplained)),
        Found::Undecided => Ok(unordered(alloc, granule, Standing::Undecided)),
    }
}
