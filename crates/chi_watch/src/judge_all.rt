//! Granules that are judged one after the other.

ghost use Rattle.std.specs.Prelude.{◌≡◌, ◌*◌, ◌⊎◌, ℕ, All, IfOk, IfSome, false, length};
ghost use Rattle.std.specs.BTreeMap.{get};
ghost use Rattle.std.specs.Ordering.{nat_cmp};
ghost use Rattle.chi_judge.specs.Standings.{IfExplained, IfUndecided, IfUnexplained};
ghost use Rattle.chi_search.specs.Looks.{Grew, GrewBy, LookedMore, for_verdict};
ghost use Rattle.chi_watch.specs.Endings.{IsExplainable, IsInexplicable, IsInexplicableAt, IsListed};
ghost use Rattle.chi_watch.specs.ListedAs.{IsListedAs};
ghost use Rattle.chi_watch.specs.Undecided.{GoesOnAt};

use crate::kept::KeptGranule;
use chi_judge::Standing;
use chi_search::Progress;
use chi_trace::laws::granules_stand_alone;
use std::alloc::{AllocError, Global};
use std::collections::BTreeMap;

/// The granules whose operations no order explains, and those of which that is not decided, in the order of their addresses.
#[derive(Drop)]
pub struct Listed {
    pub(crate) unexplained: Vec<u64>,
    pub(crate) undecided: Vec<u64>,
}

/// Lists a granule where it is not explained.
fn list(listed: &mut Listed, granule: u64, standing: Standing) -> Result<(), AllocError>
    ensures { IfOk result (λ _. IsListedAs standing granule listed.old listed.new) }
{
    match standing {
        Standing::Explained => {}
        Standing::Unexplained => listed.unexplained.push(granule)?,
        Standing::Undecided => listed.undecided.push(granule)?,
    }
    Ok(())
}

/// Judges each granule, as far as all that wrote to it is told.
pub(crate) fn judge_all<P: Progress>(
    alloc: Global,
    granules: &BTreeMap<u64, KeptGranule>,
    budget: u64,
    progress: &mut P,
) -> Result<Listed, AllocError>
    ensures each { IfOk result (λ listed. (g : ℕ) → IfSome (get nat_cmp granules.now g) (λ f. IsExplainable f ⊎ IsListed g listed.unexplained.items listed.undecided.items)) }
    ensures unexplained { IfOk result (λ listed. All (λ g. IsInexplicableAt (get nat_cmp granules.now g)) listed.unexplained.items) }
    ensures undecided { IfOk result (λ listed. All (λ _. GrewBy (P.looked for_verdict) progress.old progress.new budget) listed.undecided.items) }
    ensures together { IfOk result (λ listed. GrewBy (P.looked for_verdict) progress.old progress.new (budget * length listed.undecided.items)) }
    ensures go_on { IfOk result (λ listed. All (λ g. GoesOnAt (get nat_cmp granules.now g)) listed.undecided.items) }
    ensures looked { IfOk result (λ _. Grew (P.looked for_verdict) progress.old progress.new) }
{
    let mut listed = Listed {
        unexplained: Vec::new(alloc),
        undecided: Vec::new(alloc),
    };
    for (granule, kept) in granules {
        let standing = kept.check(alloc, kept.judged_word(), budget, progress)?;
        list(&mut listed, *granule, standing)?;
    }
    Ok(listed)
}
