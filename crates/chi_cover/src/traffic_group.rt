//! The bins of each group of traffic, and those of all groups.

ghost use Rattle.std.specs.Prelude.{◌≡◌, ◌++◌, IfOk, OnOk};
ghost use Rattle.chi_cover.specs.Bins.{all_bins, later_bins, open_bins, overlap_bins, requester_bins};

use crate::bin::{Bin, Depth, Transaction};
use crate::group::{comparison_bins, enables_bins, operation_bins, result_bins};
use crate::sequence_group::{line_sequence_bins, sequence_bins};
use std::alloc::{AllocError, Global};

/// All transactions.
pub(crate) const TRANSACTIONS: [Transaction; 6] = [
    Transaction::ReadNoSnp,
    Transaction::WriteNoSnpPtl,
    Transaction::AtomicStore,
    Transaction::AtomicLoad,
    Transaction::AtomicSwap,
    Transaction::AtomicCompare,
];

/// The bins of how many operations were open.
pub(crate) fn open_bins(alloc: Global) -> Result<Vec<Bin>, AllocError>
    ensures { IfOk result (λ bins. bins.items ≡ open_bins) }
{
    Vec::from_slice(
        alloc,
        &[
            Bin::Open(Depth::One),
            Bin::Open(Depth::Two),
            Bin::Open(Depth::UpToFour),
            Bin::Open(Depth::UpToEight),
            Bin::Open(Depth::More),
        ],
    )
}

fn add_later(to: &mut Vec<Bin>, earlier: Transaction) -> Result<(), AllocError>
    ensures { OnOk result (to.new.items ≡ to.old.items ++ later_bins earlier) }
{
    for later in TRANSACTIONS {
        to.push(Bin::Overlap { earlier, later })?;
    }
    Ok(())
}

/// The bins of overlaps.
pub(crate) fn overlap_bins(alloc: Global) -> Result<Vec<Bin>, AllocError>
    ensures { IfOk result (λ bins. bins.items ≡ overlap_bins) }
{
    let mut bins = Vec::new(alloc);
    for earlier in TRANSACTIONS {
        add_later(&mut bins, earlier)?;
    }
    Ok(bins)
}

/// The bins of requesters.
pub(crate) fn requester_bins(alloc: Global) -> Result<Vec<Bin>, AllocError>
    ensures { IfOk result (λ bins. bins.items ≡ requester_bins) }
{
    Vec::from_slice(
        alloc,
        &[
            Bin::Requester { same: true },
            Bin::Requester { same: false },
        ],
    )
}

/// All bins.
#[tactic(auto, unfolding(crate::specs::Bins::all_bins))]
pub(crate) fn all_bins(alloc: Global) -> Result<Vec<Bin>, AllocError>
    ensures { IfOk result (λ bins. bins.items ≡ all_bins) }
{
    let mut bins = operation_bins(alloc)?;
    bins.extend_from_slice(&comparison_bins(alloc)?)?;
    bins.extend_from_slice(&enables_bins(alloc)?)?;
    bins.extend_from_slice(&result_bins(alloc)?)?;
    bins.extend_from_slice(&open_bins(alloc)?)?;
    bins.extend_from_slice(&overlap_bins(alloc)?)?;
    bins.extend_from_slice(&requester_bins(alloc)?)?;
    bins.extend_from_slice(&sequence_bins(alloc)?)?;
    bins.extend_from_slice(&line_sequence_bins(alloc)?)?;
    Ok(bins)
}
