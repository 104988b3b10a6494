//! The bins of each group of sequences.

ghost use Rattle.std.specs.Prelude.{◌≡◌, ◌++◌, IfOk, OnOk};
ghost use Rattle.chi_cover.specs.Bins.{after_bins, line_after_bins, line_sequence_bins, sequence_bins};

use crate::bin::{Bin, Transaction};
use crate::traffic_group::TRANSACTIONS;
use std::alloc::{AllocError, Global};

/// The bins of sequences on a granule after a transaction.
fn add_after(to: &mut Vec<Bin>, earlier: Transaction) -> Result<(), AllocError>
    ensures { OnOk result (to.new.items ≡ to.old.items ++ after_bins earlier) }
{
    for later in TRANSACTIONS {
        to.push(Bin::Sequence { earlier, later })?;
    }
    Ok(())
}

/// The bins of sequences on a granule.
pub(crate) fn sequence_bins(alloc: Global) -> Result<Vec<Bin>, AllocError>
    ensures { IfOk result (λ bins. bins.items ≡ sequence_bins) }
{
    let mut bins = Vec::new(alloc);
    for earlier in TRANSACTIONS {
        add_after(&mut bins, earlier)?;
    }
    Ok(bins)
}

/// The bins of sequences on a line after a transaction.
fn add_line_after(to: &mut Vec<Bin>, earlier: Transaction) -> Result<(), AllocError>
    ensures { OnOk result (to.new.items ≡ to.old.items ++ line_after_bins earlier) }
{
    for later in TRANSACTIONS {
        to.push(Bin::LineSequence { earlier, later })?;
    }
    Ok(())
}

/// The bins of sequences on a line.
pub(crate) fn line_sequence_bins(alloc: Global) -> Result<Vec<Bin>, AllocError>
    ensures { IfOk result (λ bins. bins.items ≡ line_sequence_bins) }
{
    let mut bins = Vec::new(alloc);
    for earlier in TRANSACTIONS {
        add_line_after(&mut bins, earlier)?;
    }
    Ok(bins)
}
