//! The operations of each granule that are still open.

ghost use Rattle.std.specs.Prelude.{◌+◌, ◌<◌, IfOk, OnOk, length};
ghost use Rattle.chi_trace.specs.Explains.{IsTrace};
ghost use Rattle.chi_cover.specs.Open.{AreKept, AreOpen};

use crate::kept::Kept;
use chi_trace::Operation;
use std::alloc::{AllocError, Global};
use std::collections::HashMap;

/// What is kept of the operations of each granule that may still be open, by the granule's number.
pub(crate) type OpenOperations = HashMap<u64, Kept>;

/// Takes the operation at a place, where those before it were taken: what was kept of those of its granule that are open.
pub(crate) fn take(
    alloc: Global,
    ops: &[Operation],
    kept: &mut OpenOperations,
    place: usize,
) -> Result<Kept, AllocError>
    requires traced { IsTrace ops.now }
    requires place { place < length ops.now }
    requires kept { AreKept ops.now place kept.old }
    ensures still_open { IfOk result (AreOpen ops.now place) }
    ensures kept { OnOk result (AreKept ops.now (place + 1) kept.new) }
{
    let op = &ops[place];
    let granule = op.granule();
    let before = kept.remove(&granule).unwrap_or(Kept::none(alloc));
    let left = before.left(alloc, ops, op.start)?;
    let after = left.with(alloc, ops, place)?;
    kept.insert(granule, after)?;
    Ok(left)
}
